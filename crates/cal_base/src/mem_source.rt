ghost use Rattle.std.specs.Prelude.{◌≡◌, ◌<◌, ◌↔◌, [], Some, length, take, drop, min, IfOk, OnErr, IsErr, is_ok};
ghost use Rattle.std.specs.Io.{ReadsAtMost};
ghost use Rattle.cal_base.specs.Faults.{HasCause, counted_on, faults_after};
ghost use Rattle.cal_base.specs.InMemory.{NextFails};
ghost use Rattle.cal_base.specs.Told.{Takes};

use crate::calls::Calls;
use crate::{Failed, Source};
use cal_value::Seq;
use std::marker::Model;

/// A source over bytes in memory, with calls that are to fail.
#[derive(Debug, Drop)]
pub struct MemSource {
    bytes: Seq<u8>,
    place: usize,
    calls: Calls,
}

impl Model for MemSource {
    ghost use Rattle.std.specs.Prelude.{◌≤◌, length, drop};
    ghost use Rattle.cal_base.specs.InMemory.{Stored};

    ghost Value = { Stored };

    ghost view = { λ s. record {
      left = drop s.place s.bytes;
      failing = s.calls.failing;
      calls = s.calls.made;
      faults = s.calls.faults;
    } };

    ghost invariant = { λ s. s.place ≤ length s.bytes };
}

impl MemSource {
    /// A source of these bytes. The calls whose numbers are listed fail, counted from 1. It takes
    /// no memory.
    pub fn new(bytes: Seq<u8>, failing: Seq<u64>) -> Self
        ensures { result ≡ record { left = bytes; failing = failing; calls = 0; faults = 0 } }
    {
        MemSource {
            bytes,
            place: 0,
            calls: Calls::new(failing),
        }
    }

    /// Moves the next bytes to the front of the buffer, as many as it takes, and answers how many.
    fn serve(&mut self, buf: &mut [u8]) -> usize
        ensures count { result ≡ min (length buf.old) (length self.old.left) }
        ensures given { take result buf.new ≡ take result self.old.left }
        ensures rest { self.new ≡ record self.old { left = drop result self.old.left } }
    {
        let left = &self.bytes.as_slice()[self.place..];
        let count = buf.len().min(left.len());
        buf[..count].copy_from_slice(&left[..count]);
        self.place += count;
        count
    }
}

impl Source for MemSource {
    ghost left = { λ s. Some s.left };

    ghost faults = { λ s. s.faults };

    fn read(&mut self, buf: &mut [u8]) -> Result<usize, Failed>
        requires { 0 < length buf.old }

        // As at every source.
        ensures bound { ReadsAtMost result buf.new }
        ensures taken { IfOk result (λ n. Takes (Some self.old.left)
            (Some self.new.left) (take n buf.new)) }
        ensures end { IfOk result (λ n. n ≡ 0 → self.old.left ≡ []) }
        ensures unchanged { OnErr result (self.new.left ≡ self.old.left) }
        ensures cause { HasCause self.old.faults self.new.faults result }

        // It fails exactly on a listed call, and else gives as much as the buffer takes.
        ensures listed { IsErr result ↔ NextFails self.old.failing self.old.calls }
        ensures count { IfOk result (λ n. n ≡ min (length buf.old) (length self.old.left)) }

        // It counts the call, and its fault.
        ensures calls { self.new.calls ≡ counted_on self.old.calls }
        ensures failing { self.new.failing ≡ self.old.failing }
        ensures faults { self.new.faults ≡ faults_after (is_ok result) self.old.faults }
    {
        self.calls.begin()?;
        Ok(self.serve(buf))
    }
}
