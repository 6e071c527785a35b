ghost use Rattle.std.specs.Prelude.{◌≡◌, ◌⊎◌, ◌↔◌, [], ◌++◌, Some, IsTrue, IfOk, OnOk, OnErr, IsErr, is_ok};
ghost use Rattle.cal_base.specs.Faults.{HasCause, counted_on, faults_after};
ghost use Rattle.cal_base.specs.InMemory.{NextFails, Overflows, fitting};
ghost use Rattle.cal_base.specs.Told.{Appends, AppendsFront};

use crate::calls::Calls;
use crate::{Failed, Sink};
use cal_value::{OutOfMemory, Seq};
use std::alloc::Global;
use std::marker::Model;

/// A sink in memory, with room for a number of bytes, and with calls that are to fail.
#[derive(Debug, Drop)]
pub struct MemSink {
    written: Vec<u8>,
    room: usize,
    calls: Calls,
}

impl Model for MemSink {
    ghost use Rattle.std.specs.Prelude.{◌≤◌, vec_len, vec_capacity};
    ghost use Rattle.cal_base.specs.InMemory.{Storing};

    ghost Value = { Storing };

    ghost view = { λ s. record {
      written = s.written.items;
      room = s.room;
      failing = s.calls.failing;
      calls = s.calls.made;
      faults = s.calls.faults;
    } };

    ghost invariant = { λ s. (vec_len s.written ≤ s.room) × (s.room ≤ vec_capacity s.written) };
}

impl MemSink {
    /// A sink for at most so many bytes, for which it takes the room now. The calls whose numbers
    /// are listed fail, counted from 1.
    pub fn new(alloc: Global, room: u64, failing: Seq<u64>) -> Result<Self, OutOfMemory>
        ensures { IfOk result (λ sink. sink
            ≡ record { written = []; room = room; failing = failing; calls = 0; faults = 0 }) }
    {
        let room = room as usize;
        Ok(MemSink {
            written: Vec::with_capacity(alloc, room)?,
            room,
            calls: Calls::new(failing),
        })
    }

    /// The bytes written.
    pub fn bytes(&self) -> &[u8]
        ensures { result.now ≡ self.now.written }
    {
        self.written.as_slice()
    }

    /// Appends what fits of these bytes, and answers whether that is all of them.
    fn store(&mut self, bytes: &[u8]) -> bool
        ensures whole { IsTrue result ↔ ¬ Overflows self.old bytes.now }
        ensures after { self.new
            ≡ record self.old { written = self.old.written ++ fitting self.old bytes.now } }
    {
        let count = bytes.len().min(self.room - self.written.len());
        self.written.extend_from_slice(&bytes[..count]).unwrap();
        count == bytes.len()
    }
}

impl Sink for MemSink {
    ghost written = { λ s. Some s.written };

    ghost faults = { λ s. s.faults };

    fn put(&mut self, bytes: &[u8]) -> Result<(), Failed>
        // As at every sink.
        ensures ok { OnOk result (Appends (Some self.old.written)
            (Some self.new.written) bytes.now) }
        ensures front { OnErr result (AppendsFront (Some self.old.written)
            (Some self.new.written) bytes.now) }
        ensures cause { HasCause self.old.faults self.new.faults result }

        // It fails exactly on a listed call, and where the piece doesn't fit.
        ensures listed { NextFails self.old.failing self.old.calls → IsErr result }
        ensures full { Overflows self.old bytes.now → IsErr result }
        ensures only { IsErr result
            → NextFails self.old.failing self.old.calls ⊎ Overflows self.old bytes.now }

        // On a listed call it appends nothing, and else what fits.
        ensures nothing { NextFails self.old.failing self.old.calls
            → self.new.written ≡ self.old.written }
        ensures fits { ¬ NextFails self.old.failing self.old.calls
            → self.new.written ≡ self.old.written ++ fitting self.old bytes.now }

        // It counts the call, and its fault.
        ensures calls { self.new.calls ≡ counted_on self.old.calls }
        ensures room { self.new.room ≡ self.old.room }
        ensures failing { self.new.failing ≡ self.old.failing }
        ensures faults { self.new.faults ≡ faults_after (is_ok result) self.old.faults }
    {
        self.calls.begin()?;
        if self.store(bytes) {
            Ok(())
        } else {
            Err(self.calls.fail())
        }
    }
}
