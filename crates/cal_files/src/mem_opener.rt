//! An opener over files in memory.
ghost use Rattle.std.specs.Prelude.{◌≡◌, ◌+◌, ◌-◌, ◌^◌, ◌<◌, ◌⊎◌, ◌↔◌, [], length, take, drop, min};
ghost use Rattle.std.specs.Prelude.{None, Some, IfOk, IsErr, OnOk, OnErr, is_ok};
ghost use Rattle.std.specs.Io.{ReadsAtMost};
ghost use Rattle.std.specs.Option.{option_copied};
ghost use Rattle.cal_base.specs.Faults.{HasCause, counted_on, faults_after};
ghost use Rattle.cal_base.specs.InMemory.{NextFails};
ghost use Rattle.cal_base.specs.Told.{Takes};
ghost use Rattle.cal_files.specs.Counts.{openings_after};
ghost use Rattle.cal_files.specs.Holding.{bytes_named, left_of, unopened};

use crate::calls::Calls;
use crate::named_bytes::place_of;
use crate::place::Place;
use crate::{NamedBytes, Opener};
use cal_base::Failed;
use cal_value::Seq;
use std::marker::Model;

/// An opener of files in memory, with calls that are to fail.
#[derive(Debug, Drop)]
pub struct MemOpener {
    files: Seq<NamedBytes>,
    place: Option<Place>,
    opens: Calls,
    reads: Calls,
    openings: u64,
}

impl Model for MemOpener {
    ghost use Rattle.std.specs.Prelude.{◌≡◌, None};
    ghost use Rattle.cal_files.specs.Holding.{Holding, left_at};

    ghost Value = { Holding };

    ghost view = { λ o. record {
      files = o.files;
      left = left_at o.files o.place;
      opens = o.opens;
      reads = o.reads;
      openings = o.openings;
    } };

    ghost invariant = { λ o. o.openings ≡ 0 → o.place ≡ None };
}

impl MemOpener {
    /// An opener of these files, of which the first counts where two have one name. The calls of
    /// `open` and of `read` whose numbers are listed fail, each counted from 1. It takes no memory.
    pub fn new(files: Seq<NamedBytes>, open_failing: Seq<u64>, read_failing: Seq<u64>) -> Self
        ensures { result ≡ unopened files open_failing read_failing }
    {
        MemOpener {
            files,
            place: None,
            opens: Calls::new(open_failing),
            reads: Calls::new(read_failing),
            openings: 0,
        }
    }

    /// Moves the next bytes to the front of the buffer, as many as it takes, and answers how many.
    fn serve(&mut self, buf: &mut [u8]) -> usize
        ensures count { result ≡ min (length buf.old) (length self.old.left) }
        ensures given { take result buf.new ≡ take result self.old.left }
        ensures rest { self.new ≡ record self.old { left = drop result self.old.left } }
    {
        let Some(place) = &mut self.place else {
            return 0;
        };
        let count = copy_from(self.files.get(place.file), place.byte, buf);
        place.byte += count;
        count
    }
}

/// Copies what is left of a file from a byte on, as much as the buffer takes, and answers how much.
fn copy_from(file: Option<&NamedBytes>, byte: usize, buf: &mut [u8]) -> usize
    ensures count { let left = left_of (option_copied file.entry) byte in
        result ≡ min (length buf.old) (length left) }
    ensures given { take result buf.new ≡ take result (left_of (option_copied file.entry) byte) }
    ensures fits { byte + result < 2 ^ 64 }
{
    let Some(file) = file else {
        return 0;
    };
    let left = file.bytes.as_slice().get(byte..).unwrap_or_default();
    let count = buf.len().min(left.len());
    buf[..count].copy_from_slice(&left[..count]);
    count
}

impl Opener for MemOpener {
    ghost left = { λ o. Some o.left };

    ghost content = { λ o. bytes_named o.files };

    ghost read_faults = { λ o. o.reads.faults };

    ghost open_faults = { λ o. o.opens.faults };

    ghost openings = { λ o. o.openings };

    fn open(&mut self, name: &str) -> Result<(), Failed>
        requires { self.old.openings < 2 ^ 64 - 1 }

        // As at every opener.
        ensures first { self.old.openings ≡ 0 → self.old.left ≡ [] }
        ensures opened { OnOk result (Some self.new.left ≡ bytes_named self.old.files name.now) }
        ensures refused { OnErr result (self.new.left ≡ []) }
        ensures openings { self.new.openings
            ≡ openings_after (is_ok result) self.old.openings }
        ensures cause { HasCause self.old.opens.faults self.new.opens.faults result }
        ensures reads { self.new.reads.faults ≡ self.old.reads.faults }
        ensures content { bytes_named self.new.files ≡ bytes_named self.old.files }

        // It fails exactly on a listed call, and at a name that it doesn't hold.
        ensures listed { NextFails self.old.opens.failing self.old.opens.made → IsErr result }
        ensures unheld { bytes_named self.old.files name.now ≡ None → IsErr result }
        ensures only { IsErr result → NextFails self.old.opens.failing self.old.opens.made
            ⊎ (bytes_named self.old.files name.now ≡ None) }

        // It counts the call, and its fault.
        ensures counted { self.new.opens ≡ record self.old.opens {
          made = counted_on self.old.opens.made;
          faults = faults_after (is_ok result) self.old.opens.faults;
        } }
        ensures files { self.new.files ≡ self.old.files }
        ensures same_reads { self.new.reads ≡ self.old.reads }
    {
        self.place = None;
        self.opens.begin()?;
        let Some(file) = place_of(self.files.as_slice(), name) else {
            return Err(self.opens.fail());
        };
        self.place = Some(Place { file, byte: 0 });
        self.openings += 1;
        Ok(())
    }

    fn read(&mut self, buf: &mut [u8]) -> Result<usize, Failed>
        requires { 0 < length buf.old }

        // As at every opener.
        ensures bound { ReadsAtMost result buf.new }
        ensures taken { IfOk result (λ n. Takes (Some self.old.left)
            (Some self.new.left) (take n buf.new)) }
        ensures end { IfOk result (λ n. n ≡ 0 → self.old.left ≡ []) }
        ensures unchanged { OnErr result (self.new.left ≡ self.old.left) }
        ensures cause { HasCause self.old.reads.faults self.new.reads.faults result }
        ensures first { self.old.openings ≡ 0 → self.old.left ≡ [] }
        ensures opens { self.new.opens.faults ≡ self.old.opens.faults }
        ensures openings { self.new.openings ≡ self.old.openings }
        ensures content { bytes_named self.new.files ≡ bytes_named self.old.files }

        // It fails exactly on a listed call, and else gives as much as the buffer takes.
        ensures listed { IsErr result ↔ NextFails self.old.reads.failing self.old.reads.made }
        ensures count { IfOk result (λ n. n ≡ min (length buf.old) (length self.old.left)) }

        // It counts the call, and its fault.
        ensures counted { self.new.reads ≡ record self.old.reads {
          made = counted_on self.old.reads.made;
          faults = faults_after (is_ok result) self.old.reads.faults;
        } }
        ensures files { self.new.files ≡ self.old.files }
        ensures same_opens { self.new.opens ≡ self.old.opens }
    {
        self.reads.begin()?;
        Ok(self.serve(buf))
    }
}
