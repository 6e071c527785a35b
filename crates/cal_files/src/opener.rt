//! What opens files by their names and reads them.
ghost use Rattle.std.specs.Prelude.{◌≡◌, ℕ, ◌-◌, ◌^◌, ◌<◌, List, Option, length, take};
ghost use Rattle.std.specs.Prelude.{IfOk, OnOk, OnErr, is_ok};
ghost use Rattle.std.specs.Io.{ReadsAtMost};
ghost use Rattle.std.specs.Io.KnownBytes.{IsAtEnd};
ghost use Rattle.cal_base.specs.Faults.{HasCause};
ghost use Rattle.cal_base.specs.Told.{Takes};
ghost use Rattle.cal_files.specs.Counts.{openings_after};

use cal_base::Failed;

/// Where files come from, one open at a time. It counts its faults and its openings.
pub trait Opener {
    /// The bytes left of the file that is open, where it tells.
    ghost left: { Self → Option (List ℕ) };

    /// The bytes of the file of a name, where it tells.
    ghost content: { Self → List ℕ → Option (List ℕ) };

    /// The count of reads that failed.
    ghost read_faults: { Self → ℕ };

    /// The count of openings that failed.
    ghost open_faults: { Self → ℕ };

    /// The number of openings that did well.
    ghost openings: { Self → ℕ };

    /// Opens the file of a name at its beginning, also where it was open before. After a refusal
    /// no file is open.
    fn open(&mut self, name: &str) -> Result<(), Failed>
        requires { openings self.old < 2 ^ 64 - 1 }

        // Before the first opening no bytes are left.
        ensures first { openings self.old ≡ 0 → IsAtEnd (left self.old) }

        // All bytes of the name are left, or none after a refusal.
        ensures opened { OnOk result (left self.new ≡ content self.old name.now) }
        ensures refused { OnErr result (IsAtEnd (left self.new)) }

        // It counts what it did, and leaves the rest.
        ensures openings { openings self.new ≡ openings_after (is_ok result) (openings self.old) }
        ensures cause { HasCause (open_faults self.old) (open_faults self.new) result }
        ensures reads { read_faults self.new ≡ read_faults self.old }
        ensures content { content self.new ≡ content self.old };

    /// Moves the next bytes of the open file to the front of the buffer, and answers how many: none
    /// only at the end, or where no file is open. What stands in the buffer behind them is left
    /// open, and after a refusal the whole buffer is.
    fn read(&mut self, buf: &mut [u8]) -> Result<usize, Failed>
        requires { 0 < length buf.old }

        // As at every source.
        ensures bound { ReadsAtMost result buf.new }
        ensures taken { IfOk result (λ n. Takes (left self.old) (left self.new) (take n buf.new)) }
        ensures end { IfOk result (λ n. n ≡ 0 → IsAtEnd (left self.old)) }
        ensures unchanged { OnErr result (left self.new ≡ left self.old) }
        ensures cause { HasCause (read_faults self.old) (read_faults self.new) result }

        // Before the first opening no bytes are left.
        ensures first { openings self.old ≡ 0 → IsAtEnd (left self.old) }

        // It opens nothing.
        ensures opens { open_faults self.new ≡ open_faults self.old }
        ensures openings { openings self.new ≡ openings self.old }
        ensures content { content self.new ≡ content self.old };
}
