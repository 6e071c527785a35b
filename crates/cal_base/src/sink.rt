ghost use Rattle.std.specs.Prelude.{ℕ, List, Option, OnOk, OnErr};
ghost use Rattle.cal_base.specs.Faults.{HasCause};
ghost use Rattle.cal_base.specs.Told.{Appends, AppendsFront};

use crate::Failed;

/// Where bytes go. It counts its faults.
pub trait Sink {
    /// The bytes written, where it tells.
    ghost written: { Self → Option (List ℕ) };

    /// The count of faults.
    ghost faults: { Self → ℕ };

    /// Appends all these bytes, or fails and has appended some front of them.
    fn put(&mut self, bytes: &[u8]) -> Result<(), Failed>
        ensures ok { OnOk result (Appends (written self.old) (written self.new) bytes.now) }
        ensures front { OnErr result (AppendsFront (written self.old)
            (written self.new) bytes.now) }
        ensures cause { HasCause (faults self.old) (faults self.new) result };
}
