ghost use Rattle.cal_journal.specs.declared.ends.BothEnd.TheVariants as both_ends;
ghost use Rattle.cal_journal.specs.declared.ends.LineFault.TheVariants as faults;
ghost use Rattle.std.specs.Prelude.{◌≡◌};

use crate::JournalKind;
use cal_script::ScriptKind;
use cal_value::OutOfMemory;
use thiserror::Error;

/// Why there is no script with a journal. All lines of the input are counted, from 1.
#[derive(Clone, Copy, Debug, PartialEq, Eq, Error)]
pub enum BothEnd {
    /// The first line of the script that has a fault.
    #[error("line {line}: {kind}")]
    Script { line: u64, kind: ScriptKind },
    /// The first line at which the journal breaks one of the rules Form, Cut and After.
    #[error("line {line}: {kind}")]
    Journal { line: u64, kind: JournalKind },
    #[error("out of memory")]
    OutOfMemory,
}

impl From<OutOfMemory> for BothEnd {
    ghost from_gives = { λ _ end. end ≡ both_ends.OutOfMemory };

    fn from(_error: OutOfMemory) -> BothEnd {
        BothEnd::OutOfMemory
    }
}

/// Why a line adds nothing to a journal.
#[derive(Clone, Copy, Debug, PartialEq, Eq)]
pub(crate) enum LineFault {
    /// It isn't of a form, or not where that may stand.
    Form,
    /// It stands behind the end.
    After,
    OutOfMemory,
}

impl From<OutOfMemory> for LineFault {
    ghost from_gives = { λ _ end. end ≡ faults.OutOfMemory };

    fn from(_error: OutOfMemory) -> LineFault {
        LineFault::OutOfMemory
    }
}
