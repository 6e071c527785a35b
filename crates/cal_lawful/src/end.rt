ghost use Rattle.std.specs.Prelude.{◌≡◌};
ghost use Rattle.cal_lawful.specs.declared.end.CoreEnd.TheVariants as ends;

use cal_journal::JournalKind;
use cal_value::OutOfMemory;
use thiserror::Error;

/// Why no run is read off a journal.
#[derive(Clone, Copy, Debug, PartialEq, Eq, Error)]
pub enum CoreEnd {
    /// The first rule that the journal breaks, and the first of the input's lines on which it breaks
    /// it.
    #[error("line {line}: {kind}")]
    JournalFault { line: u64, kind: JournalKind },
    #[error("out of memory")]
    OutOfMemory,
}

impl From<OutOfMemory> for CoreEnd {
    ghost from_gives = { λ _ end. end ≡ ends.OutOfMemory };

    fn from(_error: OutOfMemory) -> CoreEnd {
        CoreEnd::OutOfMemory
    }
}
