//! Why there are no declarations.
ghost use Rattle.std.specs.Prelude.{◌≡◌};
ghost use Rattle.cal_declarations.specs.declared.end.DeclarationsEnd.TheVariants as ends;

use cal_script::ScriptKind;
use cal_value::OutOfMemory;
use thiserror::Error;

/// Why there are no declarations.
#[derive(Clone, Copy, Debug, PartialEq, Eq, Error)]
pub enum DeclarationsEnd {
    /// The first line that has a fault, and its kind. All lines are counted, from 1.
    #[error("line {line}: {kind}")]
    BadLine { line: u64, kind: ScriptKind },
    #[error("out of memory")]
    OutOfMemory,
}

impl From<OutOfMemory> for DeclarationsEnd {
    ghost from_gives = { λ _ end. end ≡ ends.OutOfMemory };

    fn from(_error: OutOfMemory) -> DeclarationsEnd {
        DeclarationsEnd::OutOfMemory
    }
}
