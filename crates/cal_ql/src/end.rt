ghost use Rattle.cal_ql.specs.declared.end.QueryEnd.TheVariants as ends;
ghost use Rattle.std.specs.Prelude.{◌≡◌};

use crate::QueryKind;
use cal_value::OutOfMemory;
use thiserror::Error;

/// Why there is no query.
#[derive(Clone, Copy, Debug, PartialEq, Eq, Error)]
pub enum QueryEnd {
    /// The first token that can't be taken. The place is its first byte, or at the end the text's
    /// length.
    #[error("byte {place}: {kind}")]
    BadQuery { place: u64, kind: QueryKind },
    #[error("out of memory")]
    OutOfMemory,
}

impl From<OutOfMemory> for QueryEnd {
    ghost from_gives = { λ _ end. end ≡ ends.OutOfMemory };

    fn from(_error: OutOfMemory) -> QueryEnd {
        QueryEnd::OutOfMemory
    }
}
