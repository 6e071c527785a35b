use cal_base::ReadEnd;
use cal_read::{StreamEnd, StreamKind};
use cal_value::OutOfMemory;
use thiserror::Error;

/// Why an input isn't laid out.
#[derive(Clone, Copy, Debug, PartialEq, Eq, Error)]
pub enum RowsEnd {
    /// The first line of the stream that goes wrong. All lines are counted, from 1.
    #[error("line {line}: {kind}")]
    BadLine { line: u64, kind: StreamKind },
    #[error("a read failed")]
    ReadFault,
    #[error("the input is too long")]
    TooLong,
    #[error("out of memory")]
    OutOfMemory,
}

impl From<ReadEnd> for RowsEnd {
    ghost use Rattle.std.specs.Prelude.{◌≡◌};
    ghost use Rattle.cal_query.specs.Ends.{rows_end};

    ghost from_gives = { λ end e. e ≡ rows_end end };

    fn from(end: ReadEnd) -> RowsEnd {
        match end {
            ReadEnd::ReadFault => RowsEnd::ReadFault,
            ReadEnd::TooLong => RowsEnd::TooLong,
            ReadEnd::OutOfMemory => RowsEnd::OutOfMemory,
        }
    }
}

impl From<StreamEnd> for RowsEnd {
    ghost use Rattle.std.specs.Prelude.{◌≡◌};
    ghost use Rattle.cal_query.specs.Ends.{end_of_stream};

    ghost from_gives = { λ end e. e ≡ end_of_stream end };

    fn from(end: StreamEnd) -> RowsEnd {
        match end {
            StreamEnd::BadLine { line, kind } => RowsEnd::BadLine { line, kind },
            StreamEnd::OutOfMemory => RowsEnd::OutOfMemory,
        }
    }
}

impl From<OutOfMemory> for RowsEnd {
    ghost use Rattle.std.specs.Prelude.{◌≡◌};
    ghost use Rattle.cal_query.specs.declared.end.RowsEnd.TheVariants as ends;

    ghost from_gives = { λ _ e. e ≡ ends.OutOfMemory };

    fn from(_error: OutOfMemory) -> RowsEnd {
        RowsEnd::OutOfMemory
    }
}
