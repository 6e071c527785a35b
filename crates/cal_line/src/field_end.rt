use cal_value::OutOfMemory;
use thiserror::Error;

/// Why a line or a text wasn't read.
#[derive(Clone, Copy, Debug, PartialEq, Eq, Error)]
pub enum FieldEnd {
    #[error("not a list of fields")]
    BadField,
    #[error("out of memory")]
    OutOfMemory,
}

impl From<OutOfMemory> for FieldEnd {
    ghost use Rattle.std.specs.Prelude.{◌≡◌};
    ghost use Rattle.cal_line.specs.declared.field_end.FieldEnd.TheVariants.{OutOfMemory};

    ghost from_gives = { λ _ e. e ≡ OutOfMemory };

    fn from(_error: OutOfMemory) -> FieldEnd {
        FieldEnd::OutOfMemory
    }
}
