ghost use Rattle.std.specs.Prelude.{◌≡◌};
ghost use Rattle.cal_run.specs.Lines.{operation_of};

use cal_script::Line;
use cal_words::OpCode;

/// What a line does to a board: `attr` is a place in the script's attributes and `value` one in its
/// values, and 0 for an end.
#[derive(Clone, Copy, Debug, PartialEq, Eq)]
pub struct Operation {
    pub code: OpCode,
    pub attr: u32,
    pub value: u32,
}

/// What a line does to a board, if it does anything to one.
#[inline(always)]
pub fn operation_of(line: Line) -> Option<Operation>
    ensures { result ≡ operation_of line }
{
    match line {
        Line::Begin { attr, value } => Some(Operation {
            code: OpCode::Begin,
            attr,
            value,
        }),
        Line::Set { attr, value } => Some(Operation {
            code: OpCode::Set,
            attr,
            value,
        }),
        Line::End { attr } => Some(Operation {
            code: OpCode::End,
            attr,
            value: 0,
        }),
        Line::Snapshot | Line::Flush { .. } | Line::Tick { .. } => None,
    }
}
