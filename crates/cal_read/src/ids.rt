ghost use Rattle.cal_read.specs.Fields.{id_of};
ghost use Rattle.cal_read.specs.Steps.{Answers};

use crate::StreamKind;
use crate::end::LineEnd;
use crate::number_at::number_at;
use cal_line::Piece;
use cal_value::{Kind, ValueFault, Variant, parse_value};
use std::alloc::Global;

/// The id that a piece is.
pub(crate) fn read_id(alloc: Global, piece: &Piece) -> Result<u64, LineEnd>
    ensures { Answers result (id_of piece.now) }
{
    let text = piece.text(alloc)?;
    id_in(alloc, text.as_str())
}

pub(crate) fn id_in(alloc: Global, text: &str) -> Result<u64, LineEnd>
    ensures { Answers result (id_of text.now) }
{
    if let Some(at) = number_at(text, 0) {
        if at.end == text.len() {
            return Ok(at.number);
        }
    }
    match parse_value(alloc, Kind::Uint, text) {
        Ok(Variant::Uint(id)) => Ok(id),
        Err(ValueFault::OutOfMemory) => Err(LineEnd::OutOfMemory),
        _ => Err(LineEnd::Bad(StreamKind::BadNumber)),
    }
}
