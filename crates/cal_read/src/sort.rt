ghost use Rattle.cal_read.specs.Fields.{first_name, sort_named, sort_of};
ghost use Rattle.cal_read.specs.Steps.{Answers};

use crate::StreamKind;
use crate::end::LineEnd;
use crate::keys::has_key;
use cal_line::{Fields, Piece};
use std::alloc::Global;

/// The sort of a line.
#[derive(Clone, Copy, Debug, PartialEq, Eq)]
pub(crate) enum Sort {
    OfNode,
    OfRow,
    OfGlobals,
}

/// The sort that the first field names.
pub(crate) fn sort_of(alloc: Global, fields: &Fields) -> Result<Sort, LineEnd>
    ensures { Answers result (sort_of fields.now) }
{
    let name = first_name(alloc, fields)?.text(alloc)?;
    sort_named(name.as_str())
}

/// The one value of the first field, `__rec`.
fn first_name<'a>(alloc: Global, fields: &Fields<'a>) -> Result<Piece<'a>, LineEnd>
    ensures { Answers result (first_name fields.now) }
{
    if fields.len() == 0 {
        return Err(LineEnd::Bad(StreamKind::NoRecord));
    }
    let first = fields.get(0);
    if has_key(alloc, &first, "__rec")? && first.value_count() == 1 {
        Ok(first.value(0))
    } else {
        Err(LineEnd::Bad(StreamKind::NoRecord))
    }
}

fn sort_named(name: &str) -> Result<Sort, LineEnd>
    ensures { Answers result (sort_named name.now) }
{
    match name {
        "node" => Ok(Sort::OfNode),
        "ctx" => Ok(Sort::OfRow),
        "globals" => Ok(Sort::OfGlobals),
        _ => Err(LineEnd::Bad(StreamKind::NoRecord)),
    }
}
