ghost use Rattle.cal_read.specs.Fields.{only, values_of};
ghost use Rattle.cal_read.specs.NodeLines.{at_most_one, ids_of, texts_of};
ghost use Rattle.cal_read.specs.Steps.{Answers};

use crate::StreamKind;
use crate::end::LineEnd;
use crate::ids::read_id;
use crate::keys::field_with_key;
use cal_line::{Fields, Piece};
use std::alloc::Global;

/// The four fields of a `node` line.
#[derive(Debug, Drop)]
pub(crate) struct NodeTexts<'a> {
    pub(crate) id: Piece<'a>,
    pub(crate) attribute: Piece<'a>,
    pub(crate) value: Piece<'a>,
    pub(crate) parent: Option<Piece<'a>>,
}

/// The three ids of a `node` line.
#[derive(Clone, Copy, Debug)]
pub(crate) struct NodeIds {
    pub(crate) id: u64,
    pub(crate) attribute: u64,
    pub(crate) parent: Option<u64>,
}

/// The four fields, each with one value.
pub(crate) fn texts_of<'a>(alloc: Global, fields: &Fields<'a>) -> Result<NodeTexts<'a>, LineEnd>
    ensures { Answers result (texts_of fields.now) }
{
    let id = only_value(alloc, fields, "id")?;
    let attribute = only_value(alloc, fields, "attr")?;
    let value = only_value(alloc, fields, "data")?;
    let parent = at_most_one(alloc, fields, "parent")?;
    Ok(NodeTexts {
        id,
        attribute,
        value,
        parent,
    })
}

/// The one value of the field with this key.
fn only_value<'a>(alloc: Global, fields: &Fields<'a>, key: &str) -> Result<Piece<'a>, LineEnd>
    ensures { Answers result (only StreamKind.MissingField (values_of key.now fields.now)) }
{
    match at_most_one(alloc, fields, key)? {
        Some(piece) => Ok(piece),
        None => Err(LineEnd::Bad(StreamKind::MissingField)),
    }
}

/// The value of the field with this key, which may be absent.
fn at_most_one<'a>(
    alloc: Global,
    fields: &Fields<'a>,
    key: &str,
) -> Result<Option<Piece<'a>>, LineEnd>
    ensures { Answers result (at_most_one (values_of key.now fields.now)) }
{
    let Some(field) = field_with_key(alloc, fields, key)? else {
        return Ok(None);
    };
    match field.value_count() {
        0 => Ok(None),
        1 => Ok(Some(field.value(0))),
        _ => Err(LineEnd::Bad(StreamKind::MissingField)),
    }
}

/// The three ids.
pub(crate) fn ids_of(alloc: Global, texts: &NodeTexts) -> Result<NodeIds, LineEnd>
    ensures { Answers result (ids_of texts.now) }
{
    let id = read_id(alloc, &texts.id)?;
    let attribute = read_id(alloc, &texts.attribute)?;
    let parent = match &texts.parent {
        Some(parent) => Some(read_id(alloc, parent)?),
        None => None,
    };
    Ok(NodeIds {
        id,
        attribute,
        parent,
    })
}
