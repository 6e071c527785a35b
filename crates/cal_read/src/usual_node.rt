ghost use Rattle.std.specs.Prelude.{◌≡◌, ◌≤◌, length, IfOk};
ghost use Rattle.cal_read.specs.UsualNodes.{IsIdBehind, IsParentAt, IsUsualNode};

use crate::node_texts::NodeIds;
use crate::number_at::{NumberAt, number_at};
use crate::usual::{Unusual, behind, plain_end};

/// A node as its line gives it: its ids, and the text of its value.
#[derive(Clone, Copy, Debug)]
pub(crate) struct UsualNode<'a> {
    pub(crate) ids: NodeIds,
    pub(crate) text: &'a str,
}

/// Reads a node in one go from a line like `__rec=node,id=7,attr=8,data=a,parent=6`, in which
/// nothing is escaped. An `Err` says nothing of the line.
pub(crate) fn usual_node<'a>(line: &'a str) -> Result<UsualNode<'a>, Unusual>
    ensures { IfOk result (λ node. IsUsualNode line.now node.ids node.text.now) }
{
    let start = behind(line, 0, b"__rec=")?;
    let id = id_behind(line, start, b"node,id=")?;
    let attribute = id_behind(line, id.end, b",attr=")?;
    let place = behind(line, attribute.end, b",data")?;
    let bytes = line.as_bytes();
    if place == bytes.len() || bytes[place] != b'=' {
        return Err(Unusual);
    }
    let end = plain_end(line, place + 1);
    let parent = parent_at(line, end)?;
    let ids = NodeIds {
        id: id.number,
        attribute: attribute.number,
        parent,
    };
    Ok(UsualNode {
        ids,
        text: &line[place + 1..end],
    })
}

/// The id of the parent that ends a line, if one does.
fn parent_at(line: &str, place: usize) -> Result<Option<u64>, Unusual>
    requires { place ≤ length line.now }
    ensures { IfOk result (λ parent. IsParentAt line.now place parent) }
{
    if place == line.len() {
        return Ok(None);
    }
    let parent = id_behind(line, place, b",parent=")?;
    if parent.end < line.len() {
        return Err(Unusual);
    }
    Ok(Some(parent.number))
}

/// The id behind these bytes, where they stand at a place.
fn id_behind(line: &str, place: usize, bytes: &[u8]) -> Result<NumberAt, Unusual>
    requires { place ≤ length line.now }
    ensures { IfOk result (λ found. IsIdBehind line.now place bytes.now found.end found.number) }
{
    let start = behind(line, place, bytes)?;
    match number_at(line, start) {
        Some(at) => Ok(at),
        None => Err(Unusual),
    }
}
