ghost use Rattle.std.specs.Prelude.{◌≡◌, ◌≤◌, [], length, IfOk};
ghost use Rattle.cal_read.specs.Usual.{ReadsIds};
ghost use Rattle.cal_read.specs.UsualColumns.{ReadsEnds, ReadsHead};

use crate::nodes::Nodes;
use crate::number_at::number_at;
use crate::usual::{Unusual, behind};
use cal_context::NodeNumber;

/// Reads what stands before `attr`, and answers where that stands.
pub(crate) fn read_head(
    nodes: &Nodes,
    line: &str,
    ends: &mut Vec<NodeNumber>,
) -> Result<usize, Unusual>
    requires { ends.old.items ≡ [] }
    ensures { IfOk result (λ end. ReadsHead nodes.now line.now end ends.new.items) }
{
    let first = behind(line, 0, b"__rec=")?;
    let place = behind(line, first, b"ctx,")?;
    let Ok(start) = behind(line, place, b"ref") else {
        return Ok(place);
    };
    let end = push_nodes_at(nodes, line, start, ends)?;
    if end == start {
        return Err(Unusual);
    }
    behind(line, end, b",")
}

/// Pushes the nodes of the ids that the values at a place are, and answers where these end. An id
/// is looked up as soon as it is read.
fn push_nodes_at(
    nodes: &Nodes,
    line: &str,
    start: usize,
    ends: &mut Vec<NodeNumber>,
) -> Result<usize, Unusual>
    requires start { start ≤ length line.now }
    requires none { ends.old.items ≡ [] }
    ensures { IfOk result (λ end. ReadsEnds nodes.now line.now start end ends.new.items) }
{
    let bytes = line.as_bytes();
    let mut place = start;
    while place < bytes.len() && bytes[place] == b'=' {
        let Some(at) = number_at(line, place + 1) else {
            return Err(Unusual);
        };
        let Some(node) = nodes.node(at.number) else {
            return Err(Unusual);
        };
        ends.push(node)?;
        place = at.end;
    }
    Ok(place)
}

/// Pushes the ids that the values at a place are, and answers where these end.
pub(crate) fn push_ids_at(line: &str, start: usize, ids: &mut Vec<u64>) -> Result<usize, Unusual>
    requires start { start ≤ length line.now }
    requires none { ids.old.items ≡ [] }
    ensures { IfOk result (λ end. ReadsIds line.now start end ids.new.items) }
{
    let bytes = line.as_bytes();
    let mut place = start;
    while place < bytes.len() && bytes[place] == b'=' {
        let Some(at) = number_at(line, place + 1) else {
            return Err(Unusual);
        };
        ids.push(at.number)?;
        place = at.end;
    }
    Ok(place)
}
