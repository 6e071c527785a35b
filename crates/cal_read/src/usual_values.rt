ghost use Rattle.std.specs.Prelude.{◌≡◌, ◌≤◌, length, IfOk};
ghost use Rattle.cal_read.specs.Held.{HoldsSome};
ghost use Rattle.cal_read.specs.UsualValues.{ReadsEntries};

use crate::nodes::Nodes;
use crate::put_value::put_value_at;
use crate::spare::cut_to;
use crate::usual::Unusual;
use cal_context::{Context, Immediate};
use cal_value::Text;
use std::alloc::Global;

/// Makes the immediates those that pair the attributes of these ids with the values at a place, and
/// answers where these end. They are written over those that were there, whose memory serves again.
pub(crate) fn put_values_at(
    alloc: Global,
    nodes: &Nodes,
    context: &Context,
    ids: &[u64],
    line: &str,
    start: usize,
    spare: &mut Vec<Text>,
    imms: &mut Vec<Immediate>,
) -> Result<usize, Unusual>
    requires start { start ≤ length line.now }
    requires held { HoldsSome context.now nodes.now }
    ensures { IfOk result (λ end.
        ReadsEntries context.now nodes.now ids.now line.now start end imms.new.items) }
{
    let bytes = line.as_bytes();
    let mut place = start;
    for index in 0..ids.len() {
        if place == bytes.len() || bytes[place] != b'=' {
            return Err(Unusual);
        }
        let Some(attribute) = nodes.number(ids[index]) else {
            return Err(Unusual);
        };
        let kind = context.attribute_at(attribute).kind;
        place = put_value_at(alloc, kind, attribute, line, place + 1, spare, imms, index)?;
    }
    cut_to(imms, ids.len(), spare)?;
    Ok(place)
}
