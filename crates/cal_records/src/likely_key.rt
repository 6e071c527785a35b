//! The likely place of a row.
ghost use Rattle.std.specs.Prelude.{◌≡◌};
ghost use Rattle.cal_records.specs.Likely.{likely_key as key_of, node_place, place_in};

use cal_context::{Context, NodeNumber};

/// The places of the first two nodes of a list.
pub(crate) fn likely_key(context: &Context, places: &[u32], nodes: &[NodeNumber]) -> (u32, u32)
    ensures { result ≡ key_of context.now places.now nodes.now }
{
    (
        place_at(context, places, nodes, 0),
        place_at(context, places, nodes, 1),
    )
}

/// The place of the node at an index, or the root's behind the end.
fn place_at(context: &Context, places: &[u32], nodes: &[NodeNumber], index: usize) -> u32
    ensures { result ≡ place_in context.now places.now nodes.now index }
{
    match nodes.get(index) {
        Some(node) => place_of(context, places, *node),
        None => 0,
    }
}

fn place_of(context: &Context, places: &[u32], node: NodeNumber) -> u32
    ensures { result ≡ node_place context.now places.now node }
{
    if context.node_count() <= node.0 as usize || node.0 == 0 {
        return 0;
    }
    match places.get(node.0 as usize) {
        Some(place) => *place,
        None => 0,
    }
}
