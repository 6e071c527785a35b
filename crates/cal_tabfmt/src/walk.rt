ghost use Rattle.std.specs.Prelude.{◌≡◌, ◌<◌, [], ◌∷◌, ◌++◌, length, map, IfOk, OnOk};
ghost use Rattle.std.specs.List.{All};
ghost use Rattle.cal_context.specs.Tree.{path_at};
ghost use Rattle.cal_context.specs.declared.numbers.Link.{Link};
ghost use Rattle.cal_rowset.specs.Filling.{names};
ghost use Rattle.cal_rowset.specs.Links.{IsEntryOf, link_entry};
ghost use Rattle.cal_rowset.specs.Trails.{IsTrail};

use cal_context::{Context, Link, NodeNumber};
use cal_rowset::Cells;
use cal_value::OutOfMemory;

/// Leads a trail that holds the path of a node up to a node above another one, and answers where it
/// ends. `links` has then the links from there down, in place of what it had.
pub(crate) fn walk(
    context: &Context,
    trail: &mut Cells,
    from: NodeNumber,
    to: NodeNumber,
    links: &mut Vec<Link>,
) -> Result<NodeNumber, OutOfMemory>
    requires from { from.0 < length context.now.paths }
    requires to { to.0 < length context.now.paths }
    ensures names { names trail.new ≡ names trail.old }
    ensures within { IfOk result (λ node. node.0 < length context.now.paths) }
    ensures up { IfOk result (λ node. IsTrail trail.old (path_at context.now from)
        → IsTrail trail.new (path_at context.now node)) }
    ensures down { IfOk result (λ node. path_at context.now to
        ≡ path_at context.now node ++ map (link_entry context.now) links.new.items) }
    ensures entries { OnOk result (All (IsEntryOf context.now) links.new.items) }
{
    links.clear();
    let mut node = from;
    let mut below = to;
    while node.0 != below.0 {
        if node.0 > below.0 {
            node = up(context, trail, node);
        } else {
            below = note(context, below, links)?;
        }
    }
    links.reverse();
    Ok(node)
}

// leads a trail from the path of a node to that of its parent
fn up(context: &Context, trail: &mut Cells, node: NodeNumber) -> NodeNumber
    requires below { 0 < node.0 }
    requires within { node.0 < length context.now.paths }
    ensures names { names trail.new ≡ names trail.old }
    ensures less { result.0 < node.0 }
    ensures up { IsTrail trail.old (path_at context.now node)
        → IsTrail trail.new (path_at context.now result) }
{
    match context.link(node) {
        Some(link) => {
            trail.back();
            link.parent
        }
        None => NodeNumber::ROOT,
    }
}

// notes how a node hangs in the tree, and answers its parent
fn note(
    context: &Context,
    node: NodeNumber,
    links: &mut Vec<Link>,
) -> Result<NodeNumber, OutOfMemory>
    requires below { 0 < node.0 }
    requires within { node.0 < length context.now.paths }
    ensures less { IfOk result (λ parent. parent.0 < node.0) }
    ensures entries { OnOk result (All (IsEntryOf context.now) links.old.items
        → All (IsEntryOf context.now) links.new.items) }
    ensures noted { IfOk result (λ parent. (link : Link)
        × (links.new.items ≡ links.old.items ++ link ∷ [])
        × (path_at context.now node
        ≡ path_at context.now parent ++ link_entry context.now link ∷ [])) }
{
    match context.link(node) {
        Some(link) => {
            links.push(link)?;
            Ok(link.parent)
        }
        None => Err(OutOfMemory),
    }
}
