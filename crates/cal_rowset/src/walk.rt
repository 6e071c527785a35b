ghost use Rattle.std.specs.Prelude.{◌≡◌, ◌<◌, List, [], ◌∷◌, ◌++◌, length, map, IfOk, OnOk};
ghost use Rattle.std.specs.Prelude.{slice_index_or, None};
ghost use Rattle.std.specs.List.{All};
ghost use Rattle.cal_value.specs.declared.attribute.Entry.{Entry};
ghost use Rattle.cal_context.specs.Tree.{Tree, path_at};
ghost use Rattle.cal_context.specs.declared.numbers.Link.{Link};
ghost use Rattle.cal_rowset.specs.Filling.{names};
ghost use Rattle.cal_rowset.specs.Known.{known_entries};
ghost use Rattle.cal_rowset.specs.Links.{IsEntryOf, link_entry};
ghost use Rattle.cal_rowset.specs.Rooms.{GoesTo, KnowsEach};
ghost use Rattle.cal_rowset.specs.Trails.{IsTrail};

use crate::Cells;
use cal_context::{AttributeNumber, Context, Link, NodeNumber};
use cal_value::OutOfMemory;

/// Leads cells that hold the path of a node, as far as its names are known, up to a node above
/// another one, and answers where they end. `links` has then the links from there down, in place of
/// what it had.
pub(crate) fn walk(
    context: &Context,
    cells: &mut Cells,
    places: &[Option<usize>],
    from: NodeNumber,
    to: NodeNumber,
    links: &mut Vec<Link>,
) -> Result<NodeNumber, OutOfMemory>
    requires from { from.0 < length context.now.paths }
    requires to { to.0 < length context.now.paths }
    ensures names { names cells.new ≡ names cells.old }
    ensures up { IfOk result (λ node. KnowsEach context.now (names cells.old) places.now
        → GoesTo context.now cells.old from cells.new node) }
    ensures root { IfOk result (λ node. from.0 ≡ 0 → node.0 ≡ 0) }
    ensures down { IfOk result (λ node. path_at context.now to
        ≡ path_at context.now node ++ map (link_entry context.now) links.new.items) }
    ensures entries { OnOk result (All (IsEntryOf context.now) links.new.items) }
{
    links.clear();
    let mut node = from;
    let mut below = to;
    while node.0 != below.0 {
        if node.0 > below.0 {
            node = up(context, cells, places, node);
        } else {
            below = note(context, below, links)?;
        }
    }
    links.reverse();
    Ok(node)
}

// leads cells from the path of a node to that of its parent
fn up(
    context: &Context,
    cells: &mut Cells,
    places: &[Option<usize>],
    node: NodeNumber,
) -> NodeNumber
    requires below { 0 < node.0 }
    requires within { node.0 < length context.now.paths }
    ensures names { names cells.new ≡ names cells.old }
    ensures less { result.0 < node.0 }
    ensures up { KnowsEach context.now (names cells.old) places.now
        → GoesTo context.now cells.old node cells.new result }
{
    match context.link(node) {
        Some(link) => {
            give_up(cells, places, link);
            link.parent
        }
        None => NodeNumber::ROOT,
    }
}

// gives up the entry of a link, if its name is known
fn give_up(cells: &mut Cells, places: &[Option<usize>], link: Link)
    ensures names { names cells.new ≡ names cells.old }
    ensures given { (t : Tree) (path : List Entry) → KnowsEach t (names cells.old) places.now
        → link.attribute.0 < length t.attributes
        → IsTrail cells.old (known_entries (names cells.old) (path ++ link_entry t link ∷ []))
        → IsTrail cells.new (known_entries (names cells.old) path) }
{
    if place_at(places, link.attribute).is_some() {
        cells.back();
    }
}

fn place_at(places: &[Option<usize>], attribute: AttributeNumber) -> Option<usize>
    ensures { result ≡ slice_index_or places.now attribute.0 None }
{
    *places.get(attribute.0 as usize)?
}

// notes how a node hangs in the tree, and answers its parent
fn note(
    context: &Context,
    node: NodeNumber,
    links: &mut Vec<Link>,
) -> Result<NodeNumber, OutOfMemory>
    requires below { 0 < node.0 }
    requires within { node.0 < length context.now.paths }
    ensures less { IfOk result (λ parent. parent.0 < node.0) }
    ensures entries { OnOk result (All (IsEntryOf context.now) links.old.items
        → All (IsEntryOf context.now) links.new.items) }
    ensures noted { IfOk result (λ parent. (link : Link)
        × (links.new.items ≡ links.old.items ++ link ∷ [])
        × (path_at context.now node
        ≡ path_at context.now parent ++ link_entry context.now link ∷ [])) }
{
    match context.link(node) {
        Some(link) => {
            links.push(link)?;
            Ok(link.parent)
        }
        None => Err(OutOfMemory),
    }
}
