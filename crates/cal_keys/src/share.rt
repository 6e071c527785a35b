//! What one name of GROUP BY takes of a path, and lists of it in the order of the names.
ghost use Rattle.std.specs.Prelude.{◌≡◌, ◌++◌, ◌≤◌, filter, length, slice_range, OnOk};
ghost use Rattle.cal_context.specs.Lists.{IsFront};
ghost use Rattle.cal_keys.specs.Shares.{is_above, is_below, node_for as node_of, with_share};

use cal_context::NodeNumber;
use cal_value::OutOfMemory;

/// What one name takes of a path: the name's place, and the node in the tree of groups to which the
/// entries lead.
#[derive(Clone, Copy)]
pub(crate) struct Share {
    pub place: u32,
    pub node: NodeNumber,
}

/// The node of what the name at a place takes, or the root where that is nothing.
pub(crate) fn node_for(shares: &[Share], place: u32) -> NodeNumber
    ensures { result ≡ node_of shares.now place }
{
    for share in shares {
        if share.place == place {
            return share.node;
        }
    }
    NodeNumber::ROOT
}

/// Adds the shares between two places of a list behind it, with one more or in place of another.
pub(crate) fn add_with(
    list: &mut Vec<Share>,
    from: usize,
    to: usize,
    share: Share,
) -> Result<(), OutOfMemory>
    requires rise { from ≤ to }
    requires within { to ≤ length list.old.items }
    ensures added { OnOk result (list.new.items
        ≡ list.old.items ++ with_share share (slice_range list.old.items from to)) }
    ensures front { IsFront list.old.items list.new.items }
{
    add_below(list, from, to, share.place)?;
    list.push(share)?;
    add_above(list, from, to, share.place)
}

/// Adds those of them that stand below a place.
fn add_below(list: &mut Vec<Share>, from: usize, to: usize, place: u32) -> Result<(), OutOfMemory>
    requires rise { from ≤ to }
    requires within { to ≤ length list.old.items }
    ensures added { OnOk result (list.new.items
        ≡ list.old.items ++ filter (is_below place) (slice_range list.old.items from to)) }
    ensures front { IsFront list.old.items list.new.items }
{
    for at in from..to {
        let share = list[at];
        if share.place < place {
            list.push(share)?;
        }
    }
    Ok(())
}

/// Adds those of them that stand above a place.
fn add_above(list: &mut Vec<Share>, from: usize, to: usize, place: u32) -> Result<(), OutOfMemory>
    requires rise { from ≤ to }
    requires within { to ≤ length list.old.items }
    ensures added { OnOk result (list.new.items
        ≡ list.old.items ++ filter (is_above place) (slice_range list.old.items from to)) }
    ensures front { IsFront list.old.items list.new.items }
{
    for at in from..to {
        let share = list[at];
        if place < share.place {
            list.push(share)?;
        }
    }
    Ok(())
}
