//! What the names of GROUP BY take of the paths of a record.
ghost use Rattle.std.specs.Prelude.{◌≡◌, ℕ, ◌+◌, true, List, filter, length, map, IfOk, OnOk};
ghost use Rattle.std.specs.List.{All};
ghost use Rattle.std.specs.List.Sorted.{IsNonDecreasingBy};
ghost use Rattle.cal_context.specs.Snapshots.{IsBelowRoot};
ghost use Rattle.cal_context.specs.Tree.{Grows, Tree, path_at};
ghost use Rattle.cal_value.specs.Flat.{joined as joined_paths};
ghost use Rattle.cal_value.specs.declared.attribute.Entry.{Entry as AnEntry};
ghost use Rattle.cal_keys.specs.Groups.{has_entries, taken};
ghost use Rattle.cal_keys.specs.Keys.{ArePaths};
ghost use Rattle.cal_keys.specs.Shares.{AreShares, IsShareIn, Rise, Say, is_below};
ghost use Rattle.cal_keys.specs.Shares.{node_for as node_of, with_path};
ghost use Rattle.cal_keys.specs.Sieves.{IsReadySieve};
ghost use Rattle.cal_keys.specs.Takers.{taken_at};

use crate::share::Share;
use crate::sieve::Sieve;
use crate::stepping::joined;
use cal_context::{Context, NodeNumber};
use cal_value::OutOfMemory;
use std::alloc::Global;

/// The nodes of what each name takes of the paths of nodes, of those that take something. `room` is
/// what they may take. It takes time for what is taken, and not for the names.
pub(crate) fn key_paths(
    alloc: Global,
    sieve: &Sieve,
    own: &mut Context,
    nodes: &[NodeNumber],
    room: Vec<NodeNumber>,
) -> Result<Vec<NodeNumber>, OutOfMemory>
    ensures paths { IfOk result (λ paths. (t : Tree) (names : List (List ℕ))
        → IsReadySieve t own.old names sieve.now → All (IsBelowRoot t) nodes.now
        → ArePaths own.new paths.items (filter has_entries
        (taken true names (joined_paths (map (path_at t) nodes.now))))) }
    ensures grows { OnOk result (Grows own.old own.new) }
{
    own.has_each_once();
    if let [node] = nodes {
        let paths = nodes_of(sieve.shares(*node), room)?;
        return Ok(paths);
    }
    let mut all = all_shares(alloc, sieve, own, nodes)?;
    all.sort_by_key(|share| share.place)?;
    let joined = join_shares(alloc, own, &all)?;
    own.has_each_once();
    let paths = nodes_of(&joined, room)?;
    Ok(paths)
}

/// The nodes of shares.
fn nodes_of(shares: &[Share], room: Vec<NodeNumber>) -> Result<Vec<NodeNumber>, OutOfMemory>
    ensures { IfOk result (λ nodes. nodes.items ≡ map (λ share. share.node) shares.now) }
{
    let mut nodes = room;
    nodes.clear();
    for share in shares {
        nodes.push(share.node)?;
    }
    Ok(nodes)
}

/// What is taken of the paths of nodes, one node's behind another's.
fn all_shares(
    alloc: Global,
    sieve: &Sieve,
    own: &Context,
    nodes: &[NodeNumber],
) -> Result<Vec<Share>, OutOfMemory>
    ensures { IfOk result (λ all. (t : Tree) (names : List (List ℕ))
        → IsReadySieve t own.now names sieve.now → All (IsBelowRoot t) nodes.now
        → Say own.now (length names)
        (λ place. taken_at true names place (joined_paths (map (path_at t) nodes.now)))
        all.items) }
{
    own.has_each_once();
    let mut all = Vec::new(alloc);
    for node in nodes {
        all.extend_from_slice(sieve.shares(*node))?;
    }
    Ok(all)
}

/// Shares in the order of the names, where each name has one.
fn join_shares(
    alloc: Global,
    own: &mut Context,
    shares: &[Share],
) -> Result<Vec<Share>, OutOfMemory>
    ensures shares { IfOk result (λ joined. (count : ℕ) (takes : ℕ → List AnEntry)
        → IsNonDecreasingBy (λ share. share.place) shares.now → Say own.old count takes shares.now
        → AreShares own.new count takes joined.items) }
    ensures grows { OnOk result (Grows own.old own.new) }
{
    own.has_each_once();
    let mut joined = Vec::new(alloc);
    for share in shares {
        join_share(alloc, own, &mut joined, *share)?;
    }
    Ok(joined)
}

/// Adds a share at the end, behind what its name takes already.
fn join_share(
    alloc: Global,
    own: &mut Context,
    shares: &mut Vec<Share>,
    share: Share,
) -> Result<(), OutOfMemory>
    ensures shares { OnOk result ((count : ℕ) (takes : ℕ → List AnEntry)
        → IsShareIn own.old count share → Rise 0 (share.place + 1) shares.old.items
        → AreShares own.old count takes shares.old.items
        → AreShares own.new count (with_path own.old share takes) shares.new.items) }
    ensures grows { OnOk result (Grows own.old own.new) }
{
    own.has_each_once();
    let place = share.place;
    let before = take_last(shares, place)?;
    let node = joined(alloc, own, before, share.node)?;
    own.has_each_once();
    shares.push(Share { place, node })?;
    Ok(())
}

/// Takes out the last share, if it is that of the name at a place: its node, or else the root.
fn take_last(shares: &mut Vec<Share>, place: u32) -> Result<NodeNumber, OutOfMemory>
    ensures node { IfOk result (λ node. Rise 0 (place + 1) shares.old.items
        → node ≡ node_of shares.old.items place) }
    ensures rest { OnOk result (Rise 0 (place + 1) shares.old.items
        → shares.new.items ≡ filter (is_below place) shares.old.items) }
{
    match shares.pop() {
        Some(last) => {
            if last.place == place {
                return Ok(last.node);
            }
            shares.push(last)?;
            Ok(NodeNumber::ROOT)
        }
        None => Ok(NodeNumber::ROOT),
    }
}
