ghost use Rattle.std.specs.Prelude.{◌≡◌, ℕ, None, Some, List, map, IfOk, IfSome, OnOk};
ghost use Rattle.cal_context.specs.Snapshots.{IsIn, meaning};
ghost use Rattle.cal_context.specs.Tree.{Grows, path_at};
ghost use Rattle.cal_keys.specs.Groups.{group_of as group_by};
ghost use Rattle.cal_keys.specs.Keys.{IsKeyOf, key_in, nth_key, single_key};
ghost use Rattle.cal_keys.specs.Sieves.{IsReadySieve};

use crate::key_imms::key_imms;
use crate::key_paths::key_paths;
use crate::key_table::KeyTable;
use crate::sieve::Sieve;
use crate::stepping::path_of;
use cal_context::{Context, NodeNumber, Snapshot};
use cal_value::{Entry, Exact, OutOfMemory, Rec, Seq, TryCopy};
use std::alloc::Global;

/// The key of a group by numbers: the nodes of its paths, and that of the path which its immediates
/// make.
#[derive(PartialEq, Eq, Hash, Drop)]
pub struct GroupKey {
    paths: Seq<NodeNumber>,
    imms: NodeNumber,
}

impl GroupKey {
    /// The nodes of its paths.
    pub(crate) fn paths(&self) -> &[NodeNumber]
        ensures { result.now ≡ self.now.paths }
    {
        let _imms = self.imms;
        self.paths.as_slice()
    }

    /// The node of its immediates.
    pub(crate) fn imms(&self) -> NodeNumber
        ensures { result ≡ self.now.imms }
    {
        self.imms
    }

    /// The key of one node, or of none where that is the root.
    pub(crate) fn single(alloc: Global, node: NodeNumber) -> Result<GroupKey, OutOfMemory>
        ensures { IfOk result (λ key. key ≡ single_key node) }
    {
        let mut paths = Vec::new(alloc);
        if node.0 != 0 {
            paths.push(node)?;
        }
        Ok(GroupKey {
            paths: Seq::from_vec(paths),
            imms: NodeNumber::ROOT,
        })
    }

    /// The key of these nodes.
    pub fn of(paths: Vec<NodeNumber>, imms: NodeNumber) -> GroupKey
        ensures { result ≡ record { paths = paths.items; imms = imms } }
    {
        GroupKey {
            paths: Seq::from_vec(paths),
            imms,
        }
    }

    /// Its node, where it is that of one, or the root where it is that of none.
    pub(crate) fn single_node(&self) -> Option<NodeNumber>
        ensures { IfSome result (λ node. self.now ≡ single_key node) }
    {
        if self.imms.0 != 0 {
            return None;
        }
        match self.paths.as_slice() {
            [] => Some(NodeNumber::ROOT),
            [node] if node.0 != 0 => Some(*node),
            _ => None,
        }
    }

    /// The node of its first path, or else that of its immediates.
    pub(crate) fn first(&self) -> NodeNumber {
        match self.paths.as_slice().first() {
            Some(node) => *node,
            None => self.imms,
        }
    }

    /// The room that its paths take.
    pub fn into_room(self) -> Vec<NodeNumber> {
        self.paths.into_vec()
    }
}

impl Exact for GroupKey {
    ghost use Rattle.std.proofs.Common.{rules};
    ghost use Rattle.std.proofs.lemmas.Grind.{common_steps};
    ghost use Rattle.cal_value.specs.ExactOrder.{lists_tell};

    ghost tells = { Prim.search (rules, common_steps, lists_tell) };
}

impl TryCopy for GroupKey {
    fn copy(&self, alloc: Global) -> Result<Self, OutOfMemory> {
        Ok(GroupKey {
            paths: Seq::from_vec(Vec::from_slice(alloc, self.paths.as_slice())?),
            imms: self.imms,
        })
    }
}

/// The key of a record without GROUP BY, in the tree of its context. `room` is what its paths may
/// take.
pub fn key_by_nodes(
    context: &Context,
    snapshot: &Snapshot,
    room: Vec<NodeNumber>,
) -> Result<GroupKey, OutOfMemory>
    requires { IsIn context.now snapshot.now }
    ensures { IfOk result
        (IsKeyOf context.now (group_by None (meaning context.now snapshot.now))) }
{
    context.has_each_once();
    let mut paths = room;
    paths.clear();
    paths.extend_from_slice(&snapshot.nodes)?;
    Ok(GroupKey {
        paths: Seq::from_vec(paths),
        imms: NodeNumber::ROOT,
    })
}

/// The key of a record by the names of GROUP BY, in the tree of groups. The node of its immediates
/// may be `near`, and `room` is what its paths may take.
pub fn key_by_names(
    alloc: Global,
    context: &Context,
    sieve: &Sieve,
    own: &mut Context,
    snapshot: &Snapshot,
    near: NodeNumber,
    room: Vec<NodeNumber>,
) -> Result<GroupKey, OutOfMemory>
    requires { IsIn context.now snapshot.now }
    ensures key { IfOk result (λ key. (names : List (List ℕ))
        → IsReadySieve context.now own.old names sieve.now
        → IsKeyOf own.new (group_by (Some names) (meaning context.now snapshot.now)) key) }
    ensures grows { OnOk result (Grows own.old own.new) }
{
    let paths = key_paths(alloc, sieve, own, &snapshot.nodes, room)?;
    let imms = key_imms(alloc, context, sieve, own, &snapshot.imms, near)?;
    Ok(GroupKey {
        paths: Seq::from_vec(paths),
        imms,
    })
}

/// The group that a number's key means.
pub(crate) fn expanded(
    alloc: Global,
    context: &Context,
    keys: &KeyTable,
    number: usize,
) -> Result<Rec, OutOfMemory>
    ensures { IfOk result (λ group. group ≡ key_in context.now (nth_key keys.now number)) }
{
    Ok(Rec {
        paths: paths_of(alloc, context, keys.paths(number))?,
        imms: path_of(alloc, context, keys.imms(number))?,
    })
}

fn paths_of(
    alloc: Global,
    context: &Context,
    nodes: &[NodeNumber],
) -> Result<Seq<Seq<Entry>>, OutOfMemory>
    ensures { IfOk result (λ paths. paths ≡ map (path_at context.now) nodes.now) }
{
    let mut paths = Vec::with_capacity(alloc, nodes.len())?;
    for node in nodes {
        paths.push(path_of(alloc, context, *node)?)?;
    }
    Ok(Seq::from_vec(paths))
}
