ghost use Rattle.std.specs.Prelude.{◌≡◌, [], ◌∷◌, ◌++◌, List, is_some, IfOk, OnOk};
ghost use Rattle.std.specs.List.{All};
ghost use Rattle.cal_context.specs.Snapshots.{IsIn, meaning};
ghost use Rattle.cal_context.specs.Tree.{Grows, Tree};
ghost use Rattle.cal_ql.specs.declared.query.Query.{Query as AQuery};
ghost use Rattle.cal_value.specs.declared.record.Rec.{Rec as ARecord};
ghost use Rattle.cal_keys.specs.Groups.{group_of};
ghost use Rattle.cal_keys.specs.Keys.{IsKeyOf, names_in, room_of};
ghost use Rattle.cal_keys.specs.Sieves.{IsReadySieve};
ghost use Rattle.cal_engine.specs.Tallies.{IsReadyTally, IsTally};

use crate::joining::merge_groups;
use crate::numbered::NumberedGroups;
use cal_context::{Context, NodeNumber, Snapshot};
use cal_filter::Counts;
use cal_keys::{GroupKey, Sieve, key_by_names, key_by_nodes};
use cal_parts::{Counters, readings_of};
use cal_ql::Query;
use cal_seeds::Seeds;
use cal_value::OutOfMemory;
use std::alloc::Global;
use std::mem;

/// The groups of an aggregated query over records by number, and what is kept beside the numbers.
#[derive(Drop)]
pub(crate) struct Tally {
    counters: Counters,
    sieve: Sieve,
    // the tree of groups, in which the paths lie that the names of GROUP BY take
    own: Context,
    // so much of the context of records the counters and the sieve know
    known: Counts,
    groups: NumberedGroups,
    // room to work in
    nodes: Vec<NodeNumber>,
}

impl Tally {
    /// The tally of no record, where groups and names hash by these seeds.
    pub(crate) fn new(alloc: Global, seeds: Seeds, query: &Query) -> Result<Tally, OutOfMemory>
        ensures { IfOk result (λ tally. (t : Tree) → IsTally t query.now [] tally) }
    {
        let readings = readings_of(alloc, query.aggs.as_slice())?;
        let counters = Counters::of(alloc, seeds, &readings)?;
        let sieve = Sieve::of(alloc, seeds, &query.group)?;
        Ok(Tally {
            counters,
            sieve,
            own: Context::seeded(alloc, seeds),
            known: Counts::NONE,
            groups: NumberedGroups::new(alloc, seeds),
            nodes: Vec::new(alloc),
        })
    }

    /// Adds a record of a query, which has GROUP BY or not.
    pub(crate) fn take(
        &mut self,
        alloc: Global,
        by_name: bool,
        context: &Context,
        snapshot: &Snapshot,
    ) -> Result<(), OutOfMemory>
        requires { IsIn context.now snapshot.now }
        ensures { OnOk result ((q : AQuery) (rs : List ARecord) → by_name ≡ is_some q.group
            → IsTally context.now q rs self.old
            → IsTally context.now q (rs ++ meaning context.now snapshot.now ∷ []) self.new) }
    {
        context.has_each_once();
        self.catch_up(context)?;
        let key = key_of(
            alloc,
            by_name,
            context,
            snapshot,
            &self.sieve,
            &mut self.own,
            self.groups.near(),
            mem::replace(&mut self.nodes, Vec::new(alloc)),
        )?;
        self.own.has_each_once();
        self.groups
            .gather(alloc, &key, &self.counters, context, snapshot)?;
        self.nodes = key.into_room();
        Ok(())
    }

    /// Lets the counters and the sieve know what is new in a context.
    fn catch_up(&mut self, context: &Context) -> Result<(), OutOfMemory>
        ensures { OnOk result ((q : AQuery) (rs : List ARecord)
            → IsTally context.now q rs self.old → IsReadyTally context.now q rs self.new) }
    {
        if self.known.covers(context) {
            return Ok(());
        }
        self.counters.catch_up(context)?;
        self.sieve.catch_up(context, &mut self.own)?;
        self.known = Counts::of(context);
        Ok(())
    }

    /// Puts the groups of another tally of a query behind, which has GROUP BY or not. Without it the
    /// nodes of their keys are put into the context.
    pub(crate) fn merge(
        &mut self,
        alloc: Global,
        by_name: bool,
        context: &mut Context,
        other: &Tally,
        its: &Context,
    ) -> Result<(), OutOfMemory>
        ensures merged { OnOk result ((q : AQuery) (rs ss : List ARecord)
            → by_name ≡ is_some q.group → IsTally context.old q rs self.old
            → IsTally its.now q ss other.now → IsTally context.new q (rs ++ ss) self.new) }
        ensures grows { Grows context.old context.new }
    {
        if by_name {
            return merge_groups(
                alloc,
                &mut self.groups,
                &mut self.own,
                &other.groups,
                &other.own,
            );
        }
        merge_groups(alloc, &mut self.groups, context, &other.groups, its)
    }

    /// The groups, and the tree in which their keys lie with GROUP BY. All else is dropped.
    pub(crate) fn into_groups(self) -> TalliedGroups
        ensures own { result.own ≡ self.own }
        ensures groups { result.groups ≡ self.groups }
    {
        TalliedGroups {
            own: self.own,
            groups: self.groups,
        }
    }
}

/// The groups of a tally, and the tree in which their keys lie with GROUP BY.
#[derive(Drop)]
pub(crate) struct TalliedGroups {
    pub own: Context,
    pub groups: NumberedGroups,
}

/// The key of a record of a query, which has GROUP BY or not. With it, the node of its immediates
/// may be `near`. `room` is what its paths may take.
fn key_of(
    alloc: Global,
    by_name: bool,
    context: &Context,
    snapshot: &Snapshot,
    sieve: &Sieve,
    own: &mut Context,
    near: NodeNumber,
    room: Vec<NodeNumber>,
) -> Result<GroupKey, OutOfMemory>
    requires { IsIn context.now snapshot.now }
    ensures key { IfOk result (λ key. (q : AQuery) → by_name ≡ is_some q.group
        → IsReadySieve context.now own.old (names_in q.group) sieve.now
        → IsKeyOf (room_of q.group context.now own.new)
        (group_of q.group (meaning context.now snapshot.now)) key) }
    ensures grows { OnOk result (Grows own.old own.new) }
{
    if !by_name {
        return key_by_nodes(context, snapshot, room);
    }
    let key = key_by_names(alloc, context, sieve, own, snapshot, near, room)?;
    Ok(key)
}
