ghost use Rattle.std.specs.Prelude.{◌≡◌, ◌<◌, [], List, map, slice_index_or, IfOk, IfSome, OnOk};
ghost use Rattle.std.specs.List.{AllZip};
ghost use Rattle.cal_context.specs.Snapshots.{IsIn, meaning};
ghost use Rattle.cal_context.specs.Tree.{Grows, Tree};
ghost use Rattle.cal_ql.specs.declared.query.Agg.{Agg as AnAgg};
ghost use Rattle.cal_rowset.specs.Answers.{nth_row};
ghost use Rattle.cal_value.specs.declared.record.Rec.{Rec as ARecord};
ghost use Rattle.cal_engine.specs.Finishing.{AreKept, Lists, entries_of_results};
ghost use Rattle.cal_keys.specs.Groups.{groups_of};
ghost use Rattle.cal_keys.specs.Keys.{key_in, nth_key};
ghost use Rattle.cal_engine.specs.Making.{AreMoved, AreOthers, MakesRows};
ghost use Rattle.cal_keys.specs.Moves.{IsMoved};
ghost use Rattle.cal_engine.specs.Making.{below_in, below_of};
ghost use Rattle.cal_engine.specs.Making.{group_count, key_at, room_in};
ghost use Rattle.cal_engine.specs.Numbered.{AreGroups};
ghost use Rattle.cal_engine.specs.Results.{AddsResults, IsResultOf};
ghost use Rattle.cal_engine.specs.Rows.{row_of as row_by};

use crate::kernel_results::{ResultAttributes, add_result_immediates, result_attributes};
use crate::numbered::NumberedGroups;
use crate::other_parts::OtherParts;
use cal_context::{Context, Immediate, NodeNumber, Snapshot};
use cal_keys::{KeyTable, Moved, fill_immediates, is_in};
use cal_ql::Query;
use cal_value::OutOfMemory;
use std::alloc::Global;

/// The rows of a query's groups, in first-seen order. None is kept: each is made where it is asked
/// for, of the key of its group and of what is kept of its records.
#[derive(Drop)]
pub struct GroupedRows {
    alloc: Global,
    groups: NumberedGroups,
    // the context in which the keys lie, unless the rows do too
    moved: Option<Moved>,
    results: Vec<ResultAttributes>,
    others: OtherParts,
}

impl GroupedRows {
    /// The rows of groups whose keys lie in the context of the rows. The attributes of results are
    /// added to it.
    pub(crate) fn new(
        alloc: Global,
        query: &Query,
        groups: NumberedGroups,
        context: &mut Context,
    ) -> Result<GroupedRows, OutOfMemory>
        ensures rows { IfOk result (λ made. (rs : List ARecord)
            → AreGroups context.old query.now rs groups → MakesRows context.new query.now.aggs made
            (map (row_by query.now rs) (groups_of query.now.group rs))) }
        ensures grows { Grows context.old context.new }
    {
        let results = result_attributes(alloc, context, query.aggs.as_slice())?;
        GroupedRows::with_results(alloc, query, groups, results, context)
    }

    /// The same, where the attributes of results are known.
    fn with_results(
        alloc: Global,
        query: &Query,
        groups: NumberedGroups,
        results: Vec<ResultAttributes>,
        context: &Context,
    ) -> Result<GroupedRows, OutOfMemory>
        requires { AllZip (IsResultOf context.now) query.now.aggs results.items }
        ensures { IfOk result (λ made. (rs : List ARecord)
            → AreGroups context.now query.now rs groups → MakesRows context.now query.now.aggs made
            (map (row_by query.now rs) (groups_of query.now.group rs))) }
    {
        let others = OtherParts::of(alloc, query, context, &groups)?;
        Ok(GroupedRows {
            alloc,
            groups,
            moved: None,
            results,
            others,
        })
    }

    /// The rows of groups whose keys lie in a context of their own. Their nodes are added to the
    /// context of the rows.
    pub(crate) fn moved(
        alloc: Global,
        query: &Query,
        own: Context,
        groups: NumberedGroups,
        context: &mut Context,
    ) -> Result<GroupedRows, OutOfMemory>
        ensures rows { IfOk result (λ made. (rs : List ARecord)
            → AreGroups own query.now rs groups → MakesRows context.new query.now.aggs made
            (map (row_by query.now rs) (groups_of query.now.group rs))) }
        ensures grows { Grows context.old context.new }
    {
        let mut moved = Moved::none(alloc, own);
        let mut results = Vec::new(alloc);
        let others = move_groups(alloc, query, &groups, &mut moved, &mut results, context)?;
        Ok(GroupedRows {
            alloc,
            groups,
            moved: Some(moved),
            results,
            others,
        })
    }

    /// How many rows there are.
    pub fn count(&self) -> usize
        ensures { result ≡ group_count self.now }
    {
        let _ = &self.results;
        self.groups.keys().count()
    }

    /// The context in which the keys of groups lie.
    pub fn room<'a>(&'a self, context: &'a Context) -> &'a Context
        ensures { result.now ≡ room_in context.now self.now }
    {
        match &self.moved {
            Some(moved) => moved.from(),
            None => context,
        }
    }

    /// The nodes of the paths of a group's key.
    pub fn nodes(&self, number: usize) -> &[NodeNumber]
        ensures { result.now ≡ (key_at self.now number).paths }
    {
        self.groups.keys().paths(number)
    }

    /// The node of the immediates of a group's key.
    pub fn immediates(&self, number: usize) -> NodeNumber
        ensures { result ≡ (key_at self.now number).imms }
    {
        self.groups.keys().imms(number)
    }

    /// About how many immediates a row has, so that room for all is made at once.
    pub(crate) fn width(&self) -> usize {
        let results = self.results.len();
        if self.immediates(0) == NodeNumber::ROOT {
            return results;
        }
        results.saturating_add(1)
    }

    /// Makes the row of a number, in place of the one that is there.
    pub fn fill(
        &self,
        context: &Context,
        number: usize,
        row: &mut Snapshot,
    ) -> Result<(), OutOfMemory>
        ensures within { OnOk result (IsIn context.now row.new) }
        ensures row { OnOk result ((aggs : List AnAgg) (rows : List ARecord)
            → MakesRows context.now aggs self.now rows
            → meaning context.now row.new ≡ nth_row rows number) }
    {
        if number >= self.count() {
            return Err(OutOfMemory);
        }
        self.fill_key(context, number, row)?;
        self.add_results(number, &mut row.imms)?;
        if !is_in(context, row) {
            return Err(OutOfMemory);
        }
        Ok(())
    }

    /// The group that a number's key means as a snapshot, in place of the one that is there.
    fn fill_key(
        &self,
        context: &Context,
        number: usize,
        row: &mut Snapshot,
    ) -> Result<(), OutOfMemory>
        ensures { OnOk result (AreMoved context.now self.now.moved → meaning context.now row.new
            ≡ key_in (room_in context.now self.now) (key_at self.now number)) }
    {
        let keys = self.groups.keys();
        match &self.moved {
            None => fill_snapshot(self.alloc, context, keys, number, row),
            Some(moved) => moved.fill(self.alloc, keys, number, row),
        }
    }

    /// Adds the results of a group.
    fn add_results(&self, number: usize, imms: &mut Vec<Immediate>) -> Result<(), OutOfMemory>
        ensures { OnOk result ((t : Tree) (aggs : List AnAgg) (lists : Lists)
            → AllZip (IsResultOf t) aggs self.now.results.items
            → AreKept aggs lists (slice_index_or self.now.groups.parts number [])
            self.now.others.all (slice_index_or (below_in self.now) number [])
            → AddsResults t (entries_of_results aggs lists) imms.old.items imms.new.items) }
    {
        add_result_immediates(imms, &self.results, &self.groups, number, &self.others)
    }
}

/// Puts groups into the context of the rows, behind the attributes of results, which take the place
/// of those that are there. What is kept of other records is answered.
fn move_groups(
    alloc: Global,
    query: &Query,
    groups: &NumberedGroups,
    moved: &mut Moved,
    results: &mut Vec<ResultAttributes>,
    context: &mut Context,
) -> Result<OtherParts, OutOfMemory>
    ensures results { OnOk result
        (AllZip (IsResultOf context.new) query.now.aggs results.new.items) }
    ensures moved { OnOk result (IsMoved context.new moved.new) }
    ensures from { OnOk result (moved.new.from ≡ moved.old.from) }
    ensures others { IfOk result (λ others. (rs : List ARecord)
        → AreGroups moved.old.from query.now rs groups.now → AreOthers moved.old.from query.now rs
        groups.now others.all (below_of others groups.now.parts)) }
    ensures grows { Grows context.old context.new }
{
    *results = result_attributes(alloc, context, query.aggs.as_slice())?;
    let others = OtherParts::of(alloc, query, moved.from(), groups)?;
    moved.put(alloc, groups.keys(), context)?;
    Ok(others)
}

/// The group that a number's key means as a snapshot of the context in which it lies, in place of
/// the one that is there.
fn fill_snapshot(
    alloc: Global,
    context: &Context,
    keys: &KeyTable,
    number: usize,
    row: &mut Snapshot,
) -> Result<(), OutOfMemory>
    ensures { OnOk result (meaning context.now row.new
        ≡ key_in context.now (nth_key keys.now number)) }
{
    row.nodes.clear();
    row.nodes.extend_from_slice(keys.paths(number))?;
    fill_immediates(alloc, context, keys.imms(number), &mut row.imms)
}
