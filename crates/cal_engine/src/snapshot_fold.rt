ghost use Rattle.std.specs.Prelude.{◌≡◌, ℕ, [], ◌∷◌, ◌++◌, List, Option, is_some, length};
ghost use Rattle.std.specs.Prelude.{map, IfOk, OnOk};
ghost use Rattle.std.specs.List.{All, filter_map};
ghost use Rattle.cal_context.specs.Snapshots.{IsIn, meaning};
ghost use Rattle.cal_context.specs.Taking.{TakesMore};
ghost use Rattle.cal_context.specs.Tree.{Grows, Tree};
ghost use Rattle.cal_filter.specs.Kept.{kept as kept_by};
ghost use Rattle.cal_ql.specs.Valid.{IsValidQuery};
ghost use Rattle.cal_rowset.specs.NumberedRows.{NumberedRow};
ghost use Rattle.cal_rowset.specs.Numbers.{rowset_of};
ghost use Rattle.cal_value.specs.declared.record.Rec.{Rec as ARecord};
ghost use Rattle.cal_engine.specs.Answers.{answer_of};
ghost use Rattle.cal_engine.specs.Gates.{IsGate};
ghost use Rattle.cal_keys.specs.Keys.{room_of};
ghost use Rattle.cal_engine.specs.Making.{MakesRows};
ghost use Rattle.cal_engine.specs.Rows.{IsOfGroups};
ghost use Rattle.cal_engine.specs.Standing.{HasFolded};
ghost use Rattle.cal_engine.specs.Tallies.{Holds, HoldsIn};

use crate::fold::is_aggregated;
use crate::gate::Gate;
use crate::grouped_rows::GroupedRows;
use crate::numbered::NumberedGroups;
use crate::snapshot_columns::snapshot_columns;
use crate::snapshot_rows::{OrderedRows, ordered_rows};
use crate::tally::{TalliedGroups, Tally};
use cal_context::{Context, Snapshot, Taker};
use cal_keys::append_rows;
use cal_ql::Query;
use cal_rowset::{SnapshotList, SnapshotRowset};
use cal_seeds::Seeds;
use cal_value::{OutOfMemory, TryCopy};
use std::alloc::Global;

/// A query on records that come one by one as snapshots of one context. A record takes time for its
/// nodes and immediates, however deep their paths are; each new node takes time once. It keeps the
/// groups of an aggregated query, and the kept records of another one by number.
#[derive(Drop)]
pub struct SnapshotFold {
    alloc: Global,
    query: Query,
    gate: Gate,
    tally: Tally,
    rows: SnapshotList,
    // room for a record with LET's immediates
    full: Snapshot,
}

impl SnapshotFold {
    /// The fold of no record. The query is copied. The attributes that LET's entries may have are
    /// added to the context.
    pub fn new(
        alloc: Global,
        query: &Query,
        context: &mut Context,
    ) -> Result<SnapshotFold, OutOfMemory>
        requires { IsValidQuery query.now }
        ensures query { IfOk result (λ fold. fold.query ≡ query.now) }
        ensures none { IfOk result (λ fold. HasFolded fold context.new []) }
        ensures grows { Grows context.old context.new }
    {
        let gate = Gate::new(alloc, query, context)?;
        SnapshotFold::with_gate(alloc, context.seeds(), query, gate)
    }

    /// The fold of no record, whose gate is made, and whose groups hash by these seeds.
    fn with_gate(
        alloc: Global,
        seeds: Seeds,
        query: &Query,
        gate: Gate,
    ) -> Result<SnapshotFold, OutOfMemory>
        requires { IsValidQuery query.now }
        ensures query { IfOk result (λ fold. fold.query ≡ query.now) }
        ensures none { IfOk result (λ fold. (t : Tree) → IsGate t query.now gate
            → HasFolded fold t []) }
    {
        let tally = Tally::new(alloc, seeds, query)?;
        Ok(SnapshotFold {
            alloc,
            query: query.copy(alloc)?,
            gate,
            tally,
            rows: SnapshotList::new(alloc),
            full: Snapshot::new(alloc),
        })
    }

    /// Takes in the records that another fold of this query has taken from a context, behind those of
    /// this one. The nodes of its groups or of its rows, and the attributes that its rows may have,
    /// are added to the own context, each once. It takes time and memory in what the other fold and
    /// the other context hold. After an `Err` the own context has grown, and the fold is to be
    /// dropped.
    pub fn merge(
        &mut self,
        context: &mut Context,
        other: SnapshotFold,
        its: &Context,
    ) -> Result<(), OutOfMemory>
        requires same { other.query ≡ self.old.query }
        ensures merged { OnOk result ((rs ss : List ARecord)
            → HasFolded self.old context.old rs → HasFolded other its.now ss
            → HasFolded self.new context.new (rs ++ ss)) }
        ensures query { self.new.query ≡ self.old.query }
        ensures grows { Grows context.old context.new }
    {
        let SnapshotFold {
            alloc: _,
            query: _,
            gate: _,
            tally,
            rows,
            full: _,
        } = other;
        merge_held(
            self.alloc,
            &self.query,
            &mut self.tally,
            &mut self.rows,
            context,
            &tally,
            &rows,
            its,
        )
    }

    /// The rows of the answer over the records that were taken, made one by one as snapshots of the
    /// context that they came in, to which the attributes of results and the nodes of groups are
    /// added. It is for an aggregated query without ORDER BY. It takes memory and time in the groups
    /// and the nodes of their keys. After an `Err` the context has grown.
    pub fn grouped_rows(self, context: &mut Context) -> Result<GroupedRows, OutOfMemory>
        requires { IsOfGroups self.query }
        ensures rows { IfOk result (λ made. (rs : List ARecord) → HasFolded self context.old rs
            → MakesRows context.new self.query.aggs made (answer_of self.query rs).rows.rows) }
        ensures grows { Grows context.old context.new }
    {
        let SnapshotFold {
            alloc,
            query,
            gate: _,
            tally,
            rows: _,
            full: _,
        } = self;
        rows_of_tally(alloc, &query, tally, context)
    }

    /// The answer over the records that were taken from a context as it stands. It takes memory and
    /// time in what the fold holds, and n log n comparisons where rows are ordered.
    pub fn finish(self, context: Context) -> Result<SnapshotRowset, OutOfMemory>
        ensures { IfOk result (λ answer. (rs : List ARecord) → HasFolded self context rs
            → rowset_of answer ≡ answer_of self.query rs) }
    {
        let SnapshotFold {
            alloc,
            query,
            gate: _,
            tally,
            rows,
            full: _,
        } = self;
        let TalliedGroups { own, groups } = tally.into_groups();
        let room = room(query.group.is_some(), context, own);
        answer_in(alloc, &query, room, groups, rows)
    }
}

impl SnapshotFold {
    /// Takes a record of a query without LET.
    fn take_plain(&mut self, context: &Context, snapshot: &Snapshot) -> Result<(), OutOfMemory>
        requires within { IsIn context.now snapshot.now }
        requires plain { length self.old.query.lets ≡ 0 }
        ensures taken { OnOk result (TakesMore
            (HasFolded self.old context.now)
            (HasFolded self.new context.now)
            (meaning context.now snapshot.now ∷ [])) }
        ensures query { OnOk result (self.new.query ≡ self.old.query) }
    {
        let keeps = self.gate.keeps(context, snapshot)?;
        if !keeps {
            return Ok(());
        }
        take_kept(
            self.alloc,
            &self.query,
            context,
            snapshot,
            &mut self.tally,
            &mut self.rows,
        )?;
        Ok(())
    }

    /// Takes a record with the immediates of LET.
    fn take_with_lets(&mut self, context: &Context, snapshot: &Snapshot) -> Result<(), OutOfMemory>
        requires { IsIn context.now snapshot.now }
        ensures taken { OnOk result (TakesMore
            (HasFolded self.old context.now)
            (HasFolded self.new context.now)
            (meaning context.now snapshot.now ∷ [])) }
        ensures query { OnOk result (self.new.query ≡ self.old.query) }
    {
        self.gate
            .copy_looked(self.alloc, &self.query, context, snapshot, &mut self.full)?;
        let keeps = self.gate.apply(context, &mut self.full)?;
        if !keeps {
            return Ok(());
        }
        take_kept(
            self.alloc,
            &self.query,
            context,
            &self.full,
            &mut self.tally,
            &mut self.rows,
        )?;
        Ok(())
    }
}

impl Taker for SnapshotFold {
    ghost use Rattle.cal_ql.specs.declared.query.Query.{Query};
    ghost use Rattle.cal_engine.specs.FoldGrows.{HasFolded-stays};
    ghost use Rattle.cal_engine.specs.Standing.{HasFolded};

    ghost About = { Query };

    ghost about = { λ fold. fold.query };

    ghost has_taken = { HasFolded };

    ghost stays = { HasFolded-stays };

    fn take(&mut self, context: &Context, snapshot: &Snapshot) -> Result<(), OutOfMemory> {
        if self.query.lets.is_empty() {
            self.take_plain(context, snapshot)?;
        } else {
            self.take_with_lets(context, snapshot)?;
        }
        Ok(())
    }
}

/// Adds a record that LET and WHERE made.
fn take_kept(
    alloc: Global,
    query: &Query,
    context: &Context,
    snapshot: &Snapshot,
    tally: &mut Tally,
    rows: &mut SnapshotList,
) -> Result<(), OutOfMemory>
    requires { IsIn context.now snapshot.now }
    ensures { OnOk result ((ks : List ARecord) → Holds context.now query.now ks tally.old
        rows.old → Holds context.now query.now (ks ++ meaning context.now snapshot.now ∷ [])
        tally.new rows.new) }
{
    if is_aggregated(query) {
        tally.take(alloc, query.group.is_some(), context, snapshot)?;
        return Ok(());
    }
    rows.push(alloc, snapshot)?;
    Ok(())
}

/// Takes in the groups of another tally of a query, or else the other kept rows, behind what is
/// there.
fn merge_held(
    alloc: Global,
    query: &Query,
    tally: &mut Tally,
    rows: &mut SnapshotList,
    context: &mut Context,
    other: &Tally,
    others: &SnapshotList,
    its: &Context,
) -> Result<(), OutOfMemory>
    ensures merged { OnOk result ((ks ls : List ARecord)
        → Holds context.old query.now ks tally.old rows.old
        → Holds its.now query.now ls other.now others.now
        → Holds context.new query.now (ks ++ ls) tally.new rows.new) }
    ensures grows { Grows context.old context.new }
{
    if is_aggregated(query) {
        return tally.merge(alloc, query.group.is_some(), context, other, its);
    }
    append_rows(alloc, rows, context, others, its)
}

/// The rows of the groups of a tally, for a query that is aggregated and has no ORDER BY.
fn rows_of_tally(
    alloc: Global,
    query: &Query,
    tally: Tally,
    context: &mut Context,
) -> Result<GroupedRows, OutOfMemory>
    requires { IsOfGroups query.now }
    ensures rows { IfOk result (λ made. (rs : List ARecord) (others : List NumberedRow)
        → Holds context.old query.now (filter_map (kept_by query.now) rs) tally others
        → MakesRows context.new query.now.aggs made (answer_of query.now rs).rows.rows) }
    ensures grows { Grows context.old context.new }
{
    context.has_each_once();
    let TalliedGroups { own, groups } = tally.into_groups();
    if query.group.is_some() {
        return GroupedRows::moved(alloc, query, own, groups, context);
    }
    GroupedRows::new(alloc, query, groups, context)
}

/// The answer of groups or kept records in a context in which the keys of groups lie.
fn answer_in(
    alloc: Global,
    query: &Query,
    context: Context,
    groups: NumberedGroups,
    kept: SnapshotList,
) -> Result<SnapshotRowset, OutOfMemory>
    ensures { IfOk result (λ answer. (rs : List ARecord)
        → HoldsIn context query.now (filter_map (kept_by query.now) rs) groups kept
        → rowset_of answer ≡ answer_of query.now rs) }
{
    let mut context = context;
    let OrderedRows { rows, order } = ordered_rows(alloc, query, &mut context, groups, kept)?;
    let columns = snapshot_columns(alloc, query, &context, &rows, &order)?;
    let all = query.select.is_none();
    Ok(SnapshotRowset::new(context, rows, order, columns, all))
}

/// The tree in which the keys of groups lie. The other one is dropped.
fn room(by_name: bool, context: Context, own: Context) -> Context
    ensures { (names : Option (List (List ℕ))) → by_name ≡ is_some names
        → result ≡ room_of names context own }
{
    if by_name {
        return own;
    }
    context
}
