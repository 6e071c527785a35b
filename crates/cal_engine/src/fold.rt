ghost use Rattle.std.specs.Prelude.{◌≡◌, ◌++◌, [], ◌∷◌, List, IfOk, OnOk, OnErr};
ghost use Rattle.cal_ql.specs.Valid.{IsValidQuery};
ghost use Rattle.cal_ql.specs.declared.query.Query.{Query as AQuery};
ghost use Rattle.cal_value.specs.declared.record.Rec.{Rec as ARecord};
ghost use Rattle.cal_engine.specs.Answers.{answer_of, answer_with};
ghost use Rattle.cal_engine.specs.Folding.{StandsFor, IsFolded, folded, groups_over};
ghost use Rattle.cal_engine.specs.Rows.{is_aggregated as is_aggregated_by, rows_of};

use crate::columns::columns_of;
use crate::filtering::made;
use crate::grouping::group_of;
use crate::groups::Groups;
use crate::sorting::sorted_rows;
use cal_parts::{Reading, parts_of, readings_of};
use cal_ql::Query;
use cal_rowset::Rowset;
use cal_value::{OutOfMemory, Rec, Records, Seq, TryCopy};
use std::alloc::Global;
use std::marker::Model;
use std::mem;

/// A query on records that come one by one. It keeps the groups of an aggregated query, and the
/// kept records of another one.
#[derive(Drop)]
pub struct Fold {
    alloc: Global,
    query: Query,
    readings: Vec<Reading>,
    groups: Groups,
    rows: Seq<Rec>,
}

impl Model for Fold {
    ghost use Rattle.std.specs.Prelude.{◌≡◌, map};
    ghost use Rattle.cal_ql.specs.Valid.{IsValidQuery};
    ghost use Rattle.cal_engine.specs.Folding.{Folded};
    ghost use Rattle.cal_parts.specs.Readings.{reading_of};

    ghost Value = { Folded };

    ghost view = { λ f. record { query = f.query; groups = f.groups; rows = f.rows } };

    ghost invariant = { λ f. IsValidQuery f.query
        × (f.readings.items ≡ map reading_of f.query.aggs) };
}

impl Fold {
    /// The fold of no record. The query is copied.
    pub fn new(alloc: Global, query: &Query) -> Result<Fold, OutOfMemory>
        requires { IsValidQuery query.now }
        ensures { IfOk result (λ fold. StandsFor query.now [] fold) }
    {
        Ok(Fold {
            alloc,
            query: query.copy(alloc)?,
            readings: readings_of(alloc, query.aggs.as_slice())?,
            groups: Groups::new(alloc),
            rows: Seq::new(alloc),
        })
    }

    /// Adds a record at the end. A number above 2^86 in magnitude, or a 2^32nd one in a group, is
    /// answered as want of memory is.
    #[tactic(auto, using(crate::proofs::Folds::stands_with, crate::proofs::Folds::stands_without))]
    pub fn add(&mut self, rec: Rec) -> Result<(), OutOfMemory>
        ensures ok { OnOk result ((q : AQuery) (rs : List ARecord)
            → StandsFor q rs self.old → StandsFor q (rs ++ rec ∷ []) self.new) }
        ensures err { OnErr result (self.new ≡ self.old) }
    {
        if let Some(kept) = made(self.alloc, &self.query, rec)? {
            self.add_kept(kept)?;
        }
        Ok(())
    }

    /// Adds a record that LET and WHERE made.
    #[tactic(auto, using(crate::proofs::Folds::folded_grouped, crate::proofs::Folds::folded_row))]
    fn add_kept(&mut self, kept: Rec) -> Result<(), OutOfMemory>
        ensures ok { OnOk result ((q : AQuery) (rs : List ARecord)
            → self.old ≡ folded q rs → self.new ≡ folded q (rs ++ kept ∷ [])) }
        ensures err { OnErr result (self.new ≡ self.old) }
    {
        if is_aggregated(&self.query) {
            let parts = parts_of(self.alloc, &self.readings, &kept)?;
            let key = group_of(self.alloc, &self.query.group, kept)?;
            self.groups.gather(self.alloc, key, parts)?;
        } else {
            self.rows.push(kept)?;
        }
        Ok(())
    }

    /// Adds the records of another fold of this query at the end. It takes time and memory in what
    /// both folds hold.
    pub fn merge(&mut self, other: Fold) -> Result<(), OutOfMemory>
        ensures ok { OnOk result ((q : AQuery) (rs ss : List ARecord) → StandsFor q rs self.old
            → StandsFor q ss other → StandsFor q (rs ++ ss) self.new) }
        ensures err { OnErr result (self.new ≡ self.old) }
    {
        let Fold {
            alloc: _,
            query: _,
            readings: _,
            groups,
            rows,
        } = other;
        merge_held(self.alloc, &mut self.groups, &mut self.rows, &groups, rows)
    }

    /// The answer over the records that were added. It takes memory and time in what the fold
    /// holds, and n log n comparisons where rows are ordered.
    pub fn finish(self) -> Result<Rowset, OutOfMemory>
        ensures { IfOk result (λ answer. (q : AQuery) (rs : List ARecord)
            → StandsFor q rs self → answer ≡ answer_of q rs) }
    {
        let Fold {
            alloc,
            query,
            readings: _,
            groups,
            rows,
        } = self;
        answer_over(alloc, &query, &groups, rows)
    }
}

/// Adds the groups and the rows of another fold at the end.
fn merge_held(
    alloc: Global,
    groups: &mut Groups,
    rows: &mut Seq<Rec>,
    others: &Groups,
    more: Seq<Rec>,
) -> Result<(), OutOfMemory>
    ensures ok { OnOk result (((q : AQuery) (rs ss : List ARecord) → groups.old ≡ groups_over q rs
        → others.now ≡ groups_over q ss → groups.new ≡ groups_over q (rs ++ ss))
        × (rows.new ≡ rows.old ++ more)) }
    ensures err { OnErr result ((groups.new ≡ groups.old) × (rows.new ≡ rows.old)) }
{
    let merged = Groups::merged(alloc, groups, others)?;
    append(alloc, rows, more)?;
    *groups = merged;
    Ok(())
}

/// The answer over the groups and the rows of a fold.
fn answer_over(
    alloc: Global,
    query: &Query,
    groups: &Groups,
    rows: Seq<Rec>,
) -> Result<Rowset, OutOfMemory>
    ensures { IfOk result (λ answer. (rs : List ARecord)
        → IsFolded query.now groups.now rows rs
        → answer ≡ answer_with query.now (rows_of query.now rs)) }
{
    let rows = made_rows(alloc, query, groups, rows)?;
    finished(alloc, query, rows)
}

/// Adds rows at the end.
fn append(alloc: Global, rows: &mut Seq<Rec>, more: Seq<Rec>) -> Result<(), OutOfMemory>
    ensures ok { OnOk result (rows.new ≡ rows.old ++ more) }
    ensures err { OnErr result (rows.new ≡ rows.old) }
{
    let mut all = mem::replace(rows, Seq::new(alloc)).into_vec();
    let mut more = more.into_vec();
    let appended = all.append(&mut more);
    *rows = Seq::from_vec(all);
    appended?;
    Ok(())
}

/// The rows of an answer before they are ordered.
fn made_rows(
    alloc: Global,
    query: &Query,
    groups: &Groups,
    rows: Seq<Rec>,
) -> Result<Seq<Rec>, OutOfMemory>
    ensures { IfOk result (λ made. (rs : List ARecord)
        → IsFolded query.now groups.now rows rs → made ≡ rows_of query.now rs) }
{
    if is_aggregated(query) {
        let made = groups.rows(alloc, query)?;
        return Ok(made);
    }
    Ok(rows)
}

/// The answer with these rows, which it orders.
pub(crate) fn finished(alloc: Global, query: &Query, rows: Seq<Rec>) -> Result<Rowset, OutOfMemory>
    ensures { IfOk result (λ answer. answer ≡ answer_with query.now rows) }
{
    let rows = sorted_rows(alloc, &query.order, rows)?;
    let columns = columns_of(alloc, query, rows.as_slice())?;
    let globals = Rec {
        paths: Seq::new(alloc),
        imms: Seq::new(alloc),
    };
    Ok(Rowset {
        rows: Records { rows, globals },
        columns,
        all: query.select.is_none(),
    })
}

/// A query is aggregated where it has GROUP BY or a kernel.
pub(crate) fn is_aggregated(query: &Query) -> bool
    ensures { result ≡ is_aggregated_by query.now }
{
    query.group.is_some() || !query.aggs.is_empty()
}
