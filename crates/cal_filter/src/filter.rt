//! LET and WHERE of a query, over snapshots by number.
ghost use Rattle.std.specs.Prelude.{◌≡◌, List, IfOk, OnOk};
ghost use Rattle.std.specs.List.{All, AllZip, AllByRecursion};
ghost use Rattle.cal_context.specs.Lists.{IsFront};
ghost use Rattle.cal_context.specs.Snapshots.{IsIn, meaning};
ghost use Rattle.cal_context.specs.Tree.{Grows, Tree};
ghost use Rattle.cal_filter.specs.Conditions.{where_holds};
ghost use Rattle.cal_filter.specs.Filtered.{IsFiltered};
ghost use Rattle.cal_filter.specs.Kept.{with_lets};
ghost use Rattle.cal_filter.specs.Latest.{AreNamed, KnowsNames};
ghost use Rattle.cal_filter.specs.Named.{HasSmallNumbers};
ghost use Rattle.cal_filter.specs.Ready.{IsCondition, IsDefinition, IsFilter, IsReadyCondition};
ghost use Rattle.cal_filter.specs.Ready.{IsReadyDefinition, IsReadyFilter};
ghost use Rattle.cal_filter.specs.Replaced.{CatchesUpByNumbers, ConditionCatchesUp};
ghost use Rattle.cal_filter.specs.Replaced.{DefinitionCatchesUp};
ghost use Rattle.cal_ql.specs.Valid.{IsLet, IsValidQuery};
ghost use Rattle.cal_ql.specs.declared.query.Cond.{Cond as CondOf};
ghost use Rattle.cal_ql.specs.declared.query.Let.{Let as LetOf};
ghost use Rattle.cal_ql.specs.declared.query.Query.{Query as QueryOf};

use crate::Counts;
use crate::condition::Condition;
use crate::definition::Definition;
use crate::latest::Latest;
use cal_agg::Num;
use cal_context::{Context, Snapshot};
use cal_ql::{Cond, Let, Query};
use cal_seeds::Seeds;
use cal_value::{OutOfMemory, Text};
use indexmap::IndexSet;
use std::alloc::Global;

/// LET and WHERE of a query, over snapshots by number of one context. A snapshot takes time for its
/// nodes and immediates, however deep their paths are; each new node and attribute takes time once.
#[derive(Drop)]
pub struct Filter {
    alloc: Global,
    definitions: Vec<Definition>,
    // where the last immediates of the names stand that definitions seek
    latest: Latest,
    conditions: Vec<Condition>,
    // so much of the context all of them know
    known: Counts,
    // room to work in
    numbers: Vec<Option<Num>>,
}

impl Filter {
    /// A filter for a query. The attributes that LET's entries may have are added to the context
    /// now, so that it needn't grow later.
    pub fn new(alloc: Global, query: &Query, context: &mut Context) -> Result<Filter, OutOfMemory>
        requires { IsValidQuery query.now }
        ensures ready { IfOk result (IsFilter context.new query.now) }
        ensures grows { Grows context.old context.new }
    {
        let mut names = IndexSet::with_hasher(alloc, context.seeds());
        let definitions = definitions_of(alloc, query.lets.as_slice(), &mut names, context)?;
        let conditions = conditions_of(alloc, query.conds.as_slice())?;
        Ok(Filter {
            alloc,
            definitions,
            latest: Latest::new(alloc, names),
            conditions,
            known: Counts::NONE,
            numbers: Vec::new(alloc),
        })
    }

    /// Appends the immediates of LET to a snapshot, and answers whether WHERE keeps it. After an
    /// `Err` nothing is promised of the filter and the snapshot. Numbers of a magnitude above 2^86
    /// are no numbers to it.
    pub fn apply(&mut self, context: &Context, snapshot: &mut Snapshot) -> Result<bool, OutOfMemory>
        requires { IsIn context.now snapshot.old }
        ensures within { OnOk result (IsIn context.now snapshot.new) }
        ensures nodes { OnOk result (snapshot.new.nodes.items ≡ snapshot.old.nodes.items) }
        ensures stays { OnOk result ((q : QueryOf) → IsFilter context.now q self.old
            → IsFilter context.now q self.new) }
        ensures filtered { IfOk result (λ keeps. (q : QueryOf) → IsFilter context.now q self.old
            → HasSmallNumbers (meaning context.now snapshot.old)
            → IsFiltered q (meaning context.now snapshot.old) (meaning context.now snapshot.new)
            keeps) }
    {
        self.catch_up(context)?;
        self.add_lets(context, snapshot)?;
        Ok(keeps(&self.conditions, context, snapshot))
    }

    /// Answers whether WHERE keeps a snapshot as it is, without LET.
    pub fn keeps(&mut self, context: &Context, snapshot: &Snapshot) -> Result<bool, OutOfMemory>
        requires { IsIn context.now snapshot.now }
        ensures stays { OnOk result ((q : QueryOf) → IsFilter context.now q self.old
            → IsFilter context.now q self.new) }
        ensures kept { IfOk result (λ keeps. (q : QueryOf) → IsFilter context.now q self.old
            → keeps ≡ where_holds q.conds (meaning context.now snapshot.now)) }
    {
        self.catch_up(context)?;
        Ok(keeps(&self.conditions, context, snapshot))
    }

    fn catch_up(&mut self, context: &Context) -> Result<(), OutOfMemory>
        ensures { OnOk result ((q : QueryOf) → IsFilter context.now q self.old
            → IsReadyFilter context.now q self.new) }
    {
        if self.known.covers(context) {
            return Ok(());
        }
        know_definitions(&mut self.definitions, &mut self.latest, context)?;
        know_conditions(&mut self.conditions, context)?;
        self.known = Counts::of(context);
        Ok(())
    }

    fn add_lets(&mut self, context: &Context, snapshot: &mut Snapshot) -> Result<(), OutOfMemory>
        requires { IsIn context.now snapshot.old }
        ensures within { OnOk result (IsIn context.now snapshot.new) }
        ensures nodes { OnOk result (snapshot.new.nodes.items ≡ snapshot.old.nodes.items) }
        ensures stays { OnOk result ((q : QueryOf) → IsReadyFilter context.now q self.old
            → IsReadyFilter context.now q self.new) }
        ensures adds { OnOk result ((q : QueryOf) → IsReadyFilter context.now q self.old
            → HasSmallNumbers (meaning context.now snapshot.old)
            → meaning context.now snapshot.new
            ≡ with_lets q.lets (meaning context.now snapshot.old)) }
    {
        apply_all(
            self.alloc,
            &self.definitions,
            &mut self.latest,
            context,
            snapshot,
            &mut self.numbers,
        )?;
        Ok(())
    }
}

fn definitions_of(
    alloc: Global,
    lets: &[Let],
    names: &mut IndexSet<Text, Seeds>,
    context: &mut Context,
) -> Result<Vec<Definition>, OutOfMemory>
    requires { AllByRecursion IsLet lets.now }
    ensures ready { IfOk result (λ definitions.
        AllZip (IsDefinition context.new) lets.now definitions.items) }
    ensures named { IfOk result (λ definitions.
        All (AreNamed names.new.keys) definitions.items) }
    ensures grows { Grows context.old context.new }
{
    let mut definitions = Vec::new(alloc);
    for definition in lets {
        let made = Definition::new(alloc, definition, names, context)?;
        definitions.push(made)?;
    }
    Ok(definitions)
}

fn conditions_of(alloc: Global, conds: &[Cond]) -> Result<Vec<Condition>, OutOfMemory>
    ensures { IfOk result (λ conditions.
        (t : Tree) → AllZip (IsCondition t) conds.now conditions.items) }
{
    let mut conditions = Vec::new(alloc);
    for cond in conds {
        let made = Condition::new(alloc, cond)?;
        conditions.push(made)?;
    }
    Ok(conditions)
}

/// Gets to know what is new, of each attribute which of the names it has, once for all definitions.
fn know_definitions(
    definitions: &mut [Definition],
    latest: &mut Latest,
    context: &Context,
) -> Result<(), OutOfMemory>
    ensures knows { OnOk result
        (KnowsNames context.now latest.old → KnowsNames context.now latest.new) }
    ensures names { OnOk result (latest.new.names ≡ latest.old.names) }
    ensures ready { OnOk result (KnowsNames context.now latest.old
        → All (AreNamed latest.old.names.keys) definitions.old
        → AllZip (DefinitionCatchesUp context.now) definitions.old definitions.new) }
{
    if definitions.len() == 0 {
        return Ok(());
    }
    latest.know_attributes(context)?;
    catch_up_definitions(definitions, latest, context)?;
    Ok(())
}

fn catch_up_definitions(
    definitions: &mut [Definition],
    latest: &Latest,
    context: &Context,
) -> Result<(), OutOfMemory>
    ensures { OnOk result
        (AllZip (CatchesUpByNumbers context.now latest.now) definitions.old definitions.new) }
{
    for definition in definitions.iter_mut() {
        definition.catch_up(latest, context)?;
    }
    Ok(())
}

fn know_conditions(conditions: &mut [Condition], context: &Context) -> Result<(), OutOfMemory>
    ensures { OnOk result
        (AllZip (ConditionCatchesUp context.now) conditions.old conditions.new) }
{
    for condition in conditions.iter_mut() {
        condition.catch_up(context)?;
    }
    Ok(())
}

fn apply_all(
    alloc: Global,
    definitions: &[Definition],
    latest: &mut Latest,
    context: &Context,
    snapshot: &mut Snapshot,
    numbers: &mut Vec<Option<Num>>,
) -> Result<(), OutOfMemory>
    requires { IsIn context.now snapshot.old }
    ensures within { OnOk result (IsIn context.now snapshot.new) }
    ensures nodes { OnOk result (snapshot.new.nodes.items ≡ snapshot.old.nodes.items) }
    ensures knows { OnOk result
        (KnowsNames context.now latest.old → KnowsNames context.now latest.new) }
    ensures names { OnOk result (latest.new.names ≡ latest.old.names) }
    ensures adds { OnOk result ((lets : List LetOf)
        → AllZip (IsReadyDefinition context.now) lets definitions.now
        → All (AreNamed latest.old.names.keys) definitions.now
        → KnowsNames context.now latest.old
        → HasSmallNumbers (meaning context.now snapshot.old)
        → meaning context.now snapshot.new
        ≡ with_lets lets (meaning context.now snapshot.old)) }
{
    if definitions.len() == 0 {
        return Ok(());
    }
    latest.begin(context, &snapshot.imms)?;
    for definition in definitions {
        definition.apply(alloc, latest, context, snapshot, numbers)?;
    }
    Ok(())
}

fn keeps(conditions: &[Condition], context: &Context, snapshot: &Snapshot) -> bool
    requires { IsIn context.now snapshot.now }
    ensures { (conds : List CondOf)
        → AllZip (IsReadyCondition context.now) conds conditions.now
        → result ≡ where_holds conds (meaning context.now snapshot.now) }
{
    for condition in conditions {
        if !condition.holds(context, snapshot) {
            return false;
        }
    }
    true
}
