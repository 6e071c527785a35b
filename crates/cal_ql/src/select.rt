ghost use Rattle.std.specs.Prelude.{◌≡◌, IfOk};
ghost use Rattle.cal_ql.specs.Clauses.{listed_at, selection_at, selection_of};
ghost use Rattle.cal_ql.specs.Kernels.{begins_call, column_at, item_at};
ghost use Rattle.cal_ql.specs.Steps.{Advances, Gives, seen_pair, tokens_ahead};
ghost use Rattle.cal_ql.specs.Tokens.{Fault, Tokens};

use crate::QueryEnd;
use crate::ahead::Ahead;
use crate::basic::{header_at, name_at};
use crate::kernels::agg_at;
use crate::query::{Agg, Item};
use crate::rule::{Rule, separated};
use crate::token::{Sign, Token};
use cal_value::{OutOfMemory, Seq, TryCopy};
use std::alloc::Global;

/// An item of SELECT.
#[derive(Debug, Drop)]
pub enum Picked {
    Column(Item),
    Kernel(Agg),
}

/// What a SELECT says: its items, none for `*`, and its kernels.
#[derive(Debug, Drop)]
pub struct Selection {
    pub items: Option<Seq<Item>>,
    pub aggs: Seq<Agg>,
}

/// Whether a name stands first, and `(` behind it.
#[tactic(auto, unfolding(crate::specs::Kernels::begins_call))]
fn begins_call(ahead: Ahead<'_>) -> bool
    ensures { result ≡ begins_call (tokens_ahead ahead.entry) }
{
    match ahead.first() {
        Some((Token::Word(_), rest)) => rest.behind_sign(Sign::Open).is_some(),
        Some((Token::Quoted(_), rest)) => rest.behind_sign(Sign::Open).is_some(),
        _ => false,
    }
}

/// name [AS name]
#[tactic(auto, unfolding(crate::specs::Kernels::column_at))]
fn column_at<'a>(alloc: Global, ahead: Ahead<'a>) -> Result<(Item, Ahead<'a>), QueryEnd>
    ensures read { Gives seen_pair result (column_at (tokens_ahead ahead.entry)) }
    ensures further { IfOk result (λ x. Advances ahead.entry x.1) }
{
    let (name, behind) = name_at(alloc, ahead)?;
    let (header, rest) = header_at(alloc, name.copy(alloc)?, behind)?;
    Ok((Item { name, header }, rest))
}

/// item = name [AS name] | agg
#[derive(Clone, Copy)]
struct ItemRule;

impl Rule for ItemRule {
    type Item = Picked;

    ghost item_at = { λ _ _. item_at };

    #[tactic(auto, unfolding(crate::specs::Kernels::item_at))]
    fn read<'a>(
        &self,
        alloc: Global,
        _number: usize,
        ahead: Ahead<'a>,
    ) -> Result<(Picked, Ahead<'a>), QueryEnd> {
        if begins_call(ahead) {
            let (agg, rest) = agg_at(alloc, ahead)?;
            Ok((Picked::Kernel(agg), rest))
        } else {
            let (item, rest) = column_at(alloc, ahead)?;
            Ok((Picked::Column(item), rest))
        }
    }
}

/// The items and the kernels of a list.
fn selection_of(alloc: Global, picked: Seq<Picked>) -> Result<Selection, OutOfMemory>
    ensures { IfOk result (λ selection. selection ≡ selection_of picked) }
{
    let mut items = Seq::new(alloc);
    let mut aggs = Seq::new(alloc);
    for pick in picked.into_vec() {
        match pick {
            Picked::Column(item) => items.push(item)?,
            Picked::Kernel(agg) => {
                let name = agg.name.copy(alloc)?;
                let header = agg.name.copy(alloc)?;
                items.push(Item { name, header })?;
                aggs.push(agg)?;
            }
        }
    }
    Ok(Selection {
        items: Some(items),
        aggs,
    })
}

#[tactic(auto, unfolding(crate::specs::Clauses::listed_at))]
fn listed_at<'a>(alloc: Global, ahead: Ahead<'a>) -> Result<(Selection, Ahead<'a>), QueryEnd>
    ensures read { Gives seen_pair result (listed_at (tokens_ahead ahead.entry)) }
    ensures further { IfOk result (λ x. Advances ahead.entry x.1) }
{
    let (picked, rest) = separated(&ItemRule, alloc, ahead)?;
    Ok((selection_of(alloc, picked)?, rest))
}

/// SELECT * | SELECT item {, item}
#[tactic(auto, unfolding(crate::specs::Clauses::selection_at))]
pub(crate) fn selection_at<'a>(
    alloc: Global,
    ahead: Ahead<'a>,
) -> Result<(Selection, Ahead<'a>), QueryEnd>
    ensures read { Gives seen_pair result (selection_at (tokens_ahead ahead.entry)) }
    ensures further { IfOk result (λ x. Advances ahead.entry x.1) }
{
    match ahead.behind_sign(Sign::Star) {
        Some(rest) => Ok((
            Selection {
                items: None,
                aggs: Seq::new(alloc),
            },
            rest,
        )),
        None => listed_at(alloc, ahead),
    }
}
