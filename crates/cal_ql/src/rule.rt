ghost use Rattle.std.specs.Prelude.{◌≡◌, ℕ, List, Result, IfOk};
ghost use Rattle.cal_ql.specs.Reading.{separated};
ghost use Rattle.cal_ql.specs.Steps.{Advances, Gives, seen_pair, tokens_ahead};
ghost use Rattle.cal_ql.specs.Tokens.{Fault, Tokens};

use crate::QueryEnd;
use crate::ahead::Ahead;
use crate::token::Sign;
use cal_value::Seq;
use std::alloc::Global;

/// A rule of the grammar for the items of a list, which are numbered from 0.
pub(crate) trait Rule {
    type Item: Drop;

    ghost item_at: { Self → ℕ → Tokens → Result (Self.Item × Tokens) Fault };

    fn read<'a>(
        &self,
        alloc: Global,
        number: usize,
        ahead: Ahead<'a>,
    ) -> Result<(Self::Item, Ahead<'a>), QueryEnd>
        ensures read { Gives seen_pair result (item_at self.now number (tokens_ahead ahead.entry)) }
        ensures further { IfOk result (λ x. Advances ahead.entry x.1) };
}

/// item {, item}
pub(crate) fn separated<'a, R: Rule>(
    rule: &R,
    alloc: Global,
    ahead: Ahead<'a>,
) -> Result<(Seq<R::Item>, Ahead<'a>), QueryEnd>
    ensures read { Gives seen_pair result
        (separated (R.item_at rule.now) (tokens_ahead ahead.entry)) }
    ensures further { IfOk result (λ x. Advances ahead.entry x.1) }
{
    let mut items = Seq::new(alloc);
    let (first, mut rest) = rule.read(alloc, 0, ahead)?;
    items.push(first)?;
    while let Some(behind) = rest.behind_sign(Sign::Comma) {
        let (item, next) = rule.read(alloc, items.len(), behind)?;
        items.push(item)?;
        rest = next;
    }
    Ok((items, rest))
}
