ghost use Rattle.std.specs.Prelude.{◌≡◌, IfOk, IfSome, Ok, option_map};
ghost use Rattle.cal_ql.specs.Conds.{behind_relation, compared, cond_at, direction_at, enclosed_test_at, format_at, negated_at, order_key_at, relation_of, test_at, test_of};
ghost use Rattle.cal_ql.specs.Steps.{Advances, Gives, Keeps, seen_pair, tokens_ahead};
ghost use Rattle.cal_ql.specs.Tokens.{Fault, Tokens};

use crate::ahead::Ahead;
use crate::basic::{name_at, past_sign};
use crate::names::Format;
use crate::query::{Cond, OrderKey, Test};
use crate::rule::Rule;
use crate::token::{Keyword, Sign, Token};
use crate::{QueryEnd, QueryKind};
use cal_value::Text;
use std::alloc::Global;

/// rel
#[derive(Clone, Copy, Debug)]
pub enum Relation {
    Eq,
    Lt,
    Gt,
    Le,
    Ge,
}

impl Relation {
    fn of_sign(sign: Sign) -> Option<Relation>
        ensures { result ≡ relation_of sign }
    {
        match sign {
            Sign::Equals => Some(Relation::Eq),
            Sign::Less => Some(Relation::Lt),
            Sign::Greater => Some(Relation::Gt),
            Sign::LessEqual => Some(Relation::Le),
            Sign::GreaterEqual => Some(Relation::Ge),
            _ => None,
        }
    }

    fn test(self, value: Text) -> Test
        ensures { result ≡ test_of self value }
    {
        match self {
            Relation::Eq => Test::Eq(value),
            Relation::Lt => Test::Lt(value),
            Relation::Gt => Test::Gt(value),
            Relation::Le => Test::Le(value),
            Relation::Ge => Test::Ge(value),
        }
    }
}

/// A rel, where one comes first.
#[tactic(auto, unfolding(crate::specs::Conds::behind_relation))]
fn behind_relation(ahead: Ahead<'_>) -> Option<(Relation, Ahead<'_>)>
    ensures behind { option_map seen_pair result ≡ behind_relation (tokens_ahead ahead.entry) }
    ensures further { IfSome result (λ x. Advances ahead.entry x.1) }
{
    match ahead.first() {
        Some((Token::Sign(sign), rest)) => match Relation::of_sign(sign) {
            Some(relation) => Some((relation, rest)),
            None => None,
        },
        _ => None,
    }
}

/// test = name | name rel name
#[tactic(auto, unfolding(crate::specs::Conds::test_at))]
fn test_at<'a>(alloc: Global, not: bool, ahead: Ahead<'a>) -> Result<(Cond, Ahead<'a>), QueryEnd>
    ensures read { Gives seen_pair result (test_at not (tokens_ahead ahead.entry)) }
    ensures further { IfOk result (λ x. Advances ahead.entry x.1) }
{
    let (name, behind) = name_at(alloc, ahead)?;
    match behind_relation(behind) {
        Some((relation, rest)) => {
            let (value, rest) = name_at(alloc, rest)?;
            let test = relation.test(value);
            Ok((Cond { not, name, test }, rest))
        }
        None => {
            let test = Test::Has;
            Ok((Cond { not, name, test }, behind))
        }
    }
}

#[tactic(auto, unfolding(crate::specs::Conds::enclosed_test_at))]
fn enclosed_test_at<'a>(alloc: Global, ahead: Ahead<'a>) -> Result<(Cond, Ahead<'a>), QueryEnd>
    ensures read { Gives seen_pair result (enclosed_test_at (tokens_ahead ahead.entry)) }
    ensures further { IfOk result (λ x. Advances ahead.entry x.1) }
{
    let (cond, rest) = test_at(alloc, true, ahead)?;
    let close = past_sign(Sign::Close, rest)?;
    Ok((cond, close))
}

/// test | ( test ), behind NOT
#[tactic(auto, unfolding(crate::specs::Conds::negated_at))]
fn negated_at<'a>(alloc: Global, ahead: Ahead<'a>) -> Result<(Cond, Ahead<'a>), QueryEnd>
    ensures read { Gives seen_pair result (negated_at (tokens_ahead ahead.entry)) }
    ensures further { IfOk result (λ x. Advances ahead.entry x.1) }
{
    match ahead.behind_sign(Sign::Open) {
        Some(open) => enclosed_test_at(alloc, open),
        None => test_at(alloc, true, ahead),
    }
}

/// cond = test | NOT test | NOT ( test )
#[derive(Clone, Copy)]
pub(crate) struct CondRule;

impl Rule for CondRule {
    type Item = Cond;

    ghost item_at = { λ _ _. cond_at };

    #[tactic(auto, unfolding(crate::specs::Conds::cond_at))]
    fn read<'a>(
        &self,
        alloc: Global,
        _number: usize,
        ahead: Ahead<'a>,
    ) -> Result<(Cond, Ahead<'a>), QueryEnd> {
        match ahead.behind_key(Keyword::Not) {
            Some(behind) => negated_at(alloc, behind),
            None => test_at(alloc, false, ahead),
        }
    }
}

/// [ASC | DESC]
#[tactic(auto, unfolding(crate::specs::Conds::direction_at))]
fn direction_at(ahead: Ahead<'_>) -> (bool, Ahead<'_>)
    ensures read { direction_at (tokens_ahead ahead.entry) ≡ Ok (seen_pair result) }
    ensures further { Keeps ahead.entry result.1 }
{
    if let Some(rest) = ahead.behind_key(Keyword::Desc) {
        return (true, rest);
    }
    match ahead.behind_key(Keyword::Asc) {
        Some(rest) => (false, rest),
        None => (false, ahead),
    }
}

/// key = name [ASC | DESC]
#[derive(Clone, Copy)]
pub(crate) struct KeyRule;

impl Rule for KeyRule {
    type Item = OrderKey;

    ghost item_at = { λ _ _. order_key_at };

    #[tactic(auto, unfolding(crate::specs::Conds::order_key_at))]
    fn read<'a>(
        &self,
        alloc: Global,
        _number: usize,
        ahead: Ahead<'a>,
    ) -> Result<(OrderKey, Ahead<'a>), QueryEnd> {
        let (name, behind) = name_at(alloc, ahead)?;
        let (down, rest) = direction_at(behind);
        Ok((OrderKey { name, down }, rest))
    }
}

/// FORMAT name
#[tactic(auto, unfolding(crate::specs::Conds::format_at))]
pub(crate) fn format_at<'a>(
    alloc: Global,
    ahead: Ahead<'a>,
) -> Result<(Format, Ahead<'a>), QueryEnd>
    ensures read { Gives seen_pair result (format_at (tokens_ahead ahead.entry)) }
    ensures further { IfOk result (λ x. Advances ahead.entry x.1) }
{
    let (name, rest) = name_at(alloc, ahead)?;
    match Format::from_name(name.as_str()) {
        Some(format) => Ok((format, rest)),
        None => Err(ahead.refused(QueryKind::UnknownFormat)),
    }
}
