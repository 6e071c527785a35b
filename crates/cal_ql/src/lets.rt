ghost use Rattle.std.specs.Prelude.{◌≡◌, IfOk, length};
ghost use Rattle.cal_ql.specs.Lets.{argument_at, arguments_at, is_number_place, let_at, let_of, names_in, number_at, number_in, number_of, op_at, takes};
ghost use Rattle.cal_ql.specs.Steps.{Advances, Gives, seen_pair, tokens_ahead};
ghost use Rattle.cal_ql.specs.Tokens.{Fault, Tokens};

use crate::ahead::Ahead;
use crate::basic::{name_at, past_sign};
use crate::names::Op;
use crate::query::Let;
use crate::rule::{Rule, separated};
use crate::token::{Sign, Token};
use crate::{QueryEnd, QueryKind};
use cal_value::{Kind, OutOfMemory, Seq, Text, ValueFault, Variant, parse_value};
use std::alloc::Global;

/// An argument of an operator.
#[derive(Debug, Drop)]
pub enum Argument {
    Name(Text),
    Number(i64),
}

#[tactic(auto, unfolding(crate::specs::Lets::op_at))]
fn op_at<'a>(alloc: Global, ahead: Ahead<'a>) -> Result<(Op, Ahead<'a>), QueryEnd>
    ensures read { Gives seen_pair result (op_at (tokens_ahead ahead.entry)) }
    ensures further { IfOk result (λ x. Advances ahead.entry x.1) }
{
    let (name, rest) = name_at(alloc, ahead)?;
    match Op::from_name(name.as_str()) {
        Some(op) => Ok((op, rest)),
        None => Err(ahead.refused(QueryKind::UnknownOp)),
    }
}

const MOST_NUMBER: i128 = 2_147_483_647;

/// The number that a word writes, within the operator's bounds.
#[tactic(auto, unfolding(crate::specs::Lets::number_in))]
fn number_in(alloc: Global, op: Op, word: &str) -> Result<Option<i64>, OutOfMemory>
    ensures { IfOk result (λ number. number ≡ number_in op word.now) }
{
    let least = match op {
        Op::Truncate => 1,
        _ => -MOST_NUMBER,
    };
    match parse_value(alloc, Kind::Int, word) {
        Ok(Variant::Int(number)) => {
            if number < least || number > MOST_NUMBER {
                Ok(None)
            } else {
                Ok(Some(number as i64))
            }
        }
        Err(ValueFault::OutOfMemory) => Err(OutOfMemory),
        _ => Ok(None),
    }
}

#[tactic(auto, unfolding(crate::specs::Lets::number_at))]
fn number_at<'a>(alloc: Global, op: Op, ahead: Ahead<'a>) -> Result<(i64, Ahead<'a>), QueryEnd>
    ensures read { Gives seen_pair result (number_at op (tokens_ahead ahead.entry)) }
    ensures further { IfOk result (λ x. Advances ahead.entry x.1) }
{
    match ahead.first() {
        Some((Token::Word(word), rest)) => match number_in(alloc, op, word)? {
            Some(number) => Ok((number, rest)),
            None => Err(ahead.refused(QueryKind::BadNumber)),
        },
        _ => Err(ahead.refused(QueryKind::BadNumber)),
    }
}

/// Whether the argument of this number, counted from 0, is a number.
fn is_number_place(op: Op, index: usize) -> bool
    ensures { result ≡ is_number_place op index }
{
    match op {
        Op::Truncate => index == 1,
        Op::Scale => index == 1,
        Op::Ratio => index == 2,
        Op::First => false,
        Op::Sum => false,
    }
}

/// arg, of an operator
#[derive(Clone, Copy)]
struct ArgumentOf(Op);

impl Rule for ArgumentOf {
    type Item = Argument;

    ghost item_at = { λ rule. argument_at rule.0 };

    #[tactic(auto, unfolding(crate::specs::Lets::argument_at))]
    fn read<'a>(
        &self,
        alloc: Global,
        number: usize,
        ahead: Ahead<'a>,
    ) -> Result<(Argument, Ahead<'a>), QueryEnd> {
        if is_number_place(self.0, number) {
            let (number, rest) = number_at(alloc, self.0, ahead)?;
            Ok((Argument::Number(number), rest))
        } else {
            let (name, rest) = name_at(alloc, ahead)?;
            Ok((Argument::Name(name), rest))
        }
    }
}

#[tactic(auto, unfolding(crate::specs::Lets::arguments_at))]
fn arguments_at<'a>(
    alloc: Global,
    op: Op,
    ahead: Ahead<'a>,
) -> Result<(Seq<Argument>, Ahead<'a>), QueryEnd>
    ensures read { Gives seen_pair result (arguments_at op (tokens_ahead ahead.entry)) }
    ensures further { IfOk result (λ x. Advances ahead.entry x.1) }
{
    let open = past_sign(Sign::Open, ahead)?;
    let (arguments, rest) = separated(&ArgumentOf(op), alloc, open)?;
    let close = past_sign(Sign::Close, rest)?;
    Ok((arguments, close))
}

/// Whether an operator takes so many names, and a number or none.
fn takes(op: Op, names: usize, number: Option<i64>) -> bool
    ensures { result ≡ takes op names number }
{
    match op {
        Op::Truncate => names == 1,
        Op::Scale => names == 1 && number.is_some(),
        Op::Ratio => names == 2,
        Op::First => 1 <= names && names <= 16,
        Op::Sum => 1 <= names && names <= 16,
    }
}

/// The names and the number among arguments.
fn names_and_number(
    alloc: Global,
    arguments: Seq<Argument>,
) -> Result<(Seq<Text>, Option<i64>), OutOfMemory>
    ensures names { IfOk result (λ x. x.0 ≡ names_in arguments) }
    ensures number { IfOk result (λ x. x.1 ≡ number_of arguments) }
{
    let mut names = Seq::new(alloc);
    let mut number = None;
    for argument in arguments.into_vec() {
        match argument {
            Argument::Name(name) => names.push(name)?,
            Argument::Number(n) => number = number.or(Some(n)),
        }
    }
    Ok((names, number))
}

fn let_of(
    alloc: Global,
    name: Text,
    op: Op,
    arguments: Seq<Argument>,
) -> Result<Option<Let>, OutOfMemory>
    ensures { IfOk result (λ definition. definition ≡ let_of name op arguments) }
{
    let (args, number) = names_and_number(alloc, arguments)?;
    if !takes(op, args.len(), number) {
        return Ok(None);
    }
    Ok(Some(Let {
        name,
        op,
        args,
        n: number.unwrap_or(1),
    }))
}

/// let = name = op ( arg {, arg} )
#[derive(Clone, Copy)]
pub(crate) struct LetRule;

impl Rule for LetRule {
    type Item = Let;

    ghost item_at = { λ _ _. let_at };

    #[tactic(auto, unfolding(crate::specs::Lets::let_at))]
    fn read<'a>(
        &self,
        alloc: Global,
        _number: usize,
        ahead: Ahead<'a>,
    ) -> Result<(Let, Ahead<'a>), QueryEnd> {
        let (name, rest) = name_at(alloc, ahead)?;
        let call = past_sign(Sign::Equals, rest)?;
        let (op, open) = op_at(alloc, call)?;
        let (arguments, close) = arguments_at(alloc, op, open)?;
        match let_of(alloc, name, op, arguments)? {
            Some(definition) => Ok((definition, close)),
            None => Err(call.refused(QueryKind::BadArity)),
        }
    }
}
