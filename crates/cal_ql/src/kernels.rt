ghost use Rattle.std.specs.Prelude.{◌≡◌, IfOk};
ghost use Rattle.cal_ql.specs.Kernels.{agg_at, any_name_at, attr_of, kernel_at, names_at, names_behind, result_name};
ghost use Rattle.cal_ql.specs.Steps.{Advances, Gives, seen_pair, tokens_ahead};
ghost use Rattle.cal_ql.specs.Tokens.{Fault, Tokens};

use crate::ahead::Ahead;
use crate::basic::{header_at, name_at, past_sign};
use crate::names::KernelName;
use crate::query::Agg;
use crate::rule::{Rule, separated};
use crate::token::Sign;
use crate::{QueryEnd, QueryKind};
use cal_value::{OutOfMemory, Seq, Text};
use std::alloc::Global;

#[tactic(auto, unfolding(crate::specs::Kernels::kernel_at))]
fn kernel_at<'a>(alloc: Global, ahead: Ahead<'a>) -> Result<(KernelName, Ahead<'a>), QueryEnd>
    ensures read { Gives seen_pair result (kernel_at (tokens_ahead ahead.entry)) }
    ensures further { IfOk result (λ x. Advances ahead.entry x.1) }
{
    let (name, rest) = name_at(alloc, ahead)?;
    match KernelName::from_name(name.as_str()) {
        Some(kernel) => Ok((kernel, rest)),
        None => Err(ahead.refused(QueryKind::UnknownKernel)),
    }
}

/// name, wherever it stands in a list
#[derive(Clone, Copy)]
pub(crate) struct NameRule;

impl Rule for NameRule {
    type Item = Text;

    ghost item_at = { λ _. any_name_at };

    fn read<'a>(
        &self,
        alloc: Global,
        _number: usize,
        ahead: Ahead<'a>,
    ) -> Result<(Text, Ahead<'a>), QueryEnd> {
        name_at(alloc, ahead)
    }
}

#[tactic(auto, unfolding(crate::specs::Kernels::names_behind))]
fn names_behind<'a>(alloc: Global, ahead: Ahead<'a>) -> Result<(Seq<Text>, Ahead<'a>), QueryEnd>
    ensures read { Gives seen_pair result (names_behind (tokens_ahead ahead.entry)) }
    ensures further { IfOk result (λ x. Advances ahead.entry x.1) }
{
    let (names, rest) = separated(&NameRule, alloc, ahead)?;
    let close = past_sign(Sign::Close, rest)?;
    Ok((names, close))
}

/// ( [name {, name}] )
#[tactic(auto, unfolding(crate::specs::Kernels::names_at))]
fn names_at<'a>(alloc: Global, ahead: Ahead<'a>) -> Result<(Seq<Text>, Ahead<'a>), QueryEnd>
    ensures read { Gives seen_pair result (names_at (tokens_ahead ahead.entry)) }
    ensures further { IfOk result (λ x. Advances ahead.entry x.1) }
{
    let open = past_sign(Sign::Open, ahead)?;
    match open.behind_sign(Sign::Close) {
        Some(close) => Ok((Seq::new(alloc), close)),
        None => names_behind(alloc, open),
    }
}

/// The name of a kernel's result, where AS gives none.
fn result_name(alloc: Global, kernel: KernelName, attr: &Text) -> Result<Text, OutOfMemory>
    ensures { IfOk result (λ name. name ≡ result_name kernel attr.now) }
{
    let prefix = match kernel {
        KernelName::Count => return Text::from_str(alloc, "count"),
        KernelName::Sum => "sum#",
        KernelName::Min => "min#",
        KernelName::Max => "max#",
        KernelName::Avg => "avg#",
        KernelName::Inclusive => "inclusive#",
        KernelName::Percent => "percent_total#",
    };
    let mut name = Text::from_str(alloc, prefix)?;
    name.push_str(attr.as_str())?;
    Ok(name)
}

/// The name that a kernel takes: none for `count`, and one for each other.
fn attr_of(alloc: Global, kernel: KernelName, mut names: Seq<Text>) -> Option<Text>
    ensures { result ≡ attr_of kernel names }
{
    match kernel {
        KernelName::Count => {
            if names.is_empty() {
                Some(Text::new(alloc))
            } else {
                None
            }
        }
        _ => { if names.len() == 1 { names.pop() } else { None } }
    }
}

/// agg = kernel ( [name {, name}] ) [AS name]
#[tactic(auto, unfolding(crate::specs::Kernels::agg_at))]
pub(crate) fn agg_at<'a>(alloc: Global, ahead: Ahead<'a>) -> Result<(Agg, Ahead<'a>), QueryEnd>
    ensures read { Gives seen_pair result (agg_at (tokens_ahead ahead.entry)) }
    ensures further { IfOk result (λ x. Advances ahead.entry x.1) }
{
    let (kernel, open) = kernel_at(alloc, ahead)?;
    let (names, close) = names_at(alloc, open)?;
    let Some(attr) = attr_of(alloc, kernel, names) else {
        return Err(ahead.refused(QueryKind::BadArity));
    };
    let name = result_name(alloc, kernel, &attr)?;
    let (name, rest) = header_at(alloc, name, close)?;
    Ok((Agg { kernel, attr, name }, rest))
}

/// agg
#[derive(Clone, Copy)]
pub(crate) struct AggRule;

impl Rule for AggRule {
    type Item = Agg;

    ghost item_at = { λ _ _. agg_at };

    fn read<'a>(
        &self,
        alloc: Global,
        _number: usize,
        ahead: Ahead<'a>,
    ) -> Result<(Agg, Ahead<'a>), QueryEnd> {
        agg_at(alloc, ahead)
    }
}
