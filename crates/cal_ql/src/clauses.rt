ghost use Rattle.std.specs.Prelude.{◌≡◌, IfOk};
ghost use Rattle.cal_ql.specs.Clauses.{all_clauses, clause_at, clause_behind, has_clause, no_clauses, past_by};
ghost use Rattle.cal_ql.specs.Steps.{Advances, Gives, tokens_ahead};
ghost use Rattle.cal_ql.specs.Tokens.{Tokens, tokens_of};

use crate::ahead::Ahead;
use crate::conds::{CondRule, KeyRule, format_at};
use crate::kernels::{AggRule, NameRule};
use crate::lets::LetRule;
use crate::names::Format;
use crate::query::{Agg, Cond, Let, OrderKey};
use crate::rule::separated;
use crate::select::{Selection, selection_at};
use crate::token::{Keyword, Token};
use crate::{QueryEnd, QueryKind};
use cal_value::{Seq, Text};
use std::alloc::Global;

/// The clauses of a text so far.
#[derive(Debug, Drop)]
pub struct Clauses {
    pub lets: Option<Seq<Let>>,
    pub select: Option<Selection>,
    pub aggs: Option<Seq<Agg>>,
    pub conds: Option<Seq<Cond>>,
    pub group: Option<Seq<Text>>,
    pub order: Option<Seq<OrderKey>>,
    pub format: Option<Format>,
}

#[tactic(auto, unfolding(crate::specs::Clauses::past_by))]
fn past_by(ahead: Ahead<'_>) -> Result<Ahead<'_>, QueryEnd>
    ensures read { Gives tokens_ahead result (past_by (tokens_ahead ahead.entry)) }
    ensures further { IfOk result (λ x. Advances ahead.entry x) }
{
    match ahead.behind_key(Keyword::By) {
        Some(behind) => Ok(behind),
        None => Err(ahead.refused(QueryKind::ExpectedBy)),
    }
}

impl Clauses {
    fn new() -> Self
        ensures { result ≡ no_clauses }
    {
        Clauses {
            lets: None,
            select: None,
            aggs: None,
            conds: None,
            group: None,
            order: None,
            format: None,
        }
    }

    /// Whether a clause of this keyword came before.
    fn has(&self, keyword: Keyword) -> bool
        ensures { result ≡ has_clause self.now keyword }
    {
        match keyword {
            Keyword::Let => self.lets.is_some(),
            Keyword::Select => self.select.is_some(),
            Keyword::Aggregate => self.aggs.is_some(),
            Keyword::Where => self.conds.is_some(),
            Keyword::Group => self.group.is_some(),
            Keyword::Order => self.order.is_some(),
            Keyword::Format => self.format.is_some(),
            _ => false,
        }
    }

    /// Reads the next clause. After an `Err` the clauses are of no more use.
    #[tactic(auto, unfolding(crate::specs::Clauses::clause_at))]
    fn read_clause<'a>(&mut self, alloc: Global, ahead: Ahead<'a>) -> Result<Ahead<'a>, QueryEnd>
        ensures read { Gives (λ rest. (self.new, tokens_ahead rest)) result
            (clause_at self.old (tokens_ahead ahead.entry)) }
        ensures further { IfOk result (λ rest. Advances ahead.entry rest) }
    {
        match ahead.first() {
            Some((Token::Key(keyword), rest)) => {
                if self.has(keyword) {
                    return Err(ahead.refused(QueryKind::DuplicateClause));
                }
                self.read_behind(alloc, ahead, keyword, rest)
            }
            _ => Err(ahead.refused(QueryKind::ExpectedClause)),
        }
    }

    fn read_behind<'a>(
        &mut self,
        alloc: Global,
        here: Ahead<'a>,
        keyword: Keyword,
        ahead: Ahead<'a>,
    ) -> Result<Ahead<'a>, QueryEnd>
        requires { Advances here ahead }
        ensures read { Gives (λ rest. (self.new, tokens_ahead rest)) result
            (clause_behind self.old (tokens_ahead here.entry) keyword (tokens_ahead ahead.entry)) }
        ensures further { IfOk result (λ rest. Advances here.entry rest) }
    {
        match keyword {
            Keyword::Let => self.read_lets(alloc, ahead),
            Keyword::Select => self.read_select(alloc, ahead),
            Keyword::Aggregate => self.read_aggs(alloc, ahead),
            Keyword::Where => self.read_conds(alloc, ahead),
            Keyword::Group => self.read_group(alloc, ahead),
            Keyword::Order => self.read_order(alloc, ahead),
            Keyword::Format => self.read_format(alloc, ahead),
            _ => Err(here.refused(QueryKind::ExpectedClause)),
        }
    }

    #[tactic(auto, unfolding(crate::specs::Clauses::clause_behind))]
    fn read_lets<'a>(&mut self, alloc: Global, ahead: Ahead<'a>) -> Result<Ahead<'a>, QueryEnd>
        ensures read { (here : Tokens) → Gives (λ rest. (self.new, tokens_ahead rest)) result
            (clause_behind self.old here Keyword.Let (tokens_ahead ahead.entry)) }
        ensures further { IfOk result (λ rest. Advances ahead.entry rest) }
    {
        let (lets, rest) = separated(&LetRule, alloc, ahead)?;
        self.lets = Some(lets);
        Ok(rest)
    }

    #[tactic(auto, unfolding(crate::specs::Clauses::clause_behind))]
    fn read_select<'a>(&mut self, alloc: Global, ahead: Ahead<'a>) -> Result<Ahead<'a>, QueryEnd>
        ensures read { (here : Tokens) → Gives (λ rest. (self.new, tokens_ahead rest)) result
            (clause_behind self.old here Keyword.Select (tokens_ahead ahead.entry)) }
        ensures further { IfOk result (λ rest. Advances ahead.entry rest) }
    {
        let (selection, rest) = selection_at(alloc, ahead)?;
        self.select = Some(selection);
        Ok(rest)
    }

    #[tactic(auto, unfolding(crate::specs::Clauses::clause_behind))]
    fn read_aggs<'a>(&mut self, alloc: Global, ahead: Ahead<'a>) -> Result<Ahead<'a>, QueryEnd>
        ensures read { (here : Tokens) → Gives (λ rest. (self.new, tokens_ahead rest)) result
            (clause_behind self.old here Keyword.Aggregate (tokens_ahead ahead.entry)) }
        ensures further { IfOk result (λ rest. Advances ahead.entry rest) }
    {
        let (aggs, rest) = separated(&AggRule, alloc, ahead)?;
        self.aggs = Some(aggs);
        Ok(rest)
    }

    #[tactic(auto, unfolding(crate::specs::Clauses::clause_behind))]
    fn read_conds<'a>(&mut self, alloc: Global, ahead: Ahead<'a>) -> Result<Ahead<'a>, QueryEnd>
        ensures read { (here : Tokens) → Gives (λ rest. (self.new, tokens_ahead rest)) result
            (clause_behind self.old here Keyword.Where (tokens_ahead ahead.entry)) }
        ensures further { IfOk result (λ rest. Advances ahead.entry rest) }
    {
        let (conds, rest) = separated(&CondRule, alloc, ahead)?;
        self.conds = Some(conds);
        Ok(rest)
    }

    #[tactic(auto, unfolding(crate::specs::Clauses::clause_behind))]
    fn read_group<'a>(&mut self, alloc: Global, ahead: Ahead<'a>) -> Result<Ahead<'a>, QueryEnd>
        ensures read { (here : Tokens) → Gives (λ rest. (self.new, tokens_ahead rest)) result
            (clause_behind self.old here Keyword.Group (tokens_ahead ahead.entry)) }
        ensures further { IfOk result (λ rest. Advances ahead.entry rest) }
    {
        let (names, rest) = separated(&NameRule, alloc, past_by(ahead)?)?;
        self.group = Some(names);
        Ok(rest)
    }

    #[tactic(auto, unfolding(crate::specs::Clauses::clause_behind))]
    fn read_order<'a>(&mut self, alloc: Global, ahead: Ahead<'a>) -> Result<Ahead<'a>, QueryEnd>
        ensures read { (here : Tokens) → Gives (λ rest. (self.new, tokens_ahead rest)) result
            (clause_behind self.old here Keyword.Order (tokens_ahead ahead.entry)) }
        ensures further { IfOk result (λ rest. Advances ahead.entry rest) }
    {
        let (order, rest) = separated(&KeyRule, alloc, past_by(ahead)?)?;
        self.order = Some(order);
        Ok(rest)
    }

    #[tactic(auto, unfolding(crate::specs::Clauses::clause_behind))]
    fn read_format<'a>(&mut self, alloc: Global, ahead: Ahead<'a>) -> Result<Ahead<'a>, QueryEnd>
        ensures read { (here : Tokens) → Gives (λ rest. (self.new, tokens_ahead rest)) result
            (clause_behind self.old here Keyword.Format (tokens_ahead ahead.entry)) }
        ensures further { IfOk result (λ rest. Advances ahead.entry rest) }
    {
        let (format, rest) = format_at(alloc, ahead)?;
        self.format = Some(format);
        Ok(rest)
    }
}

/// The clauses up to the end of a text.
pub(crate) fn clauses_of(alloc: Global, text: &str) -> Result<Clauses, QueryEnd>
    ensures { Gives (λ clauses. clauses) result (all_clauses (tokens_of text.now)) }
{
    let mut clauses = Clauses::new();
    let mut ahead = Ahead::new(text);
    while !ahead.is_at_end() {
        ahead = clauses.read_clause(alloc, ahead)?;
    }
    Ok(clauses)
}
