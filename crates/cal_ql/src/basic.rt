ghost use Rattle.std.specs.Prelude.{◌≡◌, IfOk};
ghost use Rattle.cal_ql.specs.Reading.{header_at, name_at, past_sign};
ghost use Rattle.cal_ql.specs.Steps.{Advances, Gives, Keeps, seen_pair, tokens_ahead};
ghost use Rattle.cal_ql.specs.Tokens.{unquoted};

use crate::ahead::Ahead;
use crate::token::{Keyword, Sign, Token};
use crate::{QueryEnd, QueryKind};
use cal_value::{OutOfMemory, Text};
use std::alloc::Global;

/// The text between quotes, without its backslashes.
fn unquoted(alloc: Global, raw: &str) -> Result<Text, OutOfMemory>
    ensures { IfOk result (λ text. text ≡ unquoted raw.now) }
{
    let mut text = Text::new(alloc);
    let mut behind_backslash = false;
    for character in raw.chars() {
        if behind_backslash {
            text.push(character)?;
            behind_backslash = false;
        } else if character == '\\' {
            behind_backslash = true;
        } else {
            text.push(character)?;
        }
    }
    Ok(text)
}

/// name
#[tactic(auto, unfolding(crate::specs::Reading::name_at))]
pub(crate) fn name_at<'a>(alloc: Global, ahead: Ahead<'a>) -> Result<(Text, Ahead<'a>), QueryEnd>
    ensures read { Gives seen_pair result (name_at (tokens_ahead ahead.entry)) }
    ensures further { IfOk result (λ x. Advances ahead.entry x.1) }
{
    match ahead.first() {
        Some((Token::Word(word), rest)) => Ok((Text::from_str(alloc, word)?, rest)),
        Some((Token::Quoted(raw), rest)) => Ok((unquoted(alloc, raw)?, rest)),
        _ => Err(ahead.refused(QueryKind::ExpectedName)),
    }
}

/// A sign that must stand here.
#[tactic(auto, unfolding(crate::specs::Reading::past_sign))]
pub(crate) fn past_sign<'a>(sign: Sign, ahead: Ahead<'a>) -> Result<Ahead<'a>, QueryEnd>
    ensures read { Gives tokens_ahead result (past_sign sign (tokens_ahead ahead.entry)) }
    ensures further { IfOk result (λ x. Advances ahead.entry x) }
{
    match ahead.behind_sign(sign) {
        Some(behind) => Ok(behind),
        None => Err(ahead.refused(QueryKind::ExpectedSign)),
    }
}

/// [AS name], or else this name.
#[tactic(auto, unfolding(crate::specs::Reading::header_at))]
pub(crate) fn header_at<'a>(
    alloc: Global,
    name: Text,
    ahead: Ahead<'a>,
) -> Result<(Text, Ahead<'a>), QueryEnd>
    ensures read { Gives seen_pair result (header_at name (tokens_ahead ahead.entry)) }
    ensures further { IfOk result (λ x. Keeps ahead.entry x.1) }
{
    match ahead.behind_key(Keyword::As) {
        Some(behind) => name_at(alloc, behind),
        None => Ok((name, ahead)),
    }
}
