ghost use Rattle.std.specs.Prelude.{◌≡◌, ◌↔◌, IsTrue, IfSome, option_map};
ghost use Rattle.cal_ql.specs.Reading.{behind_key, behind_sign, first_of, is_end, refused};
ghost use Rattle.cal_ql.specs.Scanning.{token_of};
ghost use Rattle.cal_ql.specs.Steps.{Advances, end_of, tokens_ahead, tokens_at};
ghost use Rattle.cal_ql.specs.Tokens.{tokens_of};

use crate::scan::{blanks, token_at};
use crate::token::{Keyword, Sign, Token};
use crate::{QueryEnd, QueryKind};

/// What is left of a text of `whole` bytes.
#[derive(Clone, Copy)]
pub(crate) struct Ahead<'a> {
    whole: usize,
    rest: &'a str,
}

/// What stands first, with its place.
#[derive(Clone, Copy)]
enum Front<'a> {
    End(usize),
    Broken(usize, QueryKind),
    Token(usize, Token<'a>, Ahead<'a>),
}

impl<'a> Ahead<'a> {
    #[tactic(auto, unfolding(crate::specs::Steps::tokens_ahead))]
    pub(crate) fn new(text: &'a str) -> Self
        ensures { tokens_ahead result ≡ tokens_of text.entry.now }
    {
        Ahead {
            whole: text.len(),
            rest: text,
        }
    }

    fn front(self) -> Front<'a>
        ensures { tokens_at result ≡ tokens_ahead self.entry }
    {
        let Ahead { whole, rest } = self;
        let text = &rest[blanks(rest.as_bytes())..];
        let place = whole.saturating_sub(text.len());
        if text.is_empty() {
            return Front::End(place);
        }
        match token_at(text) {
            Ok((token, len)) => {
                let rest = &text[len..];
                Front::Token(place, token, Ahead { whole, rest })
            }
            Err(kind) => Front::Broken(place, kind),
        }
    }

    pub(crate) fn is_at_end(self) -> bool
        ensures { result ≡ is_end (tokens_ahead self.entry) }
    {
        matches!(self.front(), Front::End(_))
    }

    /// The first token, and what stands behind it.
    #[tactic(auto, unfolding(crate::specs::Reading::first_of))]
    pub(crate) fn first(self) -> Option<(Token<'a>, Ahead<'a>)>
        ensures first { option_map (λ x. (token_of x.0, tokens_ahead x.1)) result
            ≡ first_of (tokens_ahead self.entry) }
        ensures further { IfSome result (λ x. Advances self.entry x.1) }
    {
        match self.front() {
            Front::Token(_, token, behind) => Some((token, behind)),
            _ => None,
        }
    }

    /// The fault at the first token, which can't be taken.
    #[tactic(auto, unfolding(crate::specs::Reading::refused))]
    pub(crate) fn refused(self, kind: QueryKind) -> QueryEnd
        ensures { result ≡ end_of (refused kind (tokens_ahead self.entry)) }
    {
        let (place, kind) = match self.front() {
            Front::End(place) => (place, kind),
            Front::Broken(place, own) => (place, own),
            Front::Token(place, _, _) => (place, kind),
        };
        QueryEnd::BadQuery {
            place: place as u64,
            kind,
        }
    }

    /// What stands behind a sign, where it comes first.
    #[tactic(auto, unfolding(crate::specs::Reading::behind_sign))]
    pub(crate) fn behind_sign(self, sign: Sign) -> Option<Ahead<'a>>
        ensures behind { option_map tokens_ahead result
            ≡ behind_sign sign (tokens_ahead self.entry) }
        ensures further { IfSome result (λ x. Advances self.entry x) }
    {
        match self.first() {
            Some((Token::Sign(first), behind)) if first.text() == sign.text() => Some(behind),
            _ => None,
        }
    }

    /// What stands behind a keyword, where it comes first.
    #[tactic(auto, unfolding(crate::specs::Reading::behind_key))]
    pub(crate) fn behind_key(self, key: Keyword) -> Option<Ahead<'a>>
        ensures behind { option_map tokens_ahead result ≡ behind_key key (tokens_ahead self.entry) }
        ensures further { IfSome result (λ x. Advances self.entry x) }
    {
        match self.first() {
            Some((Token::Key(first), behind)) if first.name() == key.name() => Some(behind),
            _ => None,
        }
    }
}
