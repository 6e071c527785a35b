ghost use Rattle.std.specs.Prelude.{◌≡◌, ◌<◌, length, drop, slice_get, Some, IfOk};
ghost use Rattle.std.specs.List.{prefix_len};
ghost use Rattle.std.specs.Str.{IsCharBoundary};
ghost use Rattle.cal_ql.specs.Names.{keyword_of};
ghost use Rattle.cal_ql.specs.Scanning.{IsLexeme, token_of};
ghost use Rattle.cal_ql.specs.Signs.{sign_at};
ghost use Rattle.cal_ql.specs.Tokens.{is_blank, is_word_byte, quoted_at, quoted_len, token_at, word_or_key};

use crate::QueryKind;
use crate::token::{Keyword, Sign, Token};

fn is_blank(byte: u8) -> bool
    ensures { result ≡ is_blank byte }
{
    b" \t\n".contains(&byte)
}

fn is_word_byte(byte: u8) -> bool
    ensures { result ≡ is_word_byte byte }
{
    byte.is_ascii_alphanumeric() || b"_.-:#/@".contains(&byte) || byte >= 128
}

/// How many blanks a text begins with.
pub(crate) fn blanks(text: &[u8]) -> usize
    ensures { result ≡ prefix_len is_blank text.now }
{
    let mut len = 0;
    while len < text.len() && is_blank(text[len]) {
        len += 1;
    }
    len
}

fn word_len(text: &[u8]) -> usize
    ensures { result ≡ prefix_len is_word_byte text.now }
{
    let mut len = 0;
    while len < text.len() && is_word_byte(text[len]) {
        len += 1;
    }
    len
}

#[tactic(auto, unfolding(crate::specs::Names::keyword_of))]
fn keyword_of(word: &str) -> Option<Keyword>
    ensures { result ≡ keyword_of word.now }
{
    if word.eq_ignore_ascii_case("let") {
        Some(Keyword::Let)
    } else if word.eq_ignore_ascii_case("select") {
        Some(Keyword::Select)
    } else if word.eq_ignore_ascii_case("aggregate") {
        Some(Keyword::Aggregate)
    } else if word.eq_ignore_ascii_case("where") {
        Some(Keyword::Where)
    } else if word.eq_ignore_ascii_case("group") {
        Some(Keyword::Group)
    } else if word.eq_ignore_ascii_case("order") {
        Some(Keyword::Order)
    } else if word.eq_ignore_ascii_case("by") {
        Some(Keyword::By)
    } else if word.eq_ignore_ascii_case("format") {
        Some(Keyword::Format)
    } else if word.eq_ignore_ascii_case("as") {
        Some(Keyword::As)
    } else if word.eq_ignore_ascii_case("not") {
        Some(Keyword::Not)
    } else if word.eq_ignore_ascii_case("asc") {
        Some(Keyword::Asc)
    } else if word.eq_ignore_ascii_case("desc") {
        Some(Keyword::Desc)
    } else {
        None
    }
}

fn word_or_key(word: &str) -> Token<'_>
    ensures { token_of result ≡ word_or_key word.now (keyword_of word.now) }
{
    match keyword_of(word) {
        Some(keyword) => Token::Key(keyword),
        None => Token::Word(word),
    }
}

#[tactic(auto, unfolding(crate::specs::Signs::sign_at))]
fn sign_at(text: &[u8]) -> Option<Sign>
    ensures { result ≡ sign_at text.now }
{
    if text.starts_with(b"<=") {
        Some(Sign::LessEqual)
    } else if text.starts_with(b">=") {
        Some(Sign::GreaterEqual)
    } else if text.starts_with(b"<") {
        Some(Sign::Less)
    } else if text.starts_with(b">") {
        Some(Sign::Greater)
    } else if text.starts_with(b",") {
        Some(Sign::Comma)
    } else if text.starts_with(b"(") {
        Some(Sign::Open)
    } else if text.starts_with(b")") {
        Some(Sign::Close)
    } else if text.starts_with(b"*") {
        Some(Sign::Star)
    } else if text.starts_with(b"=") {
        Some(Sign::Equals)
    } else {
        None
    }
}

/// How many bytes stand before the quote that closes a quoted text.
fn quoted_len(behind: &[u8]) -> Option<usize>
    ensures { result ≡ quoted_len behind.now }
{
    let mut len = 0;
    while len < behind.len() {
        if behind[len] == b'"' {
            return Some(len);
        }
        len += if behind[len] == b'\\' { 2 } else { 1 };
    }
    None
}

/// The quoted text at the front, which begins with a quote.
fn quoted_at(text: &str) -> Result<(Token<'_>, usize), QueryKind>
    requires { slice_get text.now 0 ≡ Some 34 }
    ensures lexeme { IsLexeme result (quoted_at (drop 1 text.now) (quoted_len (drop 1 text.now))) }
    ensures boundary { IfOk result (λ x. IsCharBoundary text.now x.1) }
{
    let Some(len) = quoted_len(&text.as_bytes()[1..]) else {
        return Err(QueryKind::OpenQuote);
    };
    Ok((Token::Quoted(&text[1..len + 1]), len + 2))
}

/// The token at the front of a text, and how many bytes it takes; or why none begins.
#[tactic(auto, unfolding(crate::specs::Tokens::token_at))]
pub(crate) fn token_at(text: &str) -> Result<(Token<'_>, usize), QueryKind>
    ensures lexeme { IsLexeme result (token_at text.now) }
    ensures boundary { IfOk result (λ x. IsCharBoundary text.now x.1) }
{
    let bytes = text.as_bytes();
    let len = word_len(bytes);
    if len > 0 {
        return Ok((word_or_key(&text[..len]), len));
    }
    if bytes.starts_with(b"\"") {
        return quoted_at(text);
    }
    let sign = sign_at(bytes).ok_or(QueryKind::BadToken)?;
    Ok((Token::Sign(sign), sign.text().len()))
}
