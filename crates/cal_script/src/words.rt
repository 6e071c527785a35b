ghost use Rattle.std.specs.Prelude.{◌≡◌, ◌∷◌, ◌++◌, ◌<◌, ◌≤◌, length, Option, IfSome};
ghost use Rattle.std.specs.List.{list_all};
ghost use Rattle.std.specs.Option.{option_map};
ghost use Rattle.cal_script.specs.Lines.{is_skipped, is_word, one_word, pieces, some_words, three_words};
ghost use Rattle.cal_script.specs.Lines.{two_words, word_and_rest};
ghost use Rattle.cal_script.specs.Steps.{pieces_behind, words_behind};

use memchr::memchr;

/// Whether a line says nothing.
pub(crate) fn is_skipped(line: &[u8]) -> bool
    ensures { result ≡ is_skipped line.now }
{
    match line {
        [] => true,
        [first, ..] => *first == b'#',
    }
}

/// A text's first piece, and what stands behind the mark that ends it.
#[inline(always)]
pub fn cut(text: &str, mark: char) -> (&str, Option<&str>)
    requires { mark < 128 }
    ensures pieces { pieces mark text.now ≡ result.0.now ∷ pieces_behind mark result.1 }
    ensures shorter { IfSome result.1 (λ rest. length rest.now < length text.now) }
{
    match memchr(mark as u8, text.as_bytes()) {
        Some(end) => (&text[..end], Some(&text[end + 1..])),
        None => (text, None),
    }
}

/// What stands before the space at a place and behind it, where one stands there.
#[inline(always)]
fn cut_at(text: &str, place: usize) -> Option<(&str, &str)>
    ensures { IfSome result (λ parts. text.now ≡ parts.0.now ++ 32 ∷ parts.1.now) }
{
    let bytes = text.as_bytes();
    if place >= bytes.len() || bytes[place] != b' ' {
        return None;
    }
    Some((&text[..place], &text[place + 1..]))
}

/// The word and what stands behind the space that ends it, where a text begins with them.
#[inline(always)]
pub(crate) fn behind<'a>(text: &'a str, word: &str) -> Option<(&'a str, &'a str)>
    ensures parts { IfSome result (λ parts. text.now ≡ parts.0.now ++ 32 ∷ parts.1.now) }
    ensures word { IfSome result (λ parts. parts.0.now ≡ word.now) }
{
    let (front, rest) = cut_at(text, word.len())?;
    if front == word {
        return Some((front, rest));
    }
    None
}

/// A line's first word, and what stands behind the space that ends it.
#[inline(always)]
pub fn first_word(line: &str) -> (&str, Option<&str>)
    ensures { pieces 32 line.now ≡ result.0.now ∷ words_behind result.1 }
{
    cut(line, ' ')
}

/// The one word that stands there.
#[inline(always)]
#[tactic(auto, using(crate::proofs::Cuts::one_word_more))]
pub fn one_word(rest: Option<&str>) -> Option<&str>
    ensures { option_map (λ word. word.now) result ≡ one_word (words_behind rest.entry) }
{
    let (word, rest) = first_word(rest?);
    if rest.is_some() || word.is_empty() {
        return None;
    }
    Some(word)
}

/// The two words that stand there.
#[tactic(auto, using(crate::proofs::Cuts::two_words_more))]
pub fn two_words(rest: Option<&str>) -> Option<(&str, &str)>
    ensures { option_map (λ words. (words.0.now, words.1.now)) result
        ≡ two_words (words_behind rest.entry) }
{
    let (first, rest) = first_word(rest?);
    let (second, rest) = first_word(rest?);
    if rest.is_some() || first.is_empty() || second.is_empty() {
        return None;
    }
    Some((first, second))
}

/// The three words that stand there.
#[tactic(auto, using(crate::proofs::Cuts::three_words_more))]
pub(crate) fn three_words(rest: Option<&str>) -> Option<(&str, &str, &str)>
    ensures { option_map (λ words. (words.0.now, words.1.now, words.2.now)) result
        ≡ three_words (words_behind rest.entry) }
{
    let (first, rest) = first_word(rest?);
    let (second, rest) = first_word(rest?);
    let (third, rest) = first_word(rest?);
    if rest.is_some() || first.is_empty() || second.is_empty() || third.is_empty() {
        return None;
    }
    Some((first, second, third))
}

/// The word that stands there, and the rest of the line behind a space.
#[inline(always)]
#[tactic(auto, using(crate::proofs::Cuts::word_and_rest_of))]
pub(crate) fn word_and_rest(rest: Option<&str>) -> Option<(&str, &str)>
    ensures { option_map (λ words. (words.0.now, words.1.now)) result
        ≡ word_and_rest (words_behind rest.entry) }
{
    let (word, rest) = first_word(rest?);
    let value = rest?;
    if word.is_empty() {
        return None;
    }
    Some((word, value))
}

fn are_words(text: &str) -> bool
    ensures { result ≡ list_all is_word (pieces 32 text.now) }
{
    let mut rest = Some(text);
    while let Some(text) = rest {
        let (word, more) = cut(text, ' ');
        if word.is_empty() {
            return false;
        }
        rest = more;
    }
    true
}

/// The text of the words that stand there, of which there is one at least.
#[tactic(auto, using(crate::proofs::Cuts::some_words_of))]
pub(crate) fn some_words(rest: Option<&str>) -> Option<&str>
    ensures { option_map (λ text. pieces 32 text.now) result ≡ some_words (words_behind rest.entry) }
{
    let text = rest?;
    if !are_words(text) {
        return None;
    }
    Some(text)
}
