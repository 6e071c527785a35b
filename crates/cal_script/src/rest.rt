ghost use Rattle.std.specs.Prelude.{◌≡◌, ◌+◌, ◌<◌, ◌∷◌, [], drop, length, slice_index, take};
ghost use Rattle.std.specs.Prelude.{IfNone, IfSome};
ghost use Rattle.cal_script.specs.Lines.{lines_of};
ghost use Rattle.cal_script.specs.Rests.{bytes_in};

use crate::newline::newline_near;
use cal_line::{ended_line, next_line};

/// What is left of an input, or a line of it. Where bytes are known to be a text, so are the lines
/// in them.
#[derive(Clone, Copy, Debug)]
pub enum Rest<'a> {
    Bytes(&'a [u8]),
    Text(&'a str),
}

impl<'a> Rest<'a> {
    /// Tests at once whether bytes are a text.
    pub fn of(bytes: &'a [u8]) -> Rest<'a>
        ensures { bytes_in result ≡ bytes.now }
    {
        match std::str::from_utf8(bytes) {
            Ok(text) => Rest::Text(text),
            Err(_) => Rest::Bytes(bytes),
        }
    }

    pub fn bytes(self) -> &'a [u8]
        ensures { result.now ≡ bytes_in self.entry }
    {
        match self {
            Rest::Bytes(bytes) => bytes,
            Rest::Text(text) => text.as_bytes(),
        }
    }

    /// The first line, and what stands behind it.
    #[inline(always)]
    pub fn next_line(self) -> Option<(Rest<'a>, Rest<'a>)>
        ensures lines { IfSome result (λ parts. lines_of (bytes_in self.entry)
            ≡ bytes_in parts.0 ∷ lines_of (bytes_in parts.1)) }
        ensures shorter { IfSome result (λ parts. length (bytes_in parts.1)
            < length (bytes_in self.entry)) }
        ensures none { IfNone result (bytes_in self.entry ≡ []) }
    {
        match self {
            Rest::Bytes([]) => None,
            Rest::Bytes(bytes) => {
                let (line, after) = next_line(bytes);
                Some((Rest::Bytes(line), Rest::Bytes(after)))
            }
            Rest::Text(text) => {
                if text.is_empty() {
                    return None;
                }
                let (line, after) = next_text(text);
                Some((Rest::Text(line), Rest::Text(after)))
            }
        }
    }
}

/// The first line of a text, and what stands behind it.
#[inline(always)]
fn next_text(text: &str) -> (&str, &str)
    requires { 0 < length text.now }
    ensures lines { lines_of text.now ≡ result.0.now ∷ lines_of result.1.now }
    ensures shorter { length result.1.now < length text.now }
{
    if let Some(end) = newline_near(text.as_bytes()) {
        return cut(text, end);
    }
    far_text(text)
}

/// The same, where the line may be long.
fn far_text(text: &str) -> (&str, &str)
    requires { 0 < length text.now }
    ensures lines { lines_of text.now ≡ result.0.now ∷ lines_of result.1.now }
    ensures shorter { length result.1.now < length text.now }
{
    match ended_line(text.as_bytes()) {
        Some((line, _)) => cut(text, line.len()),
        None => (text, ""),
    }
}

/// What stands before a newline and behind it.
#[inline(always)]
fn cut(text: &str, end: usize) -> (&str, &str)
    requires within { end < length text.now }
    requires newline { slice_index text.now end ≡ 10 }
    ensures line { result.0.now ≡ take end text.now }
    ensures rest { result.1.now ≡ drop (end + 1) text.now }
{
    (&text[..end], &text[end + 1..])
}
