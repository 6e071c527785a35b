ghost use Rattle.std.specs.Prelude.{◌≡◌, ◌+◌, ◌<◌, ◌∷◌, ◌++◌, drop, length, slice_index, take};
ghost use Rattle.std.specs.Prelude.{IfSome, IfNone};
ghost use Rattle.cal_line.specs.Lines.{HasNoNewline};
ghost use Rattle.cal_read.specs.Lines.{bytes_in};

use cal_line::ended_line;

/// Bytes of an input. Where they are known to be a text, so are the lines in them.
#[derive(Clone, Copy, Debug)]
pub(crate) enum Line<'a> {
    Bytes(&'a [u8]),
    Text(&'a str),
}

impl<'a> Line<'a> {
    /// Tests at once whether bytes are a text.
    pub(crate) fn of(bytes: &'a [u8]) -> Line<'a>
        ensures { bytes_in result ≡ bytes.now }
    {
        match std::str::from_utf8(bytes) {
            Ok(text) => Line::Text(text),
            Err(_) => Line::Bytes(bytes),
        }
    }

    pub(crate) fn bytes(self) -> &'a [u8]
        ensures { result.now ≡ bytes_in self.entry }
    {
        match self {
            Line::Bytes(bytes) => bytes,
            Line::Text(text) => text.as_bytes(),
        }
    }

    /// The first line, where a newline ends it, and what stands behind that newline.
    pub(crate) fn ended(self) -> Option<(Line<'a>, Line<'a>)>
        ensures parts { IfSome result (λ parts.
            bytes_in self.entry ≡ bytes_in parts.0 ++ 10 ∷ bytes_in parts.1) }
        ensures line { IfSome result (λ parts. HasNoNewline (bytes_in parts.0)) }
        ensures none { IfNone result (HasNoNewline (bytes_in self.entry)) }
    {
        match self {
            Line::Bytes(bytes) => {
                let (line, rest) = ended_line(bytes)?;
                Some((Line::Bytes(line), Line::Bytes(rest)))
            }
            Line::Text(text) => {
                let (line, rest) = ended_text(text)?;
                Some((Line::Text(line), Line::Text(rest)))
            }
        }
    }
}

fn ended_text(text: &str) -> Option<(&str, &str)>
    ensures parts { IfSome result (λ parts. text.now ≡ parts.0.now ++ 10 ∷ parts.1.now) }
    ensures line { IfSome result (λ parts. HasNoNewline parts.0.now) }
    ensures none { IfNone result (HasNoNewline text.now) }
{
    match ended_line(text.as_bytes()) {
        Some((line, _)) => Some(cut(text, line.len())),
        None => None,
    }
}

/// What stands before a newline and behind it.
pub(crate) fn cut(text: &str, end: usize) -> (&str, &str)
    requires within { end < length text.now }
    requires newline { slice_index text.now end ≡ 10 }
    ensures line { result.0.now ≡ take end text.now }
    ensures rest { result.1.now ≡ drop (end + 1) text.now }
{
    (&text[..end], &text[end + 1..])
}
