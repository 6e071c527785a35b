ghost use Rattle.std.specs.Prelude.{◌≡◌, false, [], ◌∷◌, IfOk, IsTrue};
ghost use Rattle.cal_tabfmt.specs.Grid.{on_line, width as width_of};

use crate::shape::width;
use cal_value::{OutOfMemory, Text};
use std::alloc::Global;

/// A text as a line shows it: a newline is a backslash and `n`.
pub(crate) fn on_line(alloc: Global, text: &str) -> Result<Text, OutOfMemory>
    ensures { IfOk result (λ shown. shown ≡ on_line text.now) }
{
    let bytes = text.as_bytes();
    let mut out = Text::new(alloc);
    let mut run = 0;
    for place in 0..bytes.len() {
        if bytes[place] == b'\n' {
            out.push_str(&text[run..place])?;
            out.push_str("\\n")?;
            run = place + 1;
        }
    }
    out.push_str(&text[run..])?;
    Ok(out)
}

/// How wide a text is as a line shows it.
pub fn shown_width(alloc: Global, text: &Text) -> Result<usize, OutOfMemory>
    ensures { IfOk result (λ width. width ≡ width_of (on_line text.now)) }
{
    if is_one_line(text.as_str()) {
        return Ok(width(text.as_str()));
    }
    Ok(width(on_line(alloc, text.as_str())?.as_str()))
}

/// Whether a line shows a text as it is. It goes on behind a newline, since it is quicker so.
pub(crate) fn is_one_line(text: &str) -> bool
    ensures { IsTrue result → on_line text.now ≡ text.now }
{
    let mut plain = true;
    for byte in text.as_bytes() {
        if is_newline(*byte) {
            plain = false;
        }
    }
    plain
}

fn is_newline(byte: u8) -> bool
    ensures { result ≡ false → on_line (byte ∷ []) ≡ byte ∷ [] }
{
    byte == b'\n'
}
