ghost use Rattle.std.specs.Prelude.{◌≡◌, ◌<◌, ℕ, List, [], ◌∷◌, ◌++◌, OnOk, OnErr, MatchOption};
ghost use Rattle.cal_line.specs.Escapes.{escaped, escaped_byte};

use cal_value::{OutOfMemory, Text};

/// Appends the text as it is written in a stream. An `Err` leaves `out`.
pub fn escape(text: &str, out: &mut Text) -> Result<(), OutOfMemory>
    ensures ok { OnOk result (out.new ≡ out.old ++ escaped text.now) }
    ensures err { OnErr result (out.new ≡ out.old) }
{
    let before = out.as_str().len();
    let result = append_escaped(text, out);
    if result.is_err() {
        out.truncate(before);
    }
    result
}

/// The same, but an `Err` may leave a front of what was to be written behind `out`.
fn append_escaped(text: &str, out: &mut Text) -> Result<(), OutOfMemory>
    ensures ok { OnOk result (out.new ≡ out.old ++ escaped text.now) }
    ensures err { OnErr result ((front : List ℕ) × (out.new ≡ out.old ++ front)) }
{
    let bytes = text.as_bytes();
    let mut run = 0;
    for place in 0..bytes.len() {
        if let Some(escape) = escape_of(bytes[place]) {
            out.push_str(&text[run..place])?;
            out.push_str(escape)?;
            run = place + 1;
        }
    }
    out.push_str(&text[run..])
}

/// How a byte is written that isn't written as it is.
fn escape_of(byte: u8) -> Option<&'static str>
    ensures { MatchOption result (escaped_byte byte ≡ byte ∷ [])
        (λ escape. (escape.now ≡ escaped_byte byte) × (byte < 128)) }
{
    match byte {
        b'\n' => Some("\\n"),
        b'\\' => Some("\\\\"),
        b',' => Some("\\,"),
        b'=' => Some("\\="),
        _ => None,
    }
}
