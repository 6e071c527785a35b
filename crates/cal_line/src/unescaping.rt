ghost use Rattle.std.specs.Prelude.{◌≡◌, ℕ, List, ◌++◌, None, Some, IfOk, IsErrOf, OnOk, OnErr};
ghost use Rattle.cal_line.specs.Tokens.{Spells, spelled_text};
ghost use Rattle.cal_line.specs.Spans.{text_of};

use crate::FieldEnd;
use cal_value::{OutOfMemory, Text};
use memchr::memchr;
use std::alloc::Global;

/// The text that these bytes spell by themselves.
pub fn unescape(alloc: Global, text: &str) -> Result<Text, FieldEnd>
    // It is the one text that is spelled.
    ensures found { IfOk result (λ spelled. Spells text.now spelled) }
    ensures only { IfOk result (λ spelled. (other : List ℕ)
        → Spells text.now other → other ≡ spelled) }
    // Nothing is spelled exactly where a backslash takes nothing, which only the last one can.
    ensures none { IsErrOf result FieldEnd.BadField → (other : List ℕ) → ¬ Spells text.now other }
    // The same as a function of the bytes.
    ensures computed { IfOk result (λ spelled. spelled_text text.now ≡ Some spelled) }
    ensures refused { IsErrOf result FieldEnd.BadField → spelled_text text.now ≡ None }
{
    let mut spelled = Text::new(alloc);
    append_spelled(text, &mut spelled)?;
    Ok(spelled)
}

/// Appends the text of a piece. An `Err` leaves `out`.
pub(crate) fn append_text(written: &str, out: &mut Text) -> Result<(), OutOfMemory>
    ensures ok { OnOk result (out.new ≡ out.old ++ text_of written.now) }
    ensures err { OnErr result (out.new ≡ out.old) }
{
    let before = out.as_str().len();
    let result = append_spelled(written, out);
    if result.is_err() {
        out.truncate(before);
        return Err(OutOfMemory);
    }
    Ok(())
}

/// Appends the text that these bytes spell by themselves. An `Err` may leave a front behind `out`.
fn append_spelled(written: &str, out: &mut Text) -> Result<(), FieldEnd>
    ensures spelled { OnOk result (spelled_text written.now ≡ Some (text_of written.now)) }
    ensures appended { OnOk result (out.new ≡ out.old ++ text_of written.now) }
    ensures front { (front : List ℕ) × (out.new ≡ out.old ++ front) }
    ensures bad { IsErrOf result FieldEnd.BadField → spelled_text written.now ≡ None }
{
    let bytes = written.as_bytes();
    let mut run = 0;
    let mut place = 0;
    while place < bytes.len() {
        if bytes[place] != b'\\' {
            place += 1;
            continue;
        }
        if place + 1 == bytes.len() {
            return Err(FieldEnd::BadField);
        }
        out.push_str(&written[run..place])?;
        run = place + 1;
        if bytes[run] == b'n' {
            out.push('\n')?;
            run = place + 2;
        }
        place += 2;
    }
    out.push_str(&written[run..])?;
    Ok(())
}
