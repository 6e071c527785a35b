ghost use Rattle.std.specs.Prelude.{◌≡◌, false, [], ◌∷◌, ◌++◌, IsTrue, OnOk};
ghost use Rattle.cal_line.specs.Escapes.{escaped, escaped_byte};

use cal_line::escape;
use cal_value::{OutOfMemory, Text};

/// Appends a text as it is written in a stream. Most texts are written as they are, and copied.
pub(crate) fn append_written(text: &str, out: &mut Text) -> Result<(), OutOfMemory>
    ensures { OnOk result (out.new ≡ out.old ++ escaped text.now) }
{
    if is_plain(text) {
        return out.push_str(text);
    }
    escape(text, out)
}

/// Whether a text is written as it is. It goes on behind a byte that isn't, and asks for each such
/// byte by itself, since many bytes are tested at once so.
fn is_plain(text: &str) -> bool
    ensures { IsTrue result → escaped text.now ≡ text.now }
{
    let mut newline = false;
    let mut backslash = false;
    let mut comma = false;
    let mut equals = false;
    for byte in text.as_bytes() {
        newline |= *byte == b'\n';
        backslash |= *byte == b'\\';
        comma |= *byte == b',';
        equals |= *byte == b'=';
    }
    !newline && !backslash && !comma && !equals
}
