ghost use Rattle.std.specs.Prelude.{◌≡◌, ◌==◌, ◌||◌, map, drop, None, IfSome, IfNone};
ghost use Rattle.std.specs.Str.{IsCharBoundary};
ghost use Rattle.cal_line.specs.Spans.{IsSpan, text_at};
ghost use Rattle.cal_line.specs.Steps.{EndsAtMark, before};
ghost use Rattle.cal_line.specs.Tokens.{character, tokens_of};

use crate::spans::Span;

/// The piece that begins at `start`, up to the next mark or the end of the line.
pub(crate) fn scan_piece(line: &str, start: usize) -> Option<Span>
    requires { IsCharBoundary line.now start }
    ensures span { IfSome result (λ span. IsSpan line.now span) }
    ensures start { IfSome result (λ span. span.start ≡ start) }
    ensures stop { IfSome result (λ span. EndsAtMark line.now span.end) }
    ensures read { IfSome result (λ span. tokens_of (drop start line.now)
        ≡ before (map character (text_at line.now span)) (tokens_of (drop span.end line.now))) }
    ensures lone { IfNone result (tokens_of (drop start line.now) ≡ None) }
{
    let bytes = line.as_bytes();
    let mut place = start;
    let mut has_escape = false;
    while place < bytes.len() && !is_mark(bytes[place]) {
        if bytes[place] == b'\\' {
            if place + 1 == bytes.len() {
                return None;
            }
            has_escape = true;
            place += 2;
        } else {
            place += 1;
        }
    }
    Some(Span {
        start,
        end: place,
        has_escape,
    })
}

fn is_mark(byte: u8) -> bool
    ensures { result ≡ (byte == 44 || byte == 61) }
{
    byte == b',' || byte == b'='
}
