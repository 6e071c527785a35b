ghost use Rattle.std.specs.Prelude.{◌≡◌, ◌∷◌, ◌++◌, ◌<◌, length, IfSome, IfNone};
ghost use Rattle.cal_line.specs.Lines.{lines_of, HasNoNewline};

use memchr::memchr;

/// The first line, where a newline ends it, and what stands behind that newline.
pub fn ended_line(bytes: &[u8]) -> Option<(&[u8], &[u8])>
    ensures parts { IfSome result (λ parts. bytes.now ≡ parts.0.now ++ 10 ∷ parts.1.now) }
    ensures line { IfSome result (λ parts. HasNoNewline parts.0.now) }
    ensures none { IfNone result (HasNoNewline bytes.now) }
{
    let end = memchr(b'\n', bytes)?;
    Some((&bytes[..end], &bytes[end + 1..]))
}

/// The first line of an input, and what stands behind it.
pub fn next_line(bytes: &[u8]) -> (&[u8], &[u8])
    requires { 0 < length bytes.now }
    ensures lines { lines_of bytes.now ≡ result.0.now ∷ lines_of result.1.now }
    ensures shorter { length result.1.now < length bytes.now }
{
    match ended_line(bytes) {
        Some((line, rest)) => (line, rest),
        None => (bytes, &[]),
    }
}
