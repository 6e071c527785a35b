ghost use Rattle.std.specs.Prelude.{◌≡◌, ◌<◌, ◌≤◌, length, map, max, IfOk, IsTrue};
ghost use Rattle.std.specs.Fmt.{is_char_start};
ghost use Rattle.cal_tabfmt.specs.Grid.{nth_text, shapes, widest, width};

use cal_value::{OutOfMemory, Seq, Text};
use std::alloc::Global;

/// A column of lines: its width in characters, and whether its texts stand at its right end.
#[derive(Clone, Copy, Debug)]
pub struct Shape {
    pub width: usize,
    pub right: bool,
}

/// The columns of these lines, by whether each is right-aligned.
pub fn shapes(
    alloc: Global,
    rights: &[bool],
    lines: &[Seq<Text>],
) -> Result<Vec<Shape>, OutOfMemory>
    ensures { IfOk result (λ made. made.items ≡ shapes lines.now 0 rights.now) }
{
    let mut made = Vec::new(alloc);
    for (place, right) in rights.iter().enumerate() {
        made.push(Shape {
            width: widest_at(lines, place),
            right: *right,
        })?;
    }
    Ok(made)
}

/// The width of the widest text of a column.
fn widest_at(lines: &[Seq<Text>], place: usize) -> usize
    ensures { result ≡ widest (map (λ line. nth_text line place) lines.now) }
{
    let mut most = 0;
    for line in lines {
        most = wider(most, width_at(line, place));
    }
    most
}

/// The width of a line's text in a column, 0 where there is none.
fn width_at(line: &Seq<Text>, place: usize) -> usize
    ensures { result ≡ width (nth_text line.now place) }
{
    match line.get(place) {
        Some(text) => width(text.as_str()),
        None => 0,
    }
}

/// The greater of two widths.
pub(crate) fn wider(width: usize, other: usize) -> usize
    ensures { result ≡ max width other }
{
    width.max(other)
}

/// How many characters a text has.
pub(crate) fn width(text: &str) -> usize
    ensures { result ≡ width text.now }
{
    if is_ascii(text) {
        return text.len();
    }
    let bytes = text.as_bytes();
    bytes.iter().filter(|b| is_char_start(**b)).count()
}

/// Whether each byte is a character. It goes on behind one that isn't, since it is quicker so.
fn is_ascii(text: &str) -> bool
    ensures { IsTrue result → width text.now ≡ length text.now }
{
    let mut ascii = true;
    for byte in text.as_bytes() {
        if *byte >= 0x80 {
            ascii = false;
        }
    }
    ascii
}

fn is_char_start(byte: u8) -> bool
    ensures { result ≡ is_char_start byte }
{
    byte < 0x80 || byte >= 0xC0
}
