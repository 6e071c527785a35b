//! A plain loop over the bytes of lines, to measure their splitting by.
ghost use Rattle.std.specs.Prelude.{◌≡◌, length, IfOk};

use cal_line::FieldEnd;
use cal_value::OutOfMemory;
use std::alloc::Global;

/// What was seen of lines: how many, their pieces, and the bytes of these.
#[derive(Clone, Copy, Debug, PartialEq, Eq)]
pub struct Tally {
    pub lines: usize,
    pub pieces: usize,
    pub bytes: usize,
}

pub const NOTHING: Tally = Tally {
    lines: 0,
    pieces: 0,
    bytes: 0,
};

/// Where a piece stands in its line.
#[derive(Clone, Copy, Debug)]
struct Plain {
    start: usize,
    end: usize,
    has_escape: bool,
}

fn push_plain(pieces: &mut Vec<Plain>, piece: Plain) -> Result<(), OutOfMemory> {
    pieces.push(piece)?;
    Ok(())
}

/// The pieces of a line as a plain loop finds them; no answer where the line is refused.
fn plain_pieces(line: &[u8], pieces: &mut Vec<Plain>) -> Result<bool, OutOfMemory> {
    pieces.clear();
    let mut in_key = true;
    let mut has_escape = false;
    let mut start = 0;
    let mut place = 0;
    while place < line.len() {
        let byte = line[place];
        if byte == b',' || byte == b'=' {
            if in_key && (byte == b',' || place == start) {
                return Ok(false);
            }
            push_plain(
                pieces,
                Plain {
                    start,
                    end: place,
                    has_escape,
                },
            )?;
            in_key = byte == b',';
            has_escape = false;
            start = place + 1;
        } else if byte == b'\\' {
            has_escape = true;
            place += 1;
        }
        place += 1;
    }
    push_plain(
        pieces,
        Plain {
            start,
            end: place,
            has_escape,
        },
    )?;
    Ok(!in_key && place == line.len())
}

fn plain_text(alloc: Global, bytes: &[u8]) -> Result<Vec<u8>, OutOfMemory> {
    let mut text = Vec::new(alloc);
    let mut taken = false;
    for byte in bytes {
        if *byte == b'\\' && !taken {
            taken = true;
        } else {
            text.push(if taken && *byte == b'n' { b'\n' } else { *byte })?;
            taken = false;
        }
    }
    Ok(text)
}

fn plain_line(
    alloc: Global,
    pieces: &mut Vec<Plain>,
    line: &[u8],
    tally: &mut Tally,
) -> Result<(), FieldEnd>
    ensures { tally.new.lines ≡ tally.old.lines }
{
    if !plain_pieces(line, pieces)? {
        return Err(FieldEnd::BadField);
    }
    for piece in pieces.as_slice() {
        let Some(written) = line.get(piece.start..piece.end) else {
            return Err(FieldEnd::BadField);
        };
        let length = if piece.has_escape {
            plain_text(alloc, written)?.len()
        } else {
            written.len()
        };
        tally.bytes = tally.bytes.wrapping_add(length);
    }
    tally.pieces = tally.pieces.wrapping_add(pieces.len());
    Ok(())
}

/// What a plain loop over their bytes sees of lines.
pub fn plain_all(alloc: Global, lines: &[&str]) -> Result<Tally, FieldEnd>
    ensures { IfOk result (λ tally. tally.lines ≡ length lines.now) }
{
    let mut pieces = Vec::new(alloc);
    let mut tally = NOTHING;
    for line in lines {
        plain_line(alloc, &mut pieces, line.as_bytes(), &mut tally)?;
        tally.lines += 1;
    }
    Ok(tally)
}
