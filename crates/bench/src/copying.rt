//! Plain copies of a text, to measure the writing of records by.
ghost use Rattle.std.specs.Prelude.{◌≡◌, IfOk};
ghost use Rattle.bench.specs.Copies.{with_escapes};

use cal_value::OutOfMemory;
use std::alloc::Global;

const BUFFER: usize = 65_536;

/// A copy of a text with a backslash before each backslash, byte by byte.
pub fn by_bytes(alloc: Global, text: &str) -> Result<Vec<u8>, OutOfMemory>
    ensures { IfOk result (λ copied. copied.items ≡ with_escapes text.now) }
{
    let bytes = text.as_bytes();
    let mut out = Vec::new(alloc);
    for byte in bytes {
        if *byte == b'\\' {
            out.push(b'\\')?;
        }
        out.push(*byte)?;
    }
    Ok(out)
}

/// The same through a buffer that is emptied where it is full, as if it were written on. It answers
/// how many bytes went through.
pub fn through_a_buffer(alloc: Global, text: &str) -> Result<usize, OutOfMemory> {
    let mut buffer = Vec::with_capacity(alloc, BUFFER)?;
    let through = copy_through(text, &mut buffer);
    drop(buffer);
    through
}

fn copy_through(text: &str, buffer: &mut Vec<u8>) -> Result<usize, OutOfMemory> {
    let mut through = 0usize;
    for byte in text.as_bytes() {
        if buffer.len() >= BUFFER - 1 {
            through = through.wrapping_add(buffer.len());
            buffer.clear();
        }
        if *byte == b'\\' {
            buffer.push(b'\\')?;
        }
        buffer.push(*byte)?;
    }
    Ok(through.wrapping_add(buffer.len()))
}
