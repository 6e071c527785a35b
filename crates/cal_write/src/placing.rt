ghost use Rattle.std.specs.Prelude.{◌≡◌, ◌+◌, ◌≤◌, false, [], ◌∷◌, ◌++◌, length, take};
ghost use Rattle.std.specs.Prelude.{codes, decimal, IsTrue, OnOk};
ghost use Rattle.cal_line.specs.Escapes.{escaped, escaped_byte};

use cal_value::OutOfMemory;
use itoa::Buffer;

// how much room is made beyond what is wanted
const MORE: usize = 1024;

/// Makes room behind the first `used` bytes, and leaves these.
#[inline(always)]
pub(crate) fn make_room(bytes: &mut Vec<u8>, used: usize, wanted: usize) -> Result<(), OutOfMemory>
    requires { used ≤ length bytes.old.items }
    ensures within { used ≤ length bytes.new.items }
    ensures front { take used bytes.new.items ≡ take used bytes.old.items }
    ensures room { OnOk result (used + wanted ≤ length bytes.new.items) }
{
    if bytes.len() - used >= wanted {
        return Ok(());
    }
    widen(bytes, used, wanted)
}

#[cold]
#[inline(never)]
fn widen(bytes: &mut Vec<u8>, used: usize, wanted: usize) -> Result<(), OutOfMemory>
    requires { used ≤ length bytes.old.items }
    ensures within { used ≤ length bytes.new.items }
    ensures front { take used bytes.new.items ≡ take used bytes.old.items }
    ensures room { OnOk result (used + wanted ≤ length bytes.new.items) }
{
    let Some(least) = used.checked_add(wanted) else {
        return Err(OutOfMemory);
    };
    bytes.resize(least.saturating_add(MORE), 0)?;
    Ok(())
}

/// Puts a text at a place.
#[inline(always)]
pub(crate) fn put_bytes(bytes: &mut [u8], at: usize, text: &[u8])
    requires { at + length text.now ≤ length bytes.old }
    ensures within { at + length text.now ≤ length bytes.new }
    ensures written { take (at + length text.now) bytes.new ≡ take at bytes.old ++ text.now }
{
    bytes[at..at + text.len()].copy_from_slice(text);
}

/// Puts a text at a place where it holds nothing to escape. Otherwise all before the place stays.
#[inline(always)]
pub(crate) fn put_plain(bytes: &mut [u8], at: usize, text: &[u8]) -> bool
    requires { at + length text.now ≤ length bytes.old }
    ensures within { at + length text.now ≤ length bytes.new }
    ensures front { take at bytes.new ≡ take at bytes.old }
    ensures written { IsTrue result
        → take (at + length text.now) bytes.new ≡ take at bytes.old ++ text.now }
    ensures plain { IsTrue result → escaped text.now ≡ text.now }
{
    for place in 0..text.len() {
        let byte = text[place];
        if is_escaped(byte) {
            return false;
        }
        bytes[at + place] = byte;
    }
    true
}

/// Whether a byte isn't written as it is.
#[inline(always)]
fn is_escaped(byte: u8) -> bool
    ensures { result ≡ false → escaped_byte byte ≡ byte ∷ [] }
{
    byte == b'\n' || byte == b'\\' || byte == b',' || byte == b'='
}

/// Puts an `=` and a number at a place, and gives the place behind them.
#[inline(always)]
pub(crate) fn put_equals(bytes: &mut [u8], at: usize, number: u32) -> usize
    requires { at + 11 ≤ length bytes.old }
    ensures within { result ≤ length bytes.new }
    ensures written { take result bytes.new ≡ take at bytes.old ++ codes "=" ++ decimal number }
{
    bytes[at] = b'=';
    let mut digits = Buffer::new();
    let text = digits.format(number).as_bytes();
    put_bytes(bytes, at + 1, text);
    at + 1 + text.len()
}
