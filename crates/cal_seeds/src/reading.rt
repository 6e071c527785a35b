//! Words out of bytes, and their mixing, as the library's own hasher does it.
ghost use Rattle.std.specs.Hash.FoldHasher.{folded_multiply as folded, read_short as short_of};
ghost use Rattle.std.specs.Hash.FoldHasher.{read_u32 as u32_at, read_u64 as u64_at};
ghost use Rattle.std.specs.Prelude.{◌≡◌, ◌+◌, ◌≤◌, length};

/// Both halves of a product, joined by xor, so that each bit depends on all.
#[inline(always)]
pub(crate) fn folded_multiply(a: u64, b: u64) -> u64
    ensures { result ≡ folded a b }
{
    let product = a as u128 * b as u128;
    (product & 0xFFFF_FFFF_FFFF_FFFF) as u64 ^ (product >> 64) as u64
}

/// The four bytes from a place on, the lowest first.
#[inline(always)]
pub(crate) fn read_u32(bytes: &[u8], at: usize) -> u64
    requires { at + 4 ≤ length bytes.now }
    ensures { result ≡ u32_at bytes.now at }
{
    u32::from_le_bytes([bytes[at], bytes[at + 1], bytes[at + 2], bytes[at + 3]]) as u64
}

/// The eight bytes from a place on, the lowest first.
#[inline(always)]
pub(crate) fn read_u64(bytes: &[u8], at: usize) -> u64
    requires { at + 8 ≤ length bytes.now }
    ensures { result ≡ u64_at bytes.now at }
{
    read_u32(bytes, at) | read_u32(bytes, at + 4) << 32
}

/// At most eight bytes, in one word.
#[inline(always)]
pub(crate) fn read_short(bytes: &[u8]) -> u64
    ensures { result ≡ short_of bytes.now }
{
    let len = bytes.len();
    if len >= 4 {
        read_u32(bytes, 0) | read_u32(bytes, len - 4) << 32
    } else if len > 0 {
        bytes[0] as u64 | (bytes[len / 2] as u64) << 8 | (bytes[len - 1] as u64) << 16
    } else {
        0
    }
}
