ghost use Rattle.std.specs.Prelude.{◌≡◌, ◌≤◌, ◌==◌, length, not, IfSome};
ghost use Rattle.std.specs.List.{prefix_len};
ghost use Rattle.std.specs.Simd.Lanes.{chunk};
ghost use Rattle.cal_script.specs.Rests.{IsFirstNewline};

use std::simd::prelude::*;

/// The place of the first newline, where it is one of the first 32 bytes, and there are so many.
/// Most lines of a script are shorter.
#[inline(always)]
pub(crate) fn newline_near(bytes: &[u8]) -> Option<usize>
    ensures { IfSome result (λ place. IsFirstNewline bytes.now place) }
{
    if bytes.len() < 32 {
        return None;
    }
    let place = before_newline(bytes);
    if place >= 32 {
        return None;
    }
    Some(place)
}

/// How many of the first 32 bytes stand before the first newline among them.
#[inline(always)]
fn before_newline(bytes: &[u8]) -> usize
    requires { 32 ≤ length bytes.now }
    ensures { result ≡ prefix_len (λ byte. not (byte == 10)) (chunk 0 32 bytes.now) }
{
    let found = u8x32::from_slice(bytes)
        .simd_eq(u8x32::splat(b'\n'))
        .to_bitmask();
    if found == 0 {
        32
    } else {
        found.trailing_zeros() as usize
    }
}
