//! Whether a name has capitals, by windows of sixteen bytes or of eight.
//!
//! Every name is asked, so this is most of what a short lookup does with a name before it is sought. The last window
//! ends with the name, and may lie over the one before it: so only names of up to seven bytes are looked at one by one.

ghost use Rattle.std.specs.Prelude.{◌≡◌, ◌≤◌, ◌||◌, ◌-◌, length, take, drop};
ghost use Rattle.mime_view.specs.NameHits.{has_capitals};

use std::simd::prelude::*;

/// Whether one of `A` to `Z` is among the bytes.
pub fn has_capitals(name: &[u8]) -> bool
    // Whether there is a capital.
    ensures { result ≡ has_capitals name.now }
{
    match name.len() {
        0..=7 => name.iter().any(|byte| b'A' <= *byte && *byte <= b'Z'),
        8..=15 => capital_in_eight(name) || capital_in_eight(&name[name.len() - 8..]),
        _ => capital_in_windows(name) || capital_in_sixteen(&name[name.len() - 16..]),
    }
}

/// Whether one is in the windows of sixteen that stand one after another before the last sixteen bytes.
#[inline]
fn capital_in_windows(name: &[u8]) -> bool
    requires { 16 ≤ length name.now }
    ensures { has_capitals name.now ≡ (result || has_capitals (drop (length name.now - 16) name.now)) }
{
    let mut start = 0;
    while start < name.len() - 16 {
        if capital_in_sixteen(&name[start..]) {
            return true;
        }
        start += 16;
    }
    false
}

/// Whether one is among the first sixteen bytes.
#[inline]
fn capital_in_sixteen(name: &[u8]) -> bool
    requires { 16 ≤ length name.now }
    ensures { result ≡ has_capitals (take 16 name.now) }
{
    let front = u8x16::from_slice(name);
    let capitals = front.simd_ge(u8x16::splat(b'A')) & front.simd_le(u8x16::splat(b'Z'));
    capitals.to_bitmask() != 0
}

/// Whether one is among the first eight bytes.
#[inline]
fn capital_in_eight(name: &[u8]) -> bool
    requires { 8 ≤ length name.now }
    ensures { result ≡ has_capitals (take 8 name.now) }
{
    let front = u8x8::from_slice(name);
    let capitals = front.simd_ge(u8x8::splat(b'A')) & front.simd_le(u8x8::splat(b'Z'));
    capitals.to_bitmask() != 0
}
