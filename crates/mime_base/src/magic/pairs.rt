//! Two bytes that stand side by side, sought with a count of the first.
//!
//! Of most values that are sought in a range already the first byte is rare, and of the others the first two. So places are
//! looked at 32 at once: one comparison for the first byte and, only where it is there, one for the second at the place after.

ghost use Rattle.std.specs.Prelude.{◌≡◌, ◌+◌, ◌-◌, ◌<◌, ◌≤◌, ◌==◌, ℕ, length, map, take, drop, IfSome, IsNone};
ghost use Rattle.std.specs.List.{count_by};
ghost use Rattle.std.specs.Simd.Lanes.{mask_l};
ghost use Rattle.mime_base.specs.Magic.Pairs.{PassesPairs, StopsAtPair};

use std::simd::prelude::*;

/// How many places are looked at at once.
const LANES: usize = 32;

/// So few places are looked at one by one sooner: most ranges are a place longer than whole blocks.
const FEW: usize = 4;

/// Places that were skipped: at none of them do both bytes stand.
#[derive(Clone, Copy)]
pub struct Passed {
    /// How many they are.
    pub length: usize,
    /// At how many of them the first byte stands.
    pub firsts: usize,
}

/// The places before the first of `count` at which `first` stands and `second` after it.
#[inline]
pub fn pass_pairs(first: u8, second: u8, bytes: &[u8], count: usize) -> Passed
    // The last place has a byte after it.
    requires { count < length bytes.now }
    // Both bytes stand at none of them.
    ensures passed { PassesPairs first second bytes.now result.length result.firsts }
    // They are among the places.
    ensures limit { result.length ≤ count }
    // Where they are fewer than `count`, both stand at the next place.
    ensures stops { StopsAtPair first second bytes.now count result.length }
{
    let blocks = pass_blocks(first, second, bytes, count);
    let rest = pass_rest(
        first,
        second,
        &bytes[blocks.length..],
        count - blocks.length,
    );
    Passed {
        length: blocks.length + rest.length,
        firsts: blocks.firsts + rest.firsts,
    }
}

/// The places of whole blocks, up to one in which both bytes stand at a place.
#[inline]
fn pass_blocks(first: u8, second: u8, bytes: &[u8], count: usize) -> Passed
    requires { count < length bytes.now }
    ensures passed { PassesPairs first second bytes.now result.length result.firsts }
    ensures limit { result.length ≤ count }
    // A whole block that is left cannot be passed, since both stand at a place of it.
    ensures stops { result.length + 32 ≤ count → (firsts : ℕ) → PassesPairs first second (drop result.length bytes.now) 32 firsts → ⊥ }
{
    let (mut length, mut firsts) = (0, 0);
    while LANES <= count - length {
        match firsts_of_block(first, second, &bytes[length..]) {
            Some(more) => {
                length += LANES;
                firsts += more;
            }
            None => return Passed { length, firsts },
        }
    }
    Passed { length, firsts }
}

/// At how many places of a block the first byte stands, if both stand at none of them.
#[inline]
fn firsts_of_block(first: u8, second: u8, bytes: &[u8]) -> Option<usize>
    requires { 32 < length bytes.now }
    ensures some { IfSome result (λ firsts. PassesPairs first second bytes.now 32 firsts) }
    // Else they cannot be passed, since both stand at one of them.
    ensures none { IsNone result → (firsts : ℕ) → PassesPairs first second bytes.now 32 firsts → ⊥ }
{
    let firsts = places_of(first, bytes);
    if firsts == 0 {
        return Some(0);
    }
    if firsts & places_of(second, &bytes[1..]) != 0 {
        return None;
    }
    Some(firsts.count_ones() as usize)
}

/// Up to 32 places, up to one at which both bytes stand, or places near the end of the bytes.
#[inline]
fn pass_rest(first: u8, second: u8, bytes: &[u8], count: usize) -> Passed
    requires { count < length bytes.now }
    ensures passed { PassesPairs first second bytes.now result.length result.firsts }
    ensures limit { result.length ≤ count }
    // Before place 32 it stops only where both stand.
    ensures stops { result.length < 32 → StopsAtPair first second bytes.now count result.length }
{
    if count < FEW || bytes.len() <= LANES {
        return pass_one_by_one(first, second, bytes, count);
    }
    pass_lanes(first, second, bytes, count.min(LANES))
}

/// The places before the first of up to 32 at which both bytes stand.
#[inline]
fn pass_lanes(first: u8, second: u8, bytes: &[u8], count: usize) -> Passed
    requires block { 32 < length bytes.now }
    requires few { count ≤ 32 }
    ensures passed { PassesPairs first second bytes.now result.length result.firsts }
    ensures limit { result.length ≤ count }
    ensures stops { StopsAtPair first second bytes.now count result.length }
{
    let firsts = places_of(first, bytes);
    let pairs = firsts & places_of(second, &bytes[1..]);
    let length = count.min(pairs.trailing_zeros() as usize);
    let before = firsts & ((1 << length) - 1);
    Passed {
        length,
        firsts: before.count_ones() as usize,
    }
}

/// At which of the first 32 places a byte stands: bit by bit, the first lowest.
#[inline(always)]
fn places_of(byte: u8, bytes: &[u8]) -> u64
    requires { 32 ≤ length bytes.now }
    ensures { result ≡ mask_l (map (λ b. b == byte) (take 32 bytes.now)) }
{
    u8x32::from_slice(bytes)
        .simd_eq(u8x32::splat(byte))
        .to_bitmask()
}

/// The same places one by one, where the bytes are no block.
#[inline]
fn pass_one_by_one(first: u8, second: u8, bytes: &[u8], count: usize) -> Passed
    requires { count < length bytes.now }
    ensures passed { PassesPairs first second bytes.now result.length result.firsts }
    ensures limit { result.length ≤ count }
    ensures stops { StopsAtPair first second bytes.now count result.length }
{
    let mut firsts = 0;
    for length in 0..count {
        if bytes[length] == first {
            if bytes[length + 1] == second {
                return Passed { length, firsts };
            }
            firsts += 1;
        }
    }
    Passed {
        length: count,
        firsts,
    }
}
