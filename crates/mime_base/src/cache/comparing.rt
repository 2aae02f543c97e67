//! Comparisons of bytes that say how far they looked.

ghost use Rattle.std.specs.Prelude.{◌≡◌, ◌↔◌, ◌+◌, ◌<◌, ◌≤◌, nat_eq, nat_lt, length, take, drop, min};
ghost use Rattle.std.specs.Prelude.{IfSome, Some, None, Ok, if◌then◌else◌, IsTrue};
ghost use Rattle.std.specs.List.{common_prefix_len};
ghost use Rattle.std.specs.Ordering.{nat_cmp};
ghost use Rattle.std.specs.Cmp.Lexicographic.{slice_cmp};
ghost use Rattle.mime_base.specs.Meter.{CountsBytes, raised};
ghost use Rattle.mime_base.specs.Cache.Texts.{before_zero, shared};

use crate::cache::byte_fault::ByteFault;
use crate::meter::Meter;
use std::cmp::Ordering;
use std::simd::prelude::*;

/// Whether two names are equal. It adds the length of their common front and one, so at most 256
/// for names that [`crate::Counted::text_at`] gave.
pub fn same_name(left: &[u8], right: &[u8], meter: &mut Meter) -> bool
    // It is true exactly of two equal names.
    ensures same { IsTrue result ↔ (left.now ≡ right.now) }
    // No record is counted.
    ensures nodes { meter.new.nodes ≡ meter.old.nodes }
    // It counts the bytes of the common front, and one.
    ensures bytes { meter.new.bytes
        ≡ raised meter.old.bytes (common_prefix_len nat_eq left.now right.now + 1) }
    // The common front is no longer than the first name, so at most its length and one are counted.
    ensures limit { common_prefix_len nat_eq left.now right.now ≤ length left.now }
    // The count of bytes never falls, since it stops at the greatest number.
    ensures rises { meter.old.bytes ≤ meter.new.bytes }
{
    let common = common_length(left, right);
    meter.add_bytes(common as u64 + 1);
    common == left.len() && common == right.len()
}

/// How many bytes from the front are equal.
pub fn common_length(left: &[u8], right: &[u8]) -> usize
    // It is the length of the longest common front.
    ensures common { result ≡ common_prefix_len nat_eq left.now right.now }
    // It is no more than the length of the first.
    ensures left { result ≤ length left.now }
    // It is no more than the length of the second.
    ensures right { result ≤ length right.now }
{
    let start = common_by_eight(left, right);
    let room = left.len().min(right.len());
    for i in start..room {
        if left[i] != right[i] {
            return i;
        }
    }
    room
}

/// The same, eight bytes at a time: fewer where the last bytes are no eight.
fn common_by_eight(left: &[u8], right: &[u8]) -> usize
    ensures common { result + common_prefix_len nat_eq (drop result left.now) (drop result right.now)
        ≡ common_prefix_len nat_eq left.now right.now }
    ensures left { result ≤ length left.now }
    ensures right { result ≤ length right.now }
{
    let room = left.len().min(right.len());
    let mut start = 0;
    while 8 <= room - start {
        let common = common_of_eight(&left[start..], &right[start..]);
        start += common;
        if common < 8 {
            return start;
        }
    }
    start
}

/// How many of the first eight bytes are equal, from the front.
#[inline]
fn common_of_eight(left: &[u8], right: &[u8]) -> usize
    requires left { 8 ≤ length left.now }
    requires right { 8 ≤ length right.now }
    ensures common { result ≡ common_prefix_len nat_eq (take 8 left.now) (take 8 right.now) }
    ensures most { result ≤ 8 }
{
    let differ = u8x8::from_slice(left).simd_ne(u8x8::from_slice(right));
    let places = differ.to_bitmask();
    if places == 0 {
        8
    } else {
        places.trailing_zeros() as usize
    }
}

/// Where the text at the front of these bytes and a key stop to be equal, if their first bytes or sixteen of each
/// decide: at the first byte that differs, or is the text's zero.
#[inline(always)]
pub fn early_stop(rest: &[u8], key: &[u8]) -> Option<usize>
    // There is a byte at the offset.
    requires { 0 < length rest.now }
    // A place that is given is where text and key stop to agree, among the text's first 256 bytes.
    ensures { IfSome result (λ place. (place ≡ shared (take 256 rest.now) key.now)
        × (place < length (take 256 rest.now))) }
{
    if !key.is_empty() && rest[0] != key[0] {
        return Some(0);
    }
    if rest.len() <= 32 {
        return None;
    }
    match key.len() {
        8..=15 => Some(shared_by_eights(rest, key)),
        16..=32 => Some(shared_by_sixteens(rest, key)),
        _ => None,
    }
}

/// How a text compares with a key where `place` of their bytes are equal, and those at it decide. It adds
/// as many bytes, and one.
#[inline(always)]
pub fn order_at_stop(
    rest: &[u8],
    key: &[u8],
    place: usize,
    meter: &mut Meter,
) -> Result<Ordering, ByteFault>
    // The place is where text and key stop to agree.
    requires place { place ≡ shared (take 256 rest.now) key.now }
    // It is the place of a byte.
    requires inside { place < length (take 256 rest.now) }
    // The answer is the order of the text against the key.
    ensures order { result ≡ Ok (slice_cmp nat_cmp (before_zero (take 256 rest.now)) key.now) }
    // It counts the bytes that agree, and the one that stops them.
    ensures counts { CountsBytes (place + 1) meter.old meter.new }
{
    meter.add_bytes(place as u64 + 1);
    let byte = rest[place];
    if place == key.len() {
        return if byte == 0 {
            Ok(Ordering::Equal)
        } else {
            Ok(Ordering::Greater)
        };
    }
    if byte == 0 || byte < key[place] {
        Ok(Ordering::Less)
    } else {
        Ok(Ordering::Greater)
    }
}

/// How many bytes of a text and a key of 16 to 32 bytes are equal: by sixteen at the key's front, and sixteen at
/// its end.
#[inline(always)]
fn shared_by_sixteens(rest: &[u8], key: &[u8]) -> usize
    requires room { 32 < length rest.now }
    requires least { 16 ≤ length key.now }
    requires most { length key.now ≤ 32 }
    ensures shared { result ≡ shared (take 256 rest.now) key.now }
    ensures within { result ≤ length key.now }
{
    let place = shared_of_sixteen(rest, key);
    if place < 16 {
        return place;
    }
    let last = key.len() - 16;
    last + shared_of_sixteen(&rest[last..], &key[last..])
}

/// How many bytes of a text and a key of 8 to 15 bytes are equal: by eight at the key's front, and eight at its end.
#[inline(always)]
fn shared_by_eights(rest: &[u8], key: &[u8]) -> usize
    requires room { 32 < length rest.now }
    requires least { 8 ≤ length key.now }
    requires most { length key.now < 16 }
    ensures shared { result ≡ shared (take 256 rest.now) key.now }
    ensures within { result ≤ length key.now }
{
    let place = shared_of_eight(rest, key);
    if place < 8 {
        return place;
    }
    let last = key.len() - 8;
    last + shared_of_eight(&rest[last..], &key[last..])
}

/// How what stands in the front, up to its first zero, compares with a key, and how many bytes were looked at:
/// none decides, where all of them are equal to the key's and none is zero.
pub fn compare_all(front: &[u8], key: &[u8]) -> (Option<Ordering>, usize)
    // An order is given where some byte of the front stops the agreement, else none.
    ensures order { result.0 ≡ (if nat_lt (shared front.now key.now) (length front.now)
        then Some (slice_cmp nat_cmp (before_zero front.now) key.now) else None) }
    // It says how many bytes were looked at: those that agree and the one that stops them, or all.
    ensures count { result.1 ≡ min (shared front.now key.now + 1) (length front.now) }
{
    let start = shared_by_eight(front, key);
    let room = front.len().min(key.len());
    for i in start..room {
        let byte = front[i];
        if byte == 0 {
            return (Some(Ordering::Less), i + 1);
        }
        if byte != key[i] {
            return (Some(byte.cmp(&key[i])), i + 1);
        }
    }
    if room == front.len() {
        return (None, room);
    }
    if front[room] == 0 {
        (Some(Ordering::Equal), room + 1)
    } else {
        (Some(Ordering::Greater), room + 1)
    }
}

/// How many bytes are equal and none of them zero, sixteen at a time and then eight: fewer where the last are
/// no eight.
#[inline]
fn shared_by_eight(front: &[u8], key: &[u8]) -> usize
    ensures shared { result + shared (drop result front.now) (drop result key.now) ≡ shared front.now key.now }
    ensures order { slice_cmp nat_cmp (before_zero (drop result front.now)) (drop result key.now)
        ≡ slice_cmp nat_cmp (before_zero front.now) key.now }
    ensures front { result ≤ length front.now }
    ensures key { result ≤ length key.now }
{
    let room = front.len().min(key.len());
    let start = shared_by_sixteen(front, key);
    if room - start < 8 || start % 16 != 0 {
        return start;
    }
    start + shared_of_eight(&front[start..], &key[start..])
}

/// The same, sixteen at a time.
#[inline]
fn shared_by_sixteen(front: &[u8], key: &[u8]) -> usize
    ensures shared { result + shared (drop result front.now) (drop result key.now) ≡ shared front.now key.now }
    ensures order { slice_cmp nat_cmp (before_zero (drop result front.now)) (drop result key.now)
        ≡ slice_cmp nat_cmp (before_zero front.now) key.now }
    ensures front { result ≤ length front.now }
    ensures key { result ≤ length key.now }
{
    let room = front.len().min(key.len());
    let mut start = 0;
    while 16 <= room - start {
        let equal = shared_of_sixteen(&front[start..], &key[start..]);
        start += equal;
        if equal < 16 {
            return start;
        }
    }
    start
}

/// How many of the first eight bytes are equal, from the front, and none of them zero.
#[inline]
fn shared_of_eight(front: &[u8], key: &[u8]) -> usize
    requires front { 8 ≤ length front.now }
    requires key { 8 ≤ length key.now }
    ensures shared { result ≡ shared (take 8 front.now) (take 8 key.now) }
    ensures most { result ≤ 8 }
{
    let bytes = u8x8::from_slice(front);
    let stop = bytes.simd_ne(u8x8::from_slice(key)) | bytes.simd_eq(u8x8::splat(0));
    let places = stop.to_bitmask();
    if places == 0 {
        8
    } else {
        places.trailing_zeros() as usize
    }
}

/// How many of the first sixteen bytes are equal, from the front, and none of them zero.
#[inline]
pub fn shared_of_sixteen(front: &[u8], key: &[u8]) -> usize
    // The first has sixteen bytes.
    requires front { 16 ≤ length front.now }
    // The second has sixteen bytes.
    requires key { 16 ≤ length key.now }
    // It is how many are equal before the first difference and before the first zero.
    ensures shared { result ≡ shared (take 16 front.now) (take 16 key.now) }
    // There are sixteen at most.
    ensures most { result ≤ 16 }
{
    let bytes = u8x16::from_slice(front);
    let stop = bytes.simd_ne(u8x16::from_slice(key)) | bytes.simd_eq(u8x16::splat(0));
    let places = stop.to_bitmask();
    if places == 0 {
        16
    } else {
        places.trailing_zeros() as usize
    }
}
