//! The bytes of a cache, read by counted calls alone.
//!
//! A record of a cache is a row of CARD32s: 32-bit numbers, the highest byte first. A text ends in a
//! zero byte. Both are the public specification's ("The mime.cache files"); the limit on texts, the
//! counts and the faults are this project's own.

pub mod byte_fault;
pub mod byte_laws;
pub mod comparing;
pub mod key;
pub mod standing;
pub mod stated_value;

ghost use Rattle.std.specs.Prelude.{◌≡◌, true, false, ℕ, ◌+◌, ◌*◌, ◌<◌, ◌≤◌, List, length, slice_index, take, drop, min, Ok, Err};
ghost use Rattle.std.specs.Prelude.{if◌then◌else◌, IfOk, IfErr, IfSome, IsOkAnd, OnOk, OnErr, MatchOption};
ghost use Rattle.std.specs.Prelude.{MatchResult};
ghost use Rattle.std.specs.Ordering.{nat_cmp};
ghost use Rattle.std.specs.Cmp.Lexicographic.{slice_cmp};
ghost use Rattle.mime_base.specs.Cache.Bytes.{both_lie, fields, lies, optional_mask, value_at};
ghost use Rattle.mime_base.specs.Magic.Holds.{equals_from};
ghost use Rattle.mime_base.specs.Magic.Masking.{equal_bytes, window_equals};
ghost use Rattle.mime_base.specs.Magic.Ranges.{compared_from, compared_stated, stated_line, window_fits};
ghost use Rattle.mime_base.specs.Meter.{CountsBytes, raised};
ghost use Rattle.mime_base.specs.Cache.Texts.{Compares, before_zero, text_at, text_cost, unended};

use crate::cache::byte_fault::ByteFault;
use crate::cache::comparing::{compare_all, early_stop, order_at_stop};
use crate::cache::key::Key;
use crate::cache::stated_value::StatedValue;
use crate::magic::content::NotedContent;
use crate::magic::host::Host;
use crate::magic::masking::equal_bytes;
use crate::magic::ranges::{value_in_range, windows_differing};
use crate::meter::Meter;
use byteorder::{BigEndian, ByteOrder};
use memchr::memchr;
use std::cmp::Ordering;
use std::marker::Model;
use std::simd::prelude::*;

/// The most bytes that a cache has: nobody writes or opens a larger one. This project's own.
pub const LARGEST_CACHE: usize = 268_435_456;

/// The most bytes that a text has, its zero included.
const TEXT_LIMIT: usize = 256;

/// A cache's bytes. Nothing but these calls looks at them, and each adds to a meter what it visited
/// or compared.
///
/// ```
/// let cache = Counted::new(b"\0\x01\0\x02abc\0");
/// let mut meter = Meter::new();
/// assert_eq!(rt; cache.cards::<1>(0, &mut meter), Ok([0x0001_0002]));
/// assert_eq!(rt; cache.text_at(4, &mut meter), Ok(b"abc" as &[u8]));
/// assert_eq!(rt; meter, Meter { nodes: 1, bytes: 4 });
/// ```
///
/// An offset may be any number: what does not lie in the cache is a fault. What is given out
/// borrows from the cache, not from the `Counted`. No call allocates.
#[derive(Drop)]
pub struct Counted<'a> {
    bytes: &'a [u8],
}

impl<'a> Model for Counted<'a> {
    ghost use Rattle.std.specs.Prelude.{ℕ, List};

    ghost Value = { List ℕ };

    ghost view = { λ counted. counted.bytes.now };
}

impl<'a> Counted<'a> {
    /// A cache of these bytes.
    pub fn new(bytes: &'a [u8]) -> Counted<'a>
        // The cache has just these bytes.
        ensures { result ≡ bytes.now }
    {
        Counted { bytes }
    }

    /// The same cache once more, for what keeps one of its own.
    #[inline]
    pub fn again(&self) -> Counted<'a>
        // It has just these bytes.
        ensures { result ≡ self.now }
    {
        Counted { bytes: self.bytes }
    }

    /// How many bytes the cache has. It adds nothing.
    #[inline]
    pub fn length(&self) -> u64
        // It is exactly how many bytes there are.
        ensures { result ≡ length self.now }
    {
        self.bytes.len() as u64
    }

    /// The `N` CARD32s of the record at `at`, or [`ByteFault::OutOfRange`] where it does not lie in
    /// the cache. It adds one node, also before a fault.
    #[inline]
    pub fn cards<const N: usize>(&self, at: u64, meter: &mut Meter) -> Result<[u32; N], ByteFault>
        // At most ten numbers are read at once.
        requires { N ≤ 10 }
        // An answer means that the record lies in the cache; it gives the record's big-endian numbers in their order.
        ensures numbers { IfOk result
            (λ numbers. (at + 4 * N ≤ length self.now) × (numbers ≡ fields self.now at N)) }
        // A fault means that the record goes past the end of the cache; it names the offset that was asked for.
        ensures fault { IfErr result
            (λ fault. (length self.now < at + 4 * N) × (fault ≡ ByteFault.OutOfRange at)) }
        // One record is counted, also before a fault.
        ensures nodes { meter.new.nodes ≡ raised meter.old.nodes 1 }
        // The count of records never falls, since it stops at the greatest number.
        ensures rises { meter.old.nodes ≤ meter.new.nodes }
        // No byte is counted.
        ensures bytes { meter.new.bytes ≡ meter.old.bytes }
    {
        let length = self.length();
        if length < at || length - at < 4 * N as u64 {
            meter.add_node();
            return Err(ByteFault::OutOfRange(at));
        }
        Ok(self.cards_within(at, meter))
    }

    /// The same of a record that is known to lie in the cache.
    #[inline]
    pub fn cards_within<const N: usize>(&self, at: u64, meter: &mut Meter) -> [u32; N]
        // At most ten numbers are read at once.
        requires most { N ≤ 10 }
        // The caller knows that the record lies in the cache.
        requires inside { at + 4 * N ≤ length self.now }
        // It can't fail, and gives the record's big-endian numbers in their order.
        ensures numbers { result ≡ fields self.now at N }
        // One record is counted.
        ensures nodes { meter.new.nodes ≡ raised meter.old.nodes 1 }
        // The count of records never falls, since it stops at the greatest number.
        ensures rises { meter.old.nodes ≤ meter.new.nodes }
        // No byte is counted.
        ensures bytes { meter.new.bytes ≡ meter.old.bytes }
    {
        meter.add_node();
        let start = at as usize;
        let mut numbers = [0; N];
        BigEndian::read_u32_into(&self.bytes[start..start + 4 * N], &mut numbers);
        numbers
    }

    /// The byte at `at`, or [`ByteFault::OutOfRange`] where the cache ends before it. It adds one byte, also
    /// before a fault.
    #[inline]
    pub fn byte_at(&self, at: u64, meter: &mut Meter) -> Result<u8, ByteFault>
        // An answer means that the byte lies in the cache, and is that byte.
        ensures byte { IfOk result (λ byte. (at < length self.now) × (byte ≡ slice_index self.now at)) }
        // A fault means that the cache ends before it; it names the offset that was asked for.
        ensures fault { IfErr result (λ fault. (length self.now ≤ at) × (fault ≡ ByteFault.OutOfRange at)) }
        // No record is counted.
        ensures nodes { meter.new.nodes ≡ meter.old.nodes }
        // One byte is counted, also before a fault.
        ensures bytes { meter.new.bytes ≡ raised meter.old.bytes 1 }
        // The count of bytes never falls, since it stops at the greatest number.
        ensures rises { meter.old.bytes ≤ meter.new.bytes }
    {
        meter.add_bytes(1);
        if self.length() <= at {
            return Err(ByteFault::OutOfRange(at));
        }
        Ok(self.bytes[at as usize])
    }

    /// The text at `at`, without its zero.
    ///
    /// [`ByteFault::LongText`] where 256 bytes hold no zero, [`ByteFault::OutOfRange`] where the cache
    /// ends before that. It adds the bytes that it read, at most 256.
    #[tactic(auto, unfolding(crate::specs::Cache::Texts::text_at, crate::specs::Cache::Texts::text_cost))]
    pub fn text_at(&self, at: u64, meter: &mut Meter) -> Result<&'a [u8], ByteFault>
        // It ends at the first zero among 256 bytes; else it is `LongText`, or `OutOfRange` where fewer lie there.
        ensures text { MatchResult result
            (λ text. text_at self.now at ≡ Ok text.now) (λ fault. text_at self.now at ≡ Err fault) }
        // No record is counted.
        ensures nodes { meter.new.nodes ≡ meter.old.nodes }
        // It counts the text and its zero; before a fault, the bytes that lie there.
        ensures bytes { meter.new.bytes ≡ raised meter.old.bytes (text_cost self.now at) }
        // It counts at most 256 bytes.
        ensures limit { text_cost self.now at ≤ 256 }
        // The count of bytes never falls, since it stops at the greatest number.
        ensures rises { meter.old.bytes ≤ meter.new.bytes }
    {
        if self.length() <= at {
            return Err(ByteFault::OutOfRange(at));
        }
        let rest = &self.bytes[at as usize..];
        if let Some(end) = early_zero(rest) {
            meter.add_bytes(end as u64 + 1);
            return Ok(&rest[..end]);
        }
        let front = front_of(rest);
        match first_zero(front) {
            Some(end) => {
                meter.add_bytes(end as u64 + 1);
                Ok(&front[..end])
            }
            None => {
                meter.add_bytes(front.len() as u64);
                Err(unended(front, at))
            }
        }
    }

    /// How the text at `at` compares with a key, byte by byte.
    ///
    /// The faults are those of [`Counted::text_at`], where neither a zero nor a difference comes
    /// first. It adds the text's bytes up to and including the first difference or the zero, at most 256.
    #[tactic(auto, unfolding(crate::specs::Cache::Texts::text_at, crate::specs::Cache::Texts::order_at, crate::specs::Cache::Texts::order_cost))]
    #[inline(always)]
    pub fn compare_text(
        &self,
        at: u64,
        key: &[u8],
        meter: &mut Meter,
    ) -> Result<Ordering, ByteFault>
        // It is the order, or why there is none, and the bytes that decide are counted.
        ensures { Compares self.now at key.now meter.old meter.new result }
    {
        if self.length() <= at {
            meter.add_bytes(0);
            return Err(ByteFault::OutOfRange(at));
        }
        let rest = &self.bytes[at as usize..];
        if let Some(place) = early_stop(rest, key) {
            return order_at_stop(rest, key, place, meter);
        }
        let front = front_of(rest);
        let (order, count) = compare_all(front, key);
        meter.add_bytes(count as u64);
        match order {
            Some(order) => Ok(order),
            None => Err(unended(front, at)),
        }
    }

    /// The same of a key that many texts are compared with.
    // Always inlined: the body of a search.
    #[tactic(auto, unfolding(crate::specs::Cache::Texts::text_at, crate::specs::Cache::Texts::order_at, crate::specs::Cache::Texts::order_cost))]
    #[inline(always)]
    pub fn compare_key(
        &self,
        at: u64,
        key: &Key<'_>,
        meter: &mut Meter,
    ) -> Result<Ordering, ByteFault>
        // It is the order, or why there is none, and the bytes that decide are counted.
        ensures { Compares self.now at key.now meter.old meter.new result }
    {
        if at < self.length() {
            let rest = &self.bytes[at as usize..];
            if let Some(place) = key.early_stop(rest) {
                return key.order_at(rest, place, meter);
            }
        }
        self.compare_text(at, key.bytes(), meter)
    }

    /// Whether the window equals the value of `size` bytes at `at`, both under the mask at `mask_at`.
    ///
    /// A mask's offset of 0 is no mask. `size` and `word` are as [`Counted::cards`] gives them. On a
    /// little-endian host each group of `word` bytes of value and mask is reversed first, if `word` is
    /// 2 or 4 and divides `size`. A value of no bytes needs no place; of any other, first the value and
    /// then the mask is needed whole. It adds the window's bytes up to and including the first that
    /// differs, else all; before a fault nothing.
    pub fn value_equals(
        &self,
        at: u64,
        mask_at: u64,
        size: u32,
        word: u32,
        window: &[u8],
        host: Host,
        meter: &mut Meter,
    ) -> Result<bool, ByteFault>
        // The window has as many bytes as the value.
        requires { size ≡ length window.now }
        // An answer means that value and mask lie in the cache, and says whether the window equals the value.
        ensures equal { IfOk result (λ equal. (both_lie self.now at mask_at size ≡ true)
            × (equal ≡ window_equals (value_at self.now at size)
            (optional_mask self.now mask_at size) word host window.now)) }
        // A fault names the value's offset where the value isn't in the cache, and the mask's where only that isn't.
        ensures fault { IfErr result (λ fault. (both_lie self.now at mask_at size ≡ false)
            × (fault ≡ ByteFault.OutOfRange (if lies self.now at size then mask_at else at))) }
        // With an answer it counts the window's bytes up to and including the first that differs, else all; before a fault none.
        ensures counts { CountsBytes (if both_lie self.now at mask_at size
            then min (equal_bytes (value_at self.now at size) (optional_mask self.now mask_at size) word host window.now + 1) size
            else 0) meter.old meter.new }
        // It counts at most as many bytes as the value has.
        ensures limit { meter.new.bytes ≤ meter.old.bytes + size }
    {
        if window.is_empty() {
            return Ok(true);
        }
        let value = bytes_at(self.bytes, at, u64::from(size))?;
        let mask = optional_mask(self.bytes, mask_at, u64::from(size))?;
        let equal = equal_bytes(value, mask, word, host, window);
        meter.add_bytes((equal as u64 + 1).min(u64::from(size)));
        Ok(equal == window.len())
    }

    /// Whether already the first byte of each window differs: most lines are refused so.
    ///
    /// It says so only of a value without a mask and of one byte a word, whose first window lies in the content and itself in the
    /// cache, and then it adds what [`Counted::value_in_range`] does. Else it says and adds nothing.
    // A few tests of numbers that the caller has at hand.
    #[inline(always)]
    pub fn differs_at_once(
        &self,
        value: StatedValue,
        start: u32,
        range: u32,
        content: &NotedContent<'_>,
        meter: &mut Meter,
    ) -> bool
        // What differs at once lies in the cache with its mask.
        ensures lies { result ≡ true → both_lie self.now value.at value.mask_at value.size ≡ true }
        // No window of the range equals it.
        ensures differs { result ≡ true → (host : Host) →
            false ≡ equals_from (stated_line self.now value start range) host content.now start range }
        // For each window tried it counts the bytes compared, including the first mismatch.
        ensures counts { result ≡ true → (host : Host) →
            CountsBytes (compared_from (stated_line self.now value start range) host content.now start range) meter.old meter.new }
        // That is at most one byte more than the content has, for each byte of the value.
        ensures limit { meter.new.bytes ≤ meter.old.bytes + (length content.now + 1) * value.size }
        // Of anything else nothing is counted.
        ensures untouched { result ≡ false → meter.new ≡ meter.old }
    {
        let StatedValue {
            at,
            mask_at,
            size,
            word,
        } = value;
        let (start, size) = (start as usize, u64::from(size));
        if mask_at != 0 || word != 1 || size == 0 {
            return false;
        }
        if (content.bytes().len() as u64) < start as u64 + size {
            return false;
        }
        let Ok(bytes) = bytes_at(self.bytes, u64::from(at), size) else {
            return false;
        };
        let windows = windows_differing(bytes, content, start, range as usize);
        if windows == 0 {
            return false;
        }
        meter.add_bytes(windows as u64);
        true
    }

    /// Whether the window at one of `range` offsets of the content from `start` on equals a value.
    ///
    /// The numbers are as [`Counted::cards`] gives them. It answers, refuses and adds what
    /// [`Counted::value_equals`] does of each window that lies in the content, up to and including the first
    /// that equals: where none lies there, no value is needed and nothing added.
    #[inline(always)]
    pub fn value_in_range(
        &self,
        value: StatedValue,
        start: u32,
        range: u32,
        content: &[u8],
        host: Host,
        meter: &mut Meter,
    ) -> Result<bool, ByteFault>
        // Where value and mask lie in the cache, it says whether some window of the range equals the value.
        ensures equal { both_lie self.now value.at value.mask_at value.size ≡ true → IsOkAnd result (λ equal.
            equal ≡ equals_from (stated_line self.now value start range) host content.now start range) }
        // Where no window of the range lies in the content, it is `false`, and neither value nor mask is needed.
        ensures outside { window_fits value.size start range content.now ≡ false → result ≡ Ok false }
        // Where some window does, an answer means that value and mask lie in the cache.
        ensures needs { window_fits value.size start range content.now ≡ true →
            OnOk result (both_lie self.now value.at value.mask_at value.size ≡ true) }
        // A fault names the value's offset where the value isn't in the cache, and the mask's where only that isn't.
        ensures fault { IfErr result (λ fault. (both_lie self.now value.at value.mask_at value.size ≡ false)
            × (fault ≡ ByteFault.OutOfRange (if lies self.now value.at value.size then value.mask_at else value.at))) }
        // For each window tried it counts the bytes compared, including the first mismatch; none where value or mask isn't in the cache.
        ensures counts { CountsBytes (compared_stated self.now value start range host content.now) meter.old meter.new }
        // It counts at most one byte more than the content has, for each byte of the value.
        ensures limit { meter.new.bytes ≤ meter.old.bytes + (length content.now + 1) * value.size }
    {
        let StatedValue {
            at,
            mask_at,
            size,
            word,
        } = value;
        let (start, range, size) = (start as usize, range as usize, u64::from(size));
        if range == 0 || (content.len() as u64) < start as u64 + size {
            return Ok(false);
        }
        if size == 0 {
            return Ok(true);
        }
        let bytes = bytes_at(self.bytes, u64::from(at), size)?;
        let mask = optional_mask(self.bytes, u64::from(mask_at), size)?;
        Ok(value_in_range(bytes, mask, word, host, content, start, range, meter))
    }
}

/// That many bytes at an offset.
#[inline]
fn bytes_at(bytes: &[u8], at: u64, size: u64) -> Result<&[u8], ByteFault>
    ensures given { IfOk result
        (λ given. (at + size ≤ length bytes.now) × (given.now ≡ value_at bytes.now at size)) }
    ensures fault { IfErr result
        (λ fault. (length bytes.now < at + size) × (fault ≡ ByteFault.OutOfRange at)) }
{
    let length = bytes.len() as u64;
    if length < at || length - at < size {
        return Err(ByteFault::OutOfRange(at));
    }
    Ok(&bytes[at as usize..(at + size) as usize])
}

/// A mask of that many bytes at an offset; at the offset 0 there is none.
#[inline]
fn optional_mask(bytes: &[u8], at: u64, size: u64) -> Result<&[u8], ByteFault>
    ensures given { IfOk result (λ given. given.now ≡ optional_mask bytes.now at size) }
    ensures lies { OnOk result (0 < at → at + size ≤ length bytes.now) }
    ensures fault { IfErr result
        (λ fault. (0 < at) × (length bytes.now < at + size) × (fault ≡ ByteFault.OutOfRange at)) }
{
    if at == 0 {
        return Ok(&[]);
    }
    let mask = bytes_at(bytes, at, size)?;
    Ok(mask)
}

/// Those of the bytes from an offset on among which a text has its zero.
#[inline]
fn front_of(rest: &[u8]) -> &[u8]
    ensures front { result.now ≡ take 256 rest.now }
    ensures limit { length result.now ≤ 256 }
{
    &rest[..TEXT_LIMIT.min(rest.len())]
}

/// Where the first zero of the bytes stands, if it is one of the first 32: most texts end so early.
#[inline]
fn early_zero(bytes: &[u8]) -> Option<usize>
    ensures { IfSome result (λ end. (end < length bytes.now) × (end < length (take 256 bytes.now))
        × (before_zero (take 256 bytes.now) ≡ take end bytes.now)) }
{
    if bytes.len() < 32 {
        return None;
    }
    let end = zero_of_sixteen(bytes);
    if end < 16 {
        return Some(end);
    }
    let end = zero_of_sixteen(&bytes[16..]);
    if end < 16 { Some(16 + end) } else { None }
}

/// Where the first zero of the first sixteen bytes stands. Where none does, it is 16 or more.
#[inline]
fn zero_of_sixteen(bytes: &[u8]) -> usize
    requires { 16 ≤ length bytes.now }
    ensures { min 16 result ≡ length (before_zero (take 16 bytes.now)) }
{
    let zeros = u8x16::from_slice(bytes).simd_eq(u8x16::splat(0));
    zeros.to_bitmask().trailing_zeros() as usize
}

/// Where the first zero of the bytes stands.
fn first_zero(bytes: &[u8]) -> Option<usize>
    ensures { MatchOption result (before_zero bytes.now ≡ bytes.now)
        (λ end. (end < length bytes.now) × (before_zero bytes.now ≡ take end bytes.now)) }
{
    memchr(0, bytes)
}

/// Why these bytes, which have no zero, are no text.
fn unended(front: &[u8], at: u64) -> ByteFault
    ensures { result ≡ unended 256 at front.now }
{
    if front.len() == TEXT_LIMIT {
        ByteFault::LongText(at)
    } else {
        ByteFault::OutOfRange(at)
    }
}
