//! The head of a line of magic, by which most lines are refused without a look at them.
//!
//! A head has four bytes of a line's value: the two that it begins with, and a later pair, where all bits of them
//! count. A line holds for no content in which they stand together at none of its offsets. Where no such bytes are
//! known, the head refuses only a content that is too short for the value, and the line is tried on all others.

ghost use Rattle.std.specs.Prelude.{◌≡◌, ◌+◌, ◌<◌, ℕ, List, Option, length, slice_index, true};
ghost use Rattle.mime_base.specs.Magic.{line_from};
ghost use Rattle.mime_load.specs.Lent.{lent_mask};
ghost use Rattle.mime_lookup.specs.Heads.{IsHead, KeepsBytes};

/// Four bytes of a line's value, two pairs that stand side by side: a window in which another byte stands at one of
/// their places differs from the value.
#[derive(Clone, Copy, Debug)]
pub struct LineHead {
    /// The first offset that is tried; of a line that is to be tried, the least length of a content.
    pub start: u32,
    /// How many offsets are tried.
    pub range: u32,
    /// How many bytes the value has; 0 where the line is to be tried on each content that is long enough.
    pub size: u16,
    /// Where in the value the later pair begins. A value that ends before its second byte has no pairs.
    pub skip: u8,
    /// The first byte of the value.
    pub first: u8,
    /// The second byte.
    pub second: u8,
    /// The first byte of the later pair.
    pub third: u8,
    /// The second byte of the later pair.
    pub fourth: u8,
}

/// The longest value of which a head tells the size.
const LONGEST: usize = 65_535;

/// The later pair of a value begins before this place of it.
const NEAR: usize = 16;

impl LineHead {
    /// The least length of a content that it doesn't refuse for its length.
    pub fn least_length(&self) -> usize
        // It is where the first window ends.
        ensures { result ≡ self.now.start + self.now.size }
    {
        self.start as usize + usize::from(self.size)
    }
}

/// A head that refuses nothing.
pub const UNKNOWN: LineHead = LineHead {
    start: 0,
    range: 0,
    size: 0,
    skip: 0,
    first: 0,
    second: 0,
    third: 0,
    fourth: 0,
};

/// The head of a line of these parts.
// Always inlined, with what most lines have, so that their parts are not moved.
#[inline(always)]
pub fn head_of(start: u32, range: u32, word: u32, value: &[u8], mask: Option<&[u8]>) -> LineHead
    // A content that it refuses has no window that equals the value.
    ensures { IsHead result (line_from start range word value.now (lent_mask mask.entry)) }
{
    let skip = later_pair(range, value, mask);
    if keeps_bytes(mask, skip) {
        return head_from(start, range, word, value, skip);
    }
    tried(start, value)
}

/// Where the later pair of a line's value begins: under a mask with its first byte.
#[inline(always)]
fn later_pair(range: u32, value: &[u8], mask: Option<&[u8]>) -> u8 {
    if mask.is_some() || value.len() < 4 {
        return 0;
    }
    if range == 1 {
        return 2;
    }
    rarest_pair(value)
}

/// The last pair of a value, from its third byte on and near its front, that has the fewest common bytes.
// Not inlined: few lines ask for it, and it would take the registers of the others' loop.
#[inline(never)]
fn rarest_pair(value: &[u8]) -> u8 {
    let last = value.len().saturating_sub(1).min(NEAR);
    // The place of the uncommon byte that was met last, or 0.
    let mut met = 0;
    let mut rarest = last.saturating_sub(1);
    let mut place = last + 1;
    while place > 2 {
        place -= 1;
        if is_common(value[place]) {
            continue;
        }
        if met == place + 1 {
            return place as u8;
        }
        if met == 0 {
            rarest = rarest.min(place);
        }
        met = place;
    }
    rarest as u8
}

/// Whether a byte is one of those that most contents have many of: small letters, spaces and zeros.
fn is_common(byte: u8) -> bool {
    matches!(byte, b'a'..=b'z' | b' ' | 0)
}

/// Whether all bits of a value's first two bytes count, and of its later pair.
fn keeps_bytes(mask: Option<&[u8]>, skip: u8) -> bool
    ensures { result ≡ true → KeepsBytes (lent_mask mask.entry) skip }
{
    match mask {
        Some(mask) => skip == 0 && mask.len() > 1 && mask[0] == 255 && mask[1] == 255,
        None => true,
    }
}

/// The head of a line of which all bits of these bytes count.
fn head_from(start: u32, range: u32, word: u32, value: &[u8], skip: u8) -> LineHead
    ensures { (mask : Option (List ℕ)) → KeepsBytes mask skip
        → IsHead result (line_from start range word value.now mask) }
{
    if word != 1 || value.is_empty() || value.len() > LONGEST {
        return tried(start, value);
    }
    let later = usize::from(skip);
    LineHead {
        start,
        range,
        size: value.len() as u16,
        skip,
        first: value[0],
        second: byte_at(value, 1),
        third: byte_at(value, later),
        fourth: byte_at(value, later + 1),
    }
}

/// The head of a line that is to be tried on each content that is long enough.
fn tried(start: u32, value: &[u8]) -> LineHead
    ensures { (range word : ℕ) (mask : Option (List ℕ)) → IsHead result (line_from start range word value.now mask) }
{
    let size = value.len().min(LONGEST) as u32;
    LineHead {
        start: start.saturating_add(size),
        ..UNKNOWN
    }
}

/// The byte at a place of a value, or 0 past its end.
fn byte_at(value: &[u8], place: usize) -> u8
    ensures { place < length value.now → result ≡ slice_index value.now place }
{
    if place < value.len() { value[place] } else { 0 }
}
