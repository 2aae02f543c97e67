//! A line of a cache without its children.

ghost use Rattle.std.specs.Prelude.{◌≡◌, ◌⊎◌, ℕ, ◌<◌, ◌≤◌, ◌+◌, length, true, IfErr, IfOk, OnErr};
ghost use Rattle.mime_base.specs.Cache.Bytes.{Stands};
ghost use Rattle.mime_base.specs.Format.Magic.{MaskAt};
ghost use Rattle.mime_base.specs.Magic.{PlainLine, fits_mask, fits_word};
ghost use Rattle.mime_load.specs.Lent.{lent_mask};
ghost use Rattle.mime_load.specs.MagicStanding.{LineStands, OwnStands, is_spellable};
ghost use Rattle.mime_load.specs.Taking.{PaysWide};

use crate::source::Source;
use crate::taking::{Taking, take_numbers, take_value_bytes};
use crate::unread::Unread;
use mime_base::Meter;

/// How many bytes the record of a line has.
const LINE: u64 = 32;

/// A line of a cache without its children.
#[derive(Debug, Drop)]
pub struct Own<'a> {
    pub start: u32,
    pub range: u32,
    pub word: u32,
    pub value: &'a [u8],
    pub mask: Option<&'a [u8]>,
    /// How many children it has.
    pub count: u32,
    /// Where the first of them stands.
    pub first: u32,
}

/// The line at `at`, which takes its record and its value's bytes.
pub fn own_at<'a>(source: &Source<'_, 'a>, at: u64, taking: &mut Taking) -> Result<Own<'a>, Unread>
    // It stands there.
    ensures stands { IfOk result (OwnStands source.now.counted.now at) }
    // So much was taken.
    ensures taken { IfOk result (λ own. (taking.new.records + 32 ≡ taking.old.records)
        × (taking.new.value_bytes + length own.value.now ≡ taking.old.value_bytes)) }
    // Of a line that stands, and with room for it, only memory can be short.
    ensures need { (own : PlainLine) (count first : ℕ) → LineStands source.now.counted.now at own count first →
        32 ≤ taking.old.records → length own.value ≤ taking.old.value_bytes → IfErr result (λ e. e ≡ Unread.OutOfMemory) }
    // What was looked at was taken, and each record with sixteen bytes at least.
    ensures wide { PaysWide 0 taking.old taking.new }
{
    let [start, range, word, size, value, mask, count, first] = take_numbers::<8>(
        source, at, LINE, taking,
    )?;
    if !is_spellable(start, range, word, size) {
        return Err(Unread::NotSpelled);
    }
    take_value_bytes(size, taking)?;
    let value = value_at(source, value, size, &mut taking.meter)?;
    let mask = mask_at(source, mask, size, &mut taking.meter)?;
    Ok(Own {
        start,
        range,
        word,
        value,
        mask,
        count,
        first,
    })
}

/// The value of `size` bytes at `at`.
fn value_at<'a>(
    source: &Source<'_, 'a>,
    at: u32,
    size: u32,
    meter: &mut Meter,
) -> Result<&'a [u8], Unread>
    ensures stands { IfOk result (λ value. Stands source.now.counted.now at value.now) }
    ensures size { IfOk result (λ value. length value.now ≡ size) }
    ensures nodes { meter.new.nodes ≡ meter.old.nodes }
    ensures bytes { meter.new.bytes ≤ meter.old.bytes + size }
    ensures fault { OnErr result (length source.now.counted.now < at + size) }
{
    let bytes = source.counted.value(u64::from(at), u64::from(size), meter)?;
    Ok(bytes)
}

/// The mask of `size` bytes at `at`, where the offset 0 is no mask.
fn mask_at<'a>(
    source: &Source<'_, 'a>,
    at: u32,
    size: u32,
    meter: &mut Meter,
) -> Result<Option<&'a [u8]>, Unread>
    ensures stands { IfOk result (λ mask. MaskAt (Stands source.now.counted.now) at (lent_mask mask)) }
    ensures size { IfOk result (λ mask. fits_mask (lent_mask mask) size ≡ true) }
    ensures nodes { meter.new.nodes ≡ meter.old.nodes }
    ensures bytes { meter.new.bytes ≤ meter.old.bytes + size }
    ensures fault { OnErr result ((0 < at) × (length source.now.counted.now < at + size)) }
{
    if at == 0 {
        return Ok(None);
    }
    let mask = value_at(source, at, size, meter)?;
    Ok(Some(mask))
}

/// Whether magic can spell a line of these numbers.
fn is_spellable(start: u32, range: u32, word: u32, size: u32) -> bool
    ensures { result ≡ is_spellable start range word size }
{
    u64::from(start) + u64::from(range) + u64::from(size) < 4_294_967_296
        && size < 65_536
        && fits_word(word, size)
}

/// Whether a value of that many bytes has numbers of `word` bytes.
fn fits_word(word: u32, size: u32) -> bool
    ensures { result ≡ fits_word word size }
{
    word == 1 || (word == 2 && size % 2 == 0) || (word == 4 && size % 4 == 0)
}
