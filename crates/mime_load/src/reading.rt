//! Texts, and how many members a list has.

ghost use Rattle.std.specs.Prelude.{◌≡◌, ◌*◌, ◌+◌, ◌^◌, ◌≤◌, ◌<◌, [], ◌∷◌, ℕ, List, length, IfErr, IfOk, OnErr};
ghost use Rattle.mime_base.specs.Cache.Bytes.{Stands};
ghost use Rattle.mime_base.specs.Format.Records.{CardsAt, TextAt};
ghost use Rattle.mime_load.specs.Taking.{OnlyLooks};

use crate::source::Source;
use crate::taking::Taking;
use crate::unread::Unread;

/// The `N` numbers of the record at `at`.
pub fn read_numbers<const N: usize>(
    source: &Source<'_, '_>,
    at: u64,
    taking: &mut Taking,
) -> Result<[u32; N], Unread>
    // No record has more than ten.
    requires most { N ≤ 10 }
    // The numbers stand there.
    ensures stand { IfOk result (λ numbers. CardsAt (Stands source.now.counted.now) at numbers) }
    // Or it does not lie in the cache.
    ensures fault { OnErr result (length source.now.counted.now < at + 4 * N) }
    // One record is visited, and no room is taken.
    ensures looks { OnlyLooks 1 0 taking.old taking.new }
{
    let numbers = source.counted.record::<N>(at, &mut taking.meter)?;
    Ok(numbers)
}

/// The text at `at`.
pub fn read_text<'a>(
    source: &Source<'_, 'a>,
    at: u32,
    taking: &mut Taking,
) -> Result<&'a [u8], Unread>
    // This text stands there.
    ensures stands { IfOk result (λ text. TextAt (Stands source.now.counted.now) at text.now) }
    // A text that stands is read.
    ensures need { (text : List ℕ) → TextAt (Stands source.now.counted.now) at text → IfErr result (λ e. e ≡ Unread.OutOfMemory) }
    // One text is read, and no room is taken.
    ensures looks { OnlyLooks 0 1 taking.old taking.new }
{
    let text = source.counted.text_at(u64::from(at), &mut taking.meter)?;
    Ok(text)
}

/// How many records of `size` bytes the list at `at` has, where all of them lie in the cache.
pub fn read_count(
    source: &Source<'_, '_>,
    at: u64,
    size: u64,
    taking: &mut Taking,
) -> Result<u32, Unread>
    // The list's offset is a number of 32 bits.
    requires at { at < 2 ^ 32 }
    // A record has five numbers at most.
    requires size { size ≤ 20 }
    // The count stands there.
    ensures count { IfOk result (λ count. CardsAt (Stands source.now.counted.now) at (count ∷ [])) }
    // The records lie in the cache.
    ensures inside { IfOk result (λ count. at + 4 + size * count ≤ length source.now.counted.now) }
    // The count of records that lie in the cache is read.
    ensures need { (count : ℕ) → CardsAt (Stands source.now.counted.now) at (count ∷ []) →
        at + 4 + size * count ≤ length source.now.counted.now → IfErr result (λ e. e ≡ Unread.OutOfMemory) }
    // One record is visited, and no room is taken.
    ensures looks { OnlyLooks 1 0 taking.old taking.new }
{
    let numbers = read_numbers::<1>(source, at, taking)?;
    let [count] = numbers;
    if source.counted.length() < at + 4 + size * u64::from(count) {
        return Err(Unread::NotSpelled);
    }
    Ok(count)
}
