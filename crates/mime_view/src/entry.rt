//! The entry of a key in a sorted list of two offsets an entry.

ghost use Rattle.std.specs.Prelude.{◌≡◌, ℕ, ◌*◌, ◌^◌, ◌≤◌, ◌<◌, List, length, option_map, IsOkAnd, MatchResult};
ghost use Rattle.mime_view.specs.Lists.{IsFound, IsKeysFault, ReadsKeys, place_of};
ghost use Rattle.mime_view.specs.Spending.{Looks};

use crate::fault::CacheFault;
use crate::list::count_at;
use crate::search::seek;
use mime_base::{Counted, Meter};

/// An entry of a list.
#[derive(Clone, Copy)]
pub struct NamedEntry {
    /// Which of the list's entries it is, counted from 0.
    pub place: u32,
    /// Its second number.
    pub target: u32,
}

/// The first entry whose text is the key, in the list at `at`.
// Inlined, so that the entry is not built and taken apart again.
#[inline(always)]
pub fn find_entry(
    counted: &Counted<'_>,
    at: u64,
    key: &[u8],
    meter: &mut Meter,
) -> Result<Option<NamedEntry>, CacheFault>
    // The list's offset is a number of 32 bits.
    requires at { at < 2 ^ 32 }
    // No offset needs more than 32 bits.
    requires limit { length counted.now ≤ 2 ^ 28 }
    // In a sorted list that stands it finds the first entry of the key, or that there is none.
    ensures answer { (keys : List (List ℕ)) → ReadsKeys counted.now at keys →
        IsOkAnd result (λ found. option_map (λ entry. entry.place) found ≡ place_of keys key.now) }
    // On any bytes what it finds is an entry of the key, or the list or a key that it names does not stand.
    ensures found { MatchResult result (IsFound counted.now at key.now) (IsKeysFault counted.now at) }
    // It looks at the list's count, at most 26 texts, and the entry that it finds.
    ensures cost { Looks 28 (256 * 27) meter.old meter.new }
{
    let count = count_at(counted, at, 8, meter)?;
    let first = at + 4;
    let mut counts = *meter;
    let sought = seek(counted, first, count, 8, key, &mut counts);
    *meter = counts;
    let sought = sought?;
    if sought.equal {
        let [_, target] = counted.cards_within::<2>(first + 8 * sought.place, meter);
        return Ok(Some(NamedEntry {
            place: sought.place as u32,
            target,
        }));
    }
    Ok(None)
}
