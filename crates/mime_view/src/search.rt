//! Search in a sorted list of a cache, by halving.
//!
//! The lists of a cache are sorted by the bytes of their texts, so a key is sought in them as they are: a list has at
//! most 2^25 records, of which halving compares 26 at most. A hash table would have to read every text first. Each comparison
//! counts a node, and the text's bytes up to and including the first difference. The sums are in a copy of the meter,
//! which the caller puts back, so that they stay in registers from text to text.
//!
//! Nobody vouches for the order. Over texts that are not sorted the search ends after as many comparisons, and what it
//! says of the texts beside its place is true; but a key that is in the list may be missed.

ghost use Rattle.std.specs.Prelude.{◌≡◌, ℕ, ◌+◌, ◌*◌, ◌^◌, ◌≤◌, List, length, IsOkAnd, MatchResult};
ghost use Rattle.mime_view.specs.Lists.{AreSorted, IsNamedFault, IsSought, KeysAt, SplitsAt};
ghost use Rattle.mime_view.specs.Spending.{Looks};

use crate::fault::CacheFault;
use mime_base::{Counted, Key, Meter};
use std::cmp::Ordering;

/// Where a key is sought in a list.
#[derive(Clone, Copy)]
pub struct Sought {
    /// The place of the first text that is not less than the key.
    pub place: u64,
    /// Whether that text is the key.
    pub equal: bool,
}

/// The place of the first of `count` records of `size` bytes, from `first` on, whose text is not less than the key,
/// and what the search learnt of that text.
// Inlined, so that each list's search has its record size as a constant.
#[inline(always)]
pub fn seek(
    counted: &Counted<'_>,
    first: u64,
    count: u64,
    size: u64,
    key: &[u8],
    meter: &mut Meter,
) -> Result<Sought, CacheFault>
    // The records lie in the cache.
    requires fits { first + size * count ≤ length counted.now }
    // No offset needs more than 32 bits.
    requires limit { length counted.now ≤ 2 ^ 28 }
    // A record has two numbers at least.
    requires size { 8 ≤ size }
    // Among texts that all stand it finds a place; where they are sorted, those before it are less, and the others are not.
    ensures answer { (keys : List (List ℕ)) → length keys ≡ count → KeysAt counted.now first size keys →
        IsOkAnd result (λ sought. AreSorted keys → SplitsAt keys key.now sought.place) }
    // On any bytes it says how the texts beside the place compare, or a text that one of the records names does not stand.
    ensures sought { MatchResult result (IsSought counted.now first size count key.now)
        (IsNamedFault counted.now first size count 0) }
    // It compares at most 26 texts.
    ensures cost { Looks 26 (256 * 26) meter.old meter.new }
{
    // An empty list wants no key.
    if count == 0 {
        return Ok(Sought {
            place: 0,
            equal: false,
        });
    }
    let key = Key::new(key);
    let mut low = 0;
    let mut high = count;
    let mut equal = false;
    while low < high {
        let middle = (low + high) / 2;
        let [text] = counted.cards_within::<1>(first + size * middle, meter);
        match counted.compare_key(u64::from(text), &key, meter)? {
            Ordering::Less => low = middle + 1,
            Ordering::Equal => {
                high = middle;
                equal = true;
            }
            Ordering::Greater => {
                high = middle;
                equal = false;
            }
        }
    }
    Ok(Sought { place: low, equal })
}
