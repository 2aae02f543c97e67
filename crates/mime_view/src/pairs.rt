//! Sorted lists of two names an entry: aliases, icons and generic icons.

ghost use Rattle.std.specs.Prelude.{ℕ, ◌*◌, ◌^◌, ◌≤◌, ◌<◌, List, length};
ghost use Rattle.mime_view.specs.Pairs.{GivesSecondName, LooksUp, ReadsPairs};
ghost use Rattle.mime_view.specs.Spending.{Looks};

use crate::entry::find_entry;
use crate::fault::CacheFault;
use mime_base::{Counted, Meter};

/// The second name of the pair that begins with the key, in the list at `at`.
pub fn look_up_pair<'a>(
    counted: &Counted<'a>,
    at: u64,
    key: &[u8],
    meter: &mut Meter,
) -> Result<Option<&'a [u8]>, CacheFault>
    // The list's offset is a number of 32 bits.
    requires at { at < 2 ^ 32 }
    // No offset needs more than 32 bits.
    requires limit { length counted.now ≤ 2 ^ 28 }
    // In a sorted list that stands it finds the second name of the first pair that begins with the key.
    ensures answer { (pairs : List (List ℕ × List ℕ)) → ReadsPairs counted.now at pairs →
        LooksUp key.now pairs result }
    // On any bytes what it gives is a text of the cache, or the list or a text that it names does not stand.
    ensures given { GivesSecondName counted.now at result }
    // It finds an entry and reads a text.
    ensures cost { Looks 29 (256 * 29) meter.old meter.new }
{
    let Some(entry) = find_entry(counted, at, key, meter)? else {
        return Ok(None);
    };
    let text = counted.text_at(u64::from(entry.target), meter)?;
    Ok(Some(text))
}
