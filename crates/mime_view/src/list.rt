//! Lists of a cache: a count, and right after it records of one size.

ghost use Rattle.std.specs.Prelude.{◌≡◌, ◌+◌, ◌*◌, ◌^◌, ◌<◌, ◌≤◌, length, IfErr, IfOk};
ghost use Rattle.mime_base.specs.Cache.Bytes.{field};
ghost use Rattle.mime_view.specs.Lists.{IsListFault};
ghost use Rattle.mime_view.specs.Spending.{Looks};

use crate::fault::CacheFault;
use mime_base::{Counted, Meter};

/// How many records of `size` bytes the list at `at` has. All of them lie in the cache.
pub fn count_at(
    counted: &Counted<'_>,
    at: u64,
    size: u64,
    meter: &mut Meter,
) -> Result<u64, CacheFault>
    // The list's offset is a number of 32 bits.
    requires at { at < 2 ^ 32 }
    // A record has four numbers at most.
    requires size { size ≤ 16 }
    // It gives the list's count where all its records lie in the cache.
    ensures count { IfOk result (λ count. (count ≡ field counted.now at 0)
        × (at + 4 + size * count ≤ length counted.now)) }
    // Elsewhere it says that they don't.
    ensures fault { IfErr result (IsListFault counted.now at size) }
    // It looks at the count.
    ensures cost { Looks 1 0 meter.old meter.new }
{
    // Of an offset of 32 bits no sum overflows, so one test is enough.
    let first = at + 4;
    if counted.length() < first {
        meter.add_node();
        return Err(CacheFault::OutOfRange(at));
    }
    let [count] = counted.cards_within::<1>(at, meter);
    let count = u64::from(count);
    if counted.length() < first + size * count {
        return Err(CacheFault::OutOfRange(at));
    }
    Ok(count)
}
