//! A cache's bytes, opened.

ghost use Rattle.std.specs.Prelude.{◌≡◌, MatchResult};
ghost use Rattle.mime_view.specs.Opening.{IsOpenFault, Opens};
ghost use Rattle.mime_view.specs.Spending.{Looks};

use mime_base::{Counted, Meter};
use mime_view::{Cache, CacheFault};

/// Opens the bytes of a cache.
pub fn open<'a>(cache: &'a [u8], meter: &mut Meter) -> Result<Cache<'a>, CacheFault>
    // It opens the bytes that are a cache; else the first thing that is wrong with their header is the fault.
    ensures opened { MatchResult result
        (λ opened. (opened ≡ cache.entry.now) × Opens cache.entry.now) (IsOpenFault cache.entry.now) }
    // At most the header is visited.
    ensures cost { Looks 1 0 meter.old meter.new }
{
    Cache::open(Counted::new(cache), meter)
}
