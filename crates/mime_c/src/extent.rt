//! How much of a content a cache can look at.

ghost use Rattle.std.specs.Prelude.{◌≡◌};
ghost use Rattle.mime_c.specs.Extent.{IsAskedExtent, IsExtent};
ghost use Rattle.mime_c.specs.Reader.{IsOfCache, IsReaderReport};
ghost use Rattle.mime_view.specs.Spending.{Looks};

use crate::opening::open;
use crate::report::{Report, answered, fault_report};
use mime_base::Meter;
use mime_view::{Budget, Cache, CacheFault};

/// How much of a content the lines of magic can look at, as the cache states it, in bytes ("The mime.cache files").
#[unsafe(no_mangle)]
pub extern "C" fn mimelook_extent(cache: &[u8], extent: &mut u64) -> Report
    // It is the extent that the reader gives; the number is written only with an answer.
    ensures promises { IsAskedExtent cache.now extent.old extent.new result }
{
    let mut meter = Meter::new();
    let found = ask(cache, &mut meter);
    tell(found, meter, extent)
}

/// The number goes out, if there is one.
pub(crate) fn tell(found: Result<u32, CacheFault>, meter: Meter, extent: &mut u64) -> Report
    // It is written only with an answer.
    ensures { IsReaderReport (λ stated. extent.new ≡ stated) (extent.new ≡ extent.old) found meter result }
{
    match found {
        Ok(stated) => {
            *extent = u64::from(stated);
            answered(0, meter)
        }
        Err(fault) => fault_report(fault, 0, meter),
    }
}

// The number itself.
fn ask(cache: &[u8], meter: &mut Meter) -> Result<u32, CacheFault>
    ensures promises { IsOfCache cache.now (IsExtent cache.now) result }
    ensures cost { Looks 2 0 meter.old meter.new }
{
    match open(cache, meter) {
        Ok(opened) => extent_of(&opened, meter),
        Err(fault) => Err(fault),
    }
}

/// The same over an opened cache.
pub(crate) fn extent_of(opened: &Cache<'_>, meter: &mut Meter) -> Result<u32, CacheFault>
    // It is the extent that the cache states.
    ensures promises { IsExtent opened.now result }
    // It visits one record.
    ensures cost { Looks 1 0 meter.old meter.new }
{
    let mut budget = Budget::of(opened);
    opened.extent(meter, &mut budget)
}
