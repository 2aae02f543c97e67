//! Whether a cache can be opened.

ghost use Rattle.std.specs.Prelude.{◌≡◌, ◌≤◌};
ghost use Rattle.mime_c.specs.Check.{IsOpenCheck};

use crate::report::{Report, answered, fault_report};
use mime_base::{Counted, Meter};
use mime_view::Cache;

/// Opens a cache and says what is wrong with its header ("The mime.cache files").
///
/// Below 40 bytes it is truncated, else of another version unless that is 1.2, else too large above 268,435,456 bytes.
#[unsafe(no_mangle)]
pub extern "C" fn mimelook_check(cache: &[u8]) -> Report
    // The status says whether the bytes open as a cache, and else the first thing that is wrong.
    ensures opened { IsOpenCheck cache.now result }
    // At most the header is visited.
    ensures nodes { result.nodes ≤ 1 }
    // Nothing is compared.
    ensures bytes { result.bytes ≡ 0 }
{
    let mut meter = Meter::new();
    match Cache::open(Counted::new(cache), &mut meter) {
        Ok(_) => answered(0, meter),
        Err(fault) => fault_report(fault, 0, meter),
    }
}
