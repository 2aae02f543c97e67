//! Whether a type is a subclass of another.

ghost use Rattle.std.specs.Prelude.{◌≢◌, IfErr};
ghost use Rattle.mime_c.specs.IsA.{IsAsked, IsSearched, IsSubclassReport};

use crate::report::{Report, answered, status_report, stop_report};
use crate::type_names::type_name;
use mime_base::{Counted, Meter, TypeName};
use mime_lookup::{Cause, Stopped, is_a};
use std::alloc::Global;

/// Whether a type is another or a subclass of it, by the aliases and the parents of a cache ("Subclassing").
///
/// Both types are resolved by one alias step first.
#[unsafe(no_mangle)]
pub extern "C" fn mimelook_is_a(
    alloc: Global,
    cache: &[u8],
    kind: &[u8],
    base: &[u8],
    is: &mut bool,
) -> Report
    // It is what `is_a` answers for such types and cache; the flag is written only with an answer.
    ensures promises { IsAsked cache.now kind.now base.now is.old is.new result }
{
    let kind = match type_name(alloc, kind) {
        Ok(name) => name,
        Err(status) => return status_report(status, 0, Meter::new()),
    };
    let base = match type_name(alloc, base) {
        Ok(name) => name,
        Err(status) => return status_report(status, 0, Meter::new()),
    };
    ask(alloc, cache, &kind, &base, is)
}

// The same of type names.
fn ask(alloc: Global, cache: &[u8], kind: &TypeName, base: &TypeName, is: &mut bool) -> Report
    ensures { IsSearched cache.now kind.now base.now is.old is.new result }
{
    let found = is_a(alloc, Counted::new(cache), kind, base);
    tell(found, is)
}

/// What was found goes out, if anything was.
pub(crate) fn tell(found: Result<(bool, Meter), Stopped>, is: &mut bool) -> Report
    // Bytes are read, which never fail.
    requires readable { IfErr found (λ stopped. stopped.cause ≢ Cause.Read) }
    // It is written only with an answer.
    ensures { IsSubclassReport found is.old is.new result }
{
    match found {
        Ok((found, meter)) => {
            *is = found;
            answered(0, meter)
        }
        Err(stopped) => stop_report(stopped),
    }
}
