//! The icons of a type.

ghost use Rattle.std.specs.Prelude.{◌≡◌, ◌++◌, ◌≤◌, drop, length};
ghost use Rattle.mime_c.specs.Icons.{IsAskedIcons, IsFoundIcons, IsIconsReport};
ghost use Rattle.std.specs.Prelude.{Ok};

use crate::report::{Report, answered, status_report, stop_report};
use crate::status::SHORT_BUFFER;
use crate::type_names::type_name;
use mime_base::{Counted, Meter, TypeName};
use mime_lookup::{Icons, icon_of};
use std::alloc::Global;

/// The lengths of the names of two icons.
#[repr(C)]
#[derive(Clone, Copy, Debug)]
pub struct IconLengths {
    /// How many bytes the name of the icon has.
    pub icon: usize,
    /// How many bytes the name of the generic icon has.
    pub generic: usize,
}

/// The names of a type's icon and of its generic icon, at the fronts of two buffers ("The mime.cache files").
///
/// The type is resolved by one alias step first. A name that the cache does not give is made of the type.
#[unsafe(no_mangle)]
pub extern "C" fn mimelook_icons(
    alloc: Global,
    cache: &[u8],
    kind: &[u8],
    icon: &mut [u8],
    generic: &mut [u8],
    lengths: &mut IconLengths,
) -> Report
    // It is what `icon_of` answers for such a type and cache; the buffers are written only with an answer, and where both names fit.
    ensures promises { IsAskedIcons cache.now kind.now
        (record { icon = icon.old; generic = generic.old; lengths = lengths.old })
        (record { icon = icon.new; generic = generic.new; lengths = lengths.new }) result }
{
    match type_name(alloc, kind) {
        Ok(name) => ask(alloc, cache, &name, icon, generic, lengths),
        Err(status) => status_report(status, 0, Meter::new()),
    }
}

// The same of a type name.
fn ask(
    alloc: Global,
    cache: &[u8],
    kind: &TypeName,
    icon: &mut [u8],
    generic: &mut [u8],
    lengths: &mut IconLengths,
) -> Report
    ensures { IsFoundIcons cache.now kind.now
        (record { icon = icon.old; generic = generic.old; lengths = lengths.old })
        (record { icon = icon.new; generic = generic.new; lengths = lengths.new }) result }
{
    match icon_of(alloc, Counted::new(cache), kind) {
        Ok(icons) => put_icons(&icons, icon, generic, lengths),
        Err(stopped) => stop_report(stopped),
    }
}

/// The names where there is room for both.
// Part of each of its two callers.
#[inline(always)]
pub(crate) fn put_icons(
    icons: &Icons,
    icon: &mut [u8],
    generic: &mut [u8],
    lengths: &mut IconLengths,
) -> Report
    // They go out where there is room for both.
    ensures { IsIconsReport (Ok icons.now)
        (record { icon = icon.old; generic = generic.old; lengths = lengths.old })
        (record { icon = icon.new; generic = generic.new; lengths = lengths.new }) result }
{
    if icon.len() < icons.icon.len() || generic.len() < icons.generic.len() {
        return status_report(SHORT_BUFFER, 0, icons.meter);
    }
    put(icons.icon.as_slice(), icon);
    put(icons.generic.as_slice(), generic);
    *lengths = IconLengths {
        icon: icons.icon.len(),
        generic: icons.generic.len(),
    };
    answered(0, icons.meter)
}

// A name at the front of a buffer.
fn put(name: &[u8], buffer: &mut [u8])
    requires room { length name.now ≤ length buffer.old }
    ensures { buffer.new ≡ name.now ++ drop (length name.now) buffer.old }
{
    buffer[..name.len()].copy_from_slice(name);
}
