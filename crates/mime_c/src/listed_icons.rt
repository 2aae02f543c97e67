//! The icons that a cache lists for a type.

ghost use Rattle.std.specs.Prelude.{◌≡◌, ◌*◌};
ghost use Rattle.mime_c.specs.ListedIcons.{IsAskedListedIcons, IsListedIcons, IsListedReport, bytes_or_none};
ghost use Rattle.mime_c.specs.Reader.{IsOfCache};
ghost use Rattle.mime_view.specs.Spending.{Looks};

use crate::look_up::Text;
use crate::opening::open;
use crate::report::{Report, answered, fault_report};
use mime_base::Meter;
use mime_view::{Budget, Cache, CacheFault};

/// The names of an icon and of a generic icon, where they are listed.
pub(crate) type ListedNames<'a> = (Option<&'a [u8]>, Option<&'a [u8]>);

/// The names of the icon and of the generic icon that a cache lists for just this type, without bytes where it lists none
/// ("The mime.cache files").
///
/// No alias step is taken, and whether the bytes are a type's name is not asked.
#[unsafe(no_mangle)]
pub extern "C" fn mimelook_listed_icons<'a>(
    cache: &'a [u8],
    kind: &[u8],
    icon: &mut Text<'a>,
    generic: &mut Text<'a>,
) -> Report
    // They are the names that the reader gives; both texts are written only with an answer.
    ensures promises { IsAskedListedIcons cache.entry.now kind.now (icon.old, generic.old) (icon.new, generic.new) result }
{
    let mut meter = Meter::new();
    let found = ask(cache, kind, &mut meter);
    tell(found, meter, icon, generic)
}

/// The names go out, if they can be told.
pub(crate) fn tell<'a>(
    found: Result<ListedNames<'a>, CacheFault>,
    meter: Meter,
    icon: &mut Text<'a>,
    generic: &mut Text<'a>,
) -> Report
    // They are written only with an answer.
    ensures { IsListedReport (icon.old, generic.old) (icon.new, generic.new) found.entry meter result }
{
    match found {
        Ok((listed, listed_generic)) => {
            icon.bytes = bytes_or_none(listed);
            generic.bytes = bytes_or_none(listed_generic);
            answered(0, meter)
        }
        Err(fault) => fault_report(fault, 0, meter),
    }
}

// The bytes of a name, none where there is no name.
fn bytes_or_none(name: Option<&[u8]>) -> &[u8]
    ensures { result.now ≡ bytes_or_none name.entry }
{
    match name {
        Some(name) => name,
        None => &[],
    }
}

// The names themselves.
fn ask<'a>(cache: &'a [u8], kind: &[u8], meter: &mut Meter) -> Result<ListedNames<'a>, CacheFault>
    ensures promises { IsOfCache cache.entry.now (IsListedIcons cache.entry.now kind.now) result }
    ensures cost { Looks 59 (256 * 58) meter.old meter.new }
{
    match open(cache, meter) {
        Ok(opened) => listed_names(&opened, kind, meter),
        Err(fault) => Err(fault),
    }
}

/// The same over an opened cache.
pub(crate) fn listed_names<'a>(
    opened: &Cache<'a>,
    kind: &[u8],
    meter: &mut Meter,
) -> Result<ListedNames<'a>, CacheFault>
    // They are the names that the cache lists.
    ensures promises { IsListedIcons opened.now kind.now result }
    // It visits at most 29 records of each list, and compares at most a text for each.
    ensures cost { Looks 58 (256 * 58) meter.old meter.new }
{
    let mut budget = Budget::of(opened);
    match opened.icon(kind, meter, &mut budget) {
        Ok(icon) => match opened.generic_icon(kind, meter, &mut budget) {
            Ok(generic) => Ok((icon, generic)),
            Err(fault) => Err(fault),
        },
        Err(fault) => Err(fault),
    }
}
