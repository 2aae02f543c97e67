//! The type that an alias stands for.

ghost use Rattle.std.specs.Prelude.{◌≡◌, ◌*◌};
ghost use Rattle.mime_c.specs.Reader.{IsOfCache, IsReaderReport};
ghost use Rattle.mime_c.specs.Unalias.{IsAliasStep, IsAskedAlias};
ghost use Rattle.mime_view.specs.Spending.{Looks};

use crate::look_up::Text;
use crate::opening::open;
use crate::report::{Report, answered, fault_report};
use mime_base::Meter;
use mime_view::{Budget, Cache, CacheFault};

/// The type that an alias stands for, or the bytes themselves where the cache has no such alias ("Directory layout").
///
/// One step is taken. Whether the bytes are a type's name is not asked.
#[unsafe(no_mangle)]
pub extern "C" fn mimelook_unalias<'a>(
    cache: &'a [u8],
    kind: &'a [u8],
    resolved: &mut Text<'a>,
) -> Report
    // It is what the reader gives of an alias step; the text is written only with an answer.
    ensures promises { IsAskedAlias cache.entry.now kind.entry.now resolved.old resolved.new result }
{
    let mut meter = Meter::new();
    let found = ask(cache, kind, &mut meter);
    tell(found, meter, resolved)
}

/// The name goes out, if there is one.
pub(crate) fn tell<'a>(
    found: Result<&'a [u8], CacheFault>,
    meter: Meter,
    resolved: &mut Text<'a>,
) -> Report
    // It is written only with an answer.
    ensures { IsReaderReport (λ name. resolved.new.bytes.now ≡ name.now) (resolved.new ≡ resolved.old) found.entry meter result }
{
    match found {
        Ok(name) => {
            resolved.bytes = name;
            answered(0, meter)
        }
        Err(fault) => fault_report(fault, 0, meter),
    }
}

// The step itself.
fn ask<'a>(cache: &'a [u8], kind: &'a [u8], meter: &mut Meter) -> Result<&'a [u8], CacheFault>
    ensures promises { IsOfCache cache.entry.now (IsAliasStep cache.entry.now kind.entry.now) result }
    ensures cost { Looks 30 (256 * 29) meter.old meter.new }
{
    match open(cache, meter) {
        Ok(opened) => alias_step(&opened, kind, meter),
        Err(fault) => Err(fault),
    }
}

// The same over an opened cache.
fn alias_step<'a>(
    opened: &Cache<'a>,
    kind: &'a [u8],
    meter: &mut Meter,
) -> Result<&'a [u8], CacheFault>
    ensures promises { IsAliasStep opened.now kind.entry.now result }
    ensures cost { Looks 29 (256 * 29) meter.old meter.new }
{
    let mut budget = Budget::of(opened);
    opened.unalias(kind, meter, &mut budget)
}
