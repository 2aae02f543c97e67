//! The type that an alias stands for, by a database that is open.

ghost use Rattle.std.specs.Prelude.{◌≡◌, ◌*◌};
ghost use Rattle.mime_c.specs.Handle.{IsByHandle, StaysOpen};
ghost use Rattle.mime_c.specs.Reader.{IsOfCache};
ghost use Rattle.mime_c.specs.Unalias.{IsAliasStep, IsAskedAlias};
ghost use Rattle.mime_view.specs.Spending.{Looks};

use crate::database::handle::Handle;
use crate::database::kept::HandleReport;
use crate::database::open_database::OpenDatabase;
use crate::look_up::Text;
use crate::report::Report;
use crate::unalias::tell;
use mime_base::Meter;
use mime_view::CacheFault;
use std::alloc::Global;

/// What `mimelook_unalias` gives, over what is open.
#[unsafe(no_mangle)]
pub extern "C" fn mimelook_database_unalias<'a>(
    alloc: Global,
    database: Handle,
    kind: &'a [u8],
    resolved: &mut Text<'a>,
) -> HandleReport
    // It is what is given over the bytes; where nothing is open, the text stays.
    ensures promises { IsByHandle database.opened (λ cache told. IsAskedAlias cache kind.entry.now resolved.old resolved.new told)
        (resolved.new ≡ resolved.old) result.report }
    // What is open stays so, where it lies.
    ensures stays { StaysOpen database.address database.opened result.kept }
{
    match database.into_value() {
        Some(mut opened) => {
            let report = ask(opened.as_mut(), kind, resolved);
            HandleReport::of(report, opened)
        }
        None => HandleReport::not_open(alloc),
    }
}

// The same of what is open.
fn ask<'a>(opened: &OpenDatabase, kind: &'a [u8], resolved: &mut Text<'a>) -> Report
    ensures { IsAskedAlias opened.now.cache kind.entry.now resolved.old resolved.new result }
{
    let mut meter = Meter::new();
    let found = alias_step(opened, kind, &mut meter);
    tell(found, meter, resolved)
}

// The step, which visits nothing once names were read back.
fn alias_step<'a>(
    opened: &OpenDatabase,
    kind: &'a [u8],
    meter: &mut Meter,
) -> Result<&'a [u8], CacheFault>
    ensures promises { IsOfCache opened.now.cache (IsAliasStep opened.now.cache kind.entry.now) result }
    ensures cost { Looks 29 (256 * 29) meter.old meter.new }
{
    let indexed = opened.indexed();
    let mut budget = indexed.budget();
    indexed.unalias(kind, meter, &mut budget)
}
