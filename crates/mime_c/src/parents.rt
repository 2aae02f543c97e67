//! The parents of a type.

ghost use Rattle.std.specs.Prelude.{◌≡◌, ◌+◌, ◌*◌, ◌/◌, length, map};
ghost use Rattle.mime_c.specs.Parents.{AreWritten, IsAskedParents, IsParents, IsParentsReport, bytes_of_text, types_of};
ghost use Rattle.mime_c.specs.Reader.{IsOfCache};
ghost use Rattle.mime_view.specs.Spending.{Looks};

use crate::look_up::Text;
use crate::opening::open;
use crate::report::{Report, answered, fault_report};
use mime_base::Meter;
use mime_view::{Budget, Cache, CacheFault, Marks, Parents};
use std::alloc::Global;

/// The parents of a type in the cache's order, in the caller's array as far as there is room, and how many there are
/// ("The mime.cache files").
///
/// They are those that the cache lists for just this type: no alias step is taken, and none is added that every type of
/// its kind has. Whether the bytes are a type's name is not asked.
#[unsafe(no_mangle)]
pub extern "C" fn mimelook_parents<'a>(
    alloc: Global,
    cache: &'a [u8],
    kind: &[u8],
    parents: &mut [Text<'a>],
    count: &mut usize,
) -> Report
    // They are the parents that the reader gives; the array and the count are written only with an answer.
    ensures promises { IsAskedParents cache.entry.now kind.now (record { texts = parents.old; count = count.old })
        (record { texts = parents.new; count = count.new }) result }
{
    let mut meter = Meter::new();
    let found = ask(alloc, cache, kind, &mut meter);
    tell(found, meter, parents, count)
}

/// The parents go out, if they can be told, and how many they are.
pub(crate) fn tell<'a>(
    found: Result<Option<Parents<'a>>, CacheFault>,
    meter: Meter,
    parents: &mut [Text<'a>],
    count: &mut usize,
) -> Report
    // They are written only with an answer.
    ensures { IsParentsReport (record { texts = parents.old; count = count.old }) (record { texts = parents.new; count = count.new })
        found.entry meter result }
{
    match found {
        Ok(found) => {
            *count = put_parents(&found, parents);
            answered(0, meter)
        }
        Err(fault) => fault_report(fault, 0, meter),
    }
}

// The parents that were found, as far as there is room, and how many they are.
fn put_parents<'a>(found: &Option<Parents<'a>>, parents: &mut [Text<'a>]) -> usize
    ensures written { AreWritten bytes_of_text (types_of found.now) parents.old parents.new }
    ensures count { result ≡ length (types_of found.now) }
{
    match found {
        Some(found) => {
            let types = found.types.as_slice();
            put_texts(types, parents);
            types.len()
        }
        None => 0,
    }
}

// Texts at the front of an array, as far as there is room.
fn put_texts<'a>(texts: &[&'a [u8]], array: &mut [Text<'a>])
    ensures { AreWritten bytes_of_text (map (λ text. text.now) texts.now) array.old array.new }
{
    let room = texts.len().min(array.len());
    for i in 0..room {
        array[i].bytes = texts[i];
    }
}

// The parents themselves.
fn ask<'a>(
    alloc: Global,
    cache: &'a [u8],
    kind: &[u8],
    meter: &mut Meter,
) -> Result<Option<Parents<'a>>, CacheFault>
    ensures promises { IsOfCache cache.entry.now (IsParents cache.entry.now kind.now) result }
    ensures cost { let records = length cache.entry.now / 4 in
        Looks (30 + records) (256 * (27 + records)) meter.old meter.new }
{
    match open(cache, meter) {
        Ok(opened) => parents_of(alloc, &opened, kind, meter),
        Err(fault) => Err(fault),
    }
}

/// The same over an opened cache.
pub(crate) fn parents_of<'a>(
    alloc: Global,
    opened: &Cache<'a>,
    kind: &[u8],
    meter: &mut Meter,
) -> Result<Option<Parents<'a>>, CacheFault>
    // They are the parents that the cache lists.
    ensures promises { IsParents opened.now kind.now result }
    // It visits and compares no more than this.
    ensures cost { let records = length opened.now / 4 in
        Looks (29 + records) (256 * (27 + records)) meter.old meter.new }
{
    let mut budget = Budget::of(opened);
    let mut marks = Marks::new(alloc);
    opened.parents_of(alloc, kind, &mut marks, meter, &mut budget)
}
