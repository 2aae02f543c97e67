//! Whether a type lies below another, by an opened cache ("Subclassing").

ghost use Rattle.std.specs.Prelude.{◌≡◌, ◌↔◌, ◌≤◌, IfErr, IfOk, IsTrue, length};
ghost use Rattle.mime_base.specs.Database.{PlainDatabase, pairs_of};
ghost use Rattle.mime_base.specs.Database.Subclass.{IsA};
ghost use Rattle.mime_base.specs.Format.Packed.{Packed};
ghost use Rattle.mime_lookup.specs.Spelling.{SpellsPairs};

use crate::cached::ancestry::climbs_to;
use crate::cached::indexed_cache::IndexedCache;
use mime_base::Meter;
use mime_view::{CacheFault, Marks, Spending};
use std::alloc::Global;

/// Whether a type is the base or a subclass of it, by the parents of a cache. No alias step is gone first.
pub fn is_below<'k, 'a: 'k>(
    alloc: Global,
    indexed: &IndexedCache<'a>,
    kind: &'k [u8],
    base: &[u8],
) -> Result<bool, CacheFault>
    // Any text of the cache and any type name is this short.
    requires base { length base.now ≤ 255 }
    // Where the pairs stand, it says whether the type is the base or a subclass of it.
    ensures answer { (b : PlainDatabase) → SpellsPairs indexed.now b → IfOk result
        (λ found. IsTrue found ↔ IsA (pairs_of b) kind.entry.now base.now) }
    // Where the pairs of a packed database stand, only memory is refused.
    ensures need { (b : PlainDatabase) → SpellsPairs indexed.now b → Packed indexed.now b
        → IfErr result (λ e. e ≡ CacheFault.OutOfMemory) }
{
    let mut marks = Marks::new(alloc);
    let mut spending = Spending {
        meter: Meter::new(),
        budget: indexed.budget(),
    };
    climbs_to(alloc, indexed, &mut marks, kind, base, &mut spending)
}
