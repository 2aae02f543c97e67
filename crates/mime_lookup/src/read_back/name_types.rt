//! The types of a name by the rules of a cache that were read back.

ghost use Rattle.std.specs.Prelude.{◌≡◌, ◌*◌, ◌≤◌, length, true, IfErr, IfOk};
ghost use Rattle.mime_base.specs.Database.{PlainDatabase};
ghost use Rattle.mime_lookup.specs.Cached.{AreCacheTexts};
ghost use Rattle.mime_lookup.specs.Costs.{CostsOwing, glob_cost, record_cost};
ghost use Rattle.mime_lookup.specs.NameTypes.{GivesTypes, owed_types};
ghost use Rattle.mime_lookup.specs.Spelling.{SpellsGlobs};
ghost use Rattle.mime_lookup.specs.StepFaults.{IsGlobsFault};

use crate::cached::name_types::{
    NameTypes, are_one_type, count_asked, types_of as cached_types_of,
};
use crate::read_back::names::IndexedNames;
use mime_base::Meter;
use mime_view::{Cache, CacheFault, NameHits, Spending, Which};
use std::alloc::Global;

/// Which types of a name an index may give.
#[derive(Clone, Copy)]
pub enum IndexedTypes {
    /// One alone.
    One,
    /// One, or none.
    AtMostOne,
    /// Any.
    Any,
}

/// The types of a name as [`crate::cached::name_types::types_of`] gives them, by the rules that were read back.
///
/// They take nothing of the budget, and the halving that they leave out pays for a search among them. Where an index may not give them, or
/// there are more of them than that pays for, the cache is asked.
pub fn types_of<'a>(
    alloc: Global,
    cache: &Cache<'a>,
    names: &IndexedNames<'a>,
    indexed: IndexedTypes,
    name: &[u8],
    which: Which,
    spending: &mut Spending,
) -> Result<NameTypes<'a>, CacheFault>
    // A lookup refuses longer names.
    requires short { length name.now ≤ 4096 }
    // The rules are those of the cache.
    requires same { names.now ≡ cache.now }
    // Where the glob rules stand, these are the types of the name, and no more is taken than the rules have.
    ensures gives { (b : PlainDatabase) → SpellsGlobs cache.now b →
        GivesTypes which b name.now spending.old spending.new result }
    // They are texts of the cache.
    ensures text { IfOk result (AreCacheTexts cache.now) }
    // The lists of rules, the tree of suffixes or an alias step shows the fault.
    ensures fault { IfErr result (IsGlobsFault cache.now name.now spending.new.budget) }
    // Whatever the bytes are, it costs a search, and leaves enough to try each type.
    ensures cost { CostsOwing (owed_types result) (record_cost (length name.now)) 0 (glob_cost (length name.now))
        spending.old spending.new }
{
    let hits = names.types(alloc, name, which)?;
    let types = hits.kinds.as_slice();
    if !may_give(indexed, types.len(), name) {
        return cached_types_of(alloc, cache, name, which, spending);
    }
    let mut meter = Meter::new();
    if are_one_type(types, &mut meter) {
        return Ok(NameTypes::One(types[0]));
    }
    let asked = count_asked(types, hits.kept, &mut meter);
    Ok(NameTypes::Others(hits.kinds, asked))
}

/// Whether an index may give so many types of a name, and the halving that a walk does for it pays for a search among them: 29 nodes for
/// each.
fn may_give(indexed: IndexedTypes, count: usize, name: &[u8]) -> bool
    requires { length name.now ≤ 4096 }
    ensures { result ≡ true → 29 * count ≤ glob_cost (length name.now) }
{
    match indexed {
        IndexedTypes::One => count == 1,
        IndexedTypes::AtMostOne => count <= 1,
        IndexedTypes::Any => count <= 2 * name.len() + 2,
    }
}
