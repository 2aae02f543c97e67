//! The places of the rules whose keys a name asks for.

ghost use Rattle.std.specs.Prelude.{◌≡◌, [], ◌⊎◌, ℕ, ◌+◌, ◌*◌, ◌≤◌, ◌<◌, length, IfOk, OnOk};
ghost use Rattle.std.specs.List.Sorted.{IsNonDecreasing, IsPermutation};
ghost use Rattle.mime_names.specs.Chains.{AddsPlaces, GathersPlaces, Walks};
ghost use Rattle.mime_names.specs.Keys.{Begins, IsEndKey, Fronts, IsTable, node_key};
ghost use Rattle.mime_names.specs.Places.{AreSortedPlaces, CountsPlaces};
ghost use Rattle.mime_names.specs.Tree.{spelled};

use crate::chains::{Found, push_chain};
use crate::keys::{ANY_NAME, FIRST_NODE, KeyTable};
use crate::symbols::{BEGIN, symbol_of};
use crate::tree::next_of;
use mime_base::{Meter, OutOfMemory, as_compared};
use smallvec::SmallVec;
use std::alloc::Global;

/// Finds the places of the rules of a name's endings, and of the whole name, in rising order.
// Always inlined, as its caller is.
#[inline(always)]
pub fn text_places(
    found: &mut Found,
    table: &KeyTable,
    name: &[u8],
    meter: &mut Meter,
) -> Result<(), OutOfMemory>
    // It is a table.
    requires table { IsTable table.now }
    // No place was found yet.
    requires none { found.old.items ≡ [] }
    // They are of just the rules of the keys that the name's endings and the whole name have.
    ensures near { OnOk result (AreSortedPlaces (IsEndKey table.now.tree (spelled name.now)) table.now.keys.items found.new.items) }
    // At most two nodes are counted for each byte of the name, three, and one for each of these places.
    ensures steps { CountsPlaces (IsEndKey table.now.tree (spelled name.now)) table.now.keys.items
        meter.old.nodes (2 * length name.now + 3) meter.new.nodes }
    // No byte is compared.
    ensures bytes { meter.new.bytes ≡ meter.old.bytes }
{
    push_endings(found, table, name, meter)?;
    in_order(found);
    Ok(())
}

/// Finds the places of the rules of a name's first byte, and of those that any name may match, in rising order.
pub fn front_places(
    found: &mut Found,
    table: &KeyTable,
    name: &[u8],
    meter: &mut Meter,
) -> Result<(), OutOfMemory>
    // It is a table.
    requires table { IsTable table.now }
    // No place was found yet.
    requires none { found.old.items ≡ [] }
    // They are of just the rules of these two keys.
    ensures near { OnOk result (AreSortedPlaces (Fronts name.now) table.now.keys.items found.new.items) }
    // Two nodes are counted at most, and one for each of these places.
    ensures steps { CountsPlaces (Fronts name.now) table.now.keys.items meter.old.nodes 2 meter.new.nodes }
    // No byte is compared.
    ensures bytes { meter.new.bytes ≡ meter.old.bytes }
{
    push_fronts(found, table, name, meter)?;
    in_order(found);
    Ok(())
}

/// The places of the rules of both, in rising order.
pub fn all_places(
    alloc: Global,
    table: &KeyTable,
    name: &[u8],
    meter: &mut Meter,
) -> Result<Found, OutOfMemory>
    // It is a table.
    requires { IsTable table.now }
    // They are of just the rules of all keys that the name asks for.
    ensures near { IfOk result (λ places. AreSortedPlaces (λ key. IsEndKey table.now.tree (spelled name.now) key
        ⊎ Fronts name.now key) table.now.keys.items places.items) }
    // At most two nodes are counted for each byte of the name, five, and one for each of these places.
    ensures steps { CountsPlaces (λ key. IsEndKey table.now.tree (spelled name.now) key ⊎ Fronts name.now key)
        table.now.keys.items meter.old.nodes (2 * length name.now + 5) meter.new.nodes }
    // No byte is compared.
    ensures bytes { meter.new.bytes ≡ meter.old.bytes }
{
    let mut found = SmallVec::new(alloc);
    push_endings(&mut found, table, name, meter)?;
    push_fronts(&mut found, table, name, meter)?;
    in_order(&mut found);
    Ok(found)
}

/// Sorts places, where they don't rise already, as those of one chain do.
// Always inlined: most are one or two.
#[inline(always)]
fn in_order(places: &mut Found)
    ensures sorted { IsNonDecreasing places.new.items }
    ensures permutation { IsPermutation places.old.items places.new.items }
{
    let places = places.as_mut_slice();
    if !places.is_sorted() {
        places.sort_unstable();
    }
}

/// Adds the places of the rules of a name's first byte, and of those that any name may match.
fn push_fronts(
    found: &mut Found,
    table: &KeyTable,
    name: &[u8],
    meter: &mut Meter,
) -> Result<(), OutOfMemory>
    requires { IsTable table.now }
    ensures gathers { OnOk result (GathersPlaces (Fronts name.now) table.now.keys.items found.old.items found.new.items) }
    ensures adds { AddsPlaces (Fronts name.now) table.now.keys.items found.old.items found.new.items }
    ensures steps { meter.new.nodes + length found.old.items ≤ meter.old.nodes + length found.new.items + 2 }
    ensures bytes { meter.new.bytes ≡ meter.old.bytes }
{
    push_key(found, table, ANY_NAME, meter)?;
    push_front(found, table, name, meter)?;
    Ok(())
}

/// Adds the places of the rules of a name's first byte.
fn push_front(
    found: &mut Found,
    table: &KeyTable,
    name: &[u8],
    meter: &mut Meter,
) -> Result<(), OutOfMemory>
    requires { IsTable table.now }
    ensures gathers { OnOk result (GathersPlaces (λ key. (key < 256) × Begins name.now key) table.now.keys.items found.old.items found.new.items) }
    ensures adds { AddsPlaces (λ key. (key < 256) × Begins name.now key) table.now.keys.items found.old.items found.new.items }
    ensures steps { meter.new.nodes + length found.old.items ≤ meter.old.nodes + length found.new.items + 1 }
    ensures bytes { meter.new.bytes ≡ meter.old.bytes }
{
    if name.len() == 0 {
        return Ok(());
    }
    let key = usize::from(as_compared(false, name[0]));
    push_key(found, table, key, meter)?;
    Ok(())
}

/// Adds the places of the rules of a key.
#[inline(always)]
fn push_key(
    found: &mut Found,
    table: &KeyTable,
    key: usize,
    meter: &mut Meter,
) -> Result<(), OutOfMemory>
    requires table { IsTable table.now }
    requires key { key < node_key (length table.now.tree.starts.items) }
    ensures walks { OnOk result (Walks table.now.keys.items key found.old.items found.new.items) }
    ensures adds { AddsPlaces (λ other. other ≡ key) table.now.keys.items found.old.items found.new.items }
    ensures steps { meter.new.nodes + length found.old.items ≤ meter.old.nodes + length found.new.items + 1 }
    ensures bytes { meter.new.bytes ≡ meter.old.bytes }
{
    // Most nodes have no rule.
    if table.chains.firsts[key] == 0 {
        meter.add_node();
        return Ok(());
    }
    push_chain(
        found,
        &table.keys,
        &table.chains.firsts,
        &table.chains.nexts,
        key,
        meter,
    )
}

/// Adds the places of the rules of a name's endings, and of the whole name.
// Always inlined, as its callers are.
#[inline(always)]
fn push_endings(
    found: &mut Found,
    table: &KeyTable,
    name: &[u8],
    meter: &mut Meter,
) -> Result<(), OutOfMemory>
    requires { IsTable table.now }
    ensures gathers { OnOk result (GathersPlaces (IsEndKey table.now.tree (spelled name.now))
        table.now.keys.items found.old.items found.new.items) }
    ensures adds { AddsPlaces (IsEndKey table.now.tree (spelled name.now)) table.now.keys.items found.old.items found.new.items }
    ensures steps { meter.new.nodes + length found.old.items ≤ meter.old.nodes + length found.new.items + 2 * length name.now + 3 }
    ensures bytes { meter.new.bytes ≡ meter.old.bytes }
{
    push_key(found, table, FIRST_NODE, meter)?;
    let mut at = 0;
    let mut left = name.len();
    while left > 0 {
        left -= 1;
        meter.add_node();
        at = next_of(&table.tree, at, symbol_of(name[left]));
        if at == 0 {
            return Ok(());
        }
        push_key(found, table, at + FIRST_NODE, meter)?;
    }
    meter.add_node();
    let whole = next_of(&table.tree, at, BEGIN);
    if whole > 0 {
        push_key(found, table, whole + FIRST_NODE, meter)?;
    }
    Ok(())
}
