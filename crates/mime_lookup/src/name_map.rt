//! Values by names, of which most are found by a mark.
//!
//! The first name of a mark has an entry that the mark leads to; only names that come to a mark that is taken are hashed. So most
//! names are put there, and asked for, by their mark and one comparison, and whatever the names are, by no more than one hash.

pub mod marks;

ghost use Rattle.std.specs.Prelude.{◌≡◌, ◌<◌, List, ℕ, Some, None, bytes_eq, get_or, option_copied, slice_get, IfOk, OnOk};
ghost use Rattle.std.specs.HashMap.{get_by};
ghost use Rattle.std.specs.Map.{update};
ghost use Rattle.mime_lookup.specs.Marks.{mark};
ghost use Rattle.mime_lookup.specs.NameMap.{IsNameMap, entry_of, other_of, value_in};

use crate::name_map::marks::{MARKS, mark_of};
use indexmap::IndexMap;
use mime_base::OutOfMemory;
use std::alloc::Global;

/// The number of no entry.
const NONE: u16 = u16::MAX;

/// The first name of a mark.
#[derive(Clone, Copy)]
pub struct NameEntry<'a, V> {
    /// The name.
    pub name: &'a [u8],
    /// Its value.
    pub value: V,
    /// Whether another name has the same mark.
    pub shared: bool,
}

/// Values by names.
#[derive(Drop)]
pub struct NameMap<'a, V> {
    /// Of each mark the number of its entry.
    pub numbers: Vec<u16>,
    /// The first names of the marks.
    pub entries: Vec<NameEntry<'a, V>>,
    /// The values of the other names.
    pub others: IndexMap<&'a [u8], V>,
}

/// A map of no name, with room for so many.
pub fn new_map<'a, V: Copy>(alloc: Global, room: usize) -> Result<NameMap<'a, V>, OutOfMemory>
    // It is a map.
    ensures valid { IfOk result IsNameMap }
    // No name has a value.
    ensures empty { IfOk result (λ map. (name : List ℕ) → value_in map name ≡ None) }
{
    let numbers = vec![in alloc; NONE; MARKS]?;
    let entries = Vec::with_capacity(alloc, room)?;
    Ok(NameMap {
        numbers,
        entries,
        others: IndexMap::new(alloc),
    })
}

/// The number of the entry that a mark leads to.
#[inline]
fn number_at<V: Copy>(map: &NameMap<'_, V>, at: usize) -> usize
    requires map { IsNameMap map.now }
    requires within { at < 16384 }
    ensures { result ≡ get_or map.now.numbers.items at 65535 }
{
    usize::from(map.numbers[at])
}

/// The entry of a number.
#[inline]
fn entry_at<'b, 'a, V: Copy>(map: &'b NameMap<'a, V>, number: usize) -> Option<&'b NameEntry<'a, V>>
    ensures { option_copied result ≡ slice_get map.now.entries.items number }
{
    map.entries.get(number)
}

/// The value of a name, if it has one.
// Part of each of its callers: the mark alone says of most names that they have none.
#[inline(always)]
pub fn value_of<V: Copy>(map: &NameMap<'_, V>, name: &[u8]) -> Option<V>
    // It is a map.
    requires { IsNameMap map.now }
    // It is the value that the map has for it.
    ensures { result ≡ value_in map.now name.now }
{
    let number = number_at(map, mark_of(name));
    let Some(entry) = entry_at(map, number) else {
        return None;
    };
    if entry.name == name {
        return Some(entry.value);
    }
    if entry.shared {
        other_value(map, name)
    } else {
        None
    }
}

/// The value of a name that has no entry.
// Never inlined: few names share a mark.
#[inline(never)]
fn other_value<V: Copy>(map: &NameMap<'_, V>, name: &[u8]) -> Option<V>
    ensures { result ≡ other_of map.now name.now }
{
    map.others.get(name).copied()
}

/// Gives a value to a name, and returns the one that it had.
pub fn put_value<'a, V: Copy>(
    map: &mut NameMap<'a, V>,
    name: &'a [u8],
    value: V,
) -> Result<Option<V>, OutOfMemory>
    // It is a map.
    requires { IsNameMap map.old }
    // It stays one.
    ensures valid { OnOk result (IsNameMap map.new) }
    // The name has the value, and each other what it had.
    ensures updates { OnOk result ((other : List ℕ) →
        value_in map.new other ≡ update bytes_eq (value_in map.old) name.entry.now (Some value) other) }
    // It is the value that the name had.
    ensures old { IfOk result (λ old. old ≡ value_in map.old name.entry.now) }
{
    let at = mark_of(name);
    let number = number_at(map, at);
    let Some(entry) = entry_at(map, number).copied() else {
        add_entry(map, at, name, value)?;
        return Ok(None);
    };
    if entry.name == name {
        map.entries[number].value = value;
        return Ok(Some(entry.value));
    }
    map.entries[number].shared = true;
    let old = put_other(&mut map.others, name, value)?;
    Ok(old)
}

/// Gives a value to a name that has no entry, and returns the one that it had.
// Never inlined: few names share a mark.
#[inline(never)]
fn put_other<'a, V: Copy>(
    others: &mut IndexMap<&'a [u8], V>,
    name: &'a [u8],
    value: V,
) -> Result<Option<V>, OutOfMemory>
    ensures updates { OnOk result ((other : List ℕ) → get_by (λ key. bytes_eq other key.now) others.new
        ≡ update bytes_eq (λ n. get_by (λ key. bytes_eq n key.now) others.old) name.entry.now (Some value) other) }
    ensures old { IfOk result (λ old. old ≡ get_by (λ key. bytes_eq name.entry.now key.now) others.old) }
{
    let old = others.insert(name, value)?;
    Ok(old)
}

/// Adds the first name of a mark.
fn add_entry<'a, V: Copy>(
    map: &mut NameMap<'a, V>,
    at: usize,
    name: &'a [u8],
    value: V,
) -> Result<(), OutOfMemory>
    requires map { IsNameMap map.old }
    requires mark { at ≡ mark name.now }
    requires within { at < 16384 }
    requires first { entry_of map.old name.now ≡ None }
    ensures valid { OnOk result (IsNameMap map.new) }
    ensures updates { OnOk result ((other : List ℕ) →
        value_in map.new other ≡ update bytes_eq (value_in map.old) name.entry.now (Some value) other) }
{
    // There is an entry a mark at most.
    let number = map.entries.len();
    if number >= usize::from(NONE) {
        return Err(OutOfMemory);
    }
    map.entries.push(NameEntry {
        name,
        value,
        shared: false,
    })?;
    map.numbers[at] = number as u16;
    Ok(())
}
