//! The first entry of each key.
//!
//! Marks are found first, with keys that borrow from the entries; then the entries are moved. So no
//! text is copied. Each key has a place in a table, and most keys are alone at theirs: such a key is the first, and
//! no other asks for it. The others are held in a tree, so that no choice of keys makes it slow; they stand there by
//! the ends of their names, where names differ more than in front.

ghost use Rattle.std.specs.Prelude.{◌≡◌, ◌<◌, ◌+◌, ◌==◌, ◌||◌, ◌∷◌, [], IfOk, OnOk, List, ℕ, if◌then◌else◌, length, map, min, not, slice_index};
ghost use Rattle.std.specs.List.{list_all, list_any};
ghost use Rattle.mime_base.specs.Database.PlainPairs.{is_same_pair};
ghost use Rattle.mime_text.specs.Merging.{has_same_key, marks, once, picked, tail_of};
ghost use Rattle.mime_text.specs.Merging.Buckets.{AreCounts, bucket, is_alone};

use super::key::Key;
use mime_base::OutOfMemory;
use std::alloc::Global;
use std::collections::BTreeSet;
use std::marker::Model;

/// What the ends of names are multiplied by, so that those that differ in a few digits have places of their own: of MurmurHash3.
const SPREAD: u64 = 0xff51_afd7_ed55_8ccd;

/// The end of a key's name as a number, and the key.
type TailedKey<'a> = (u64, &'a [u8], &'a [u8]);

/// The keys that were met.
#[derive(Drop)]
pub struct Keys<'a> {
    texts: BTreeSet<TailedKey<'a>>,
}

impl<'a> Model for Keys<'a> {
    ghost use Rattle.std.specs.Prelude.{ℕ, List, map};
    ghost use Rattle.mime_text.specs.Merging.{AreTailed};

    ghost Value = { List (List ℕ × List ℕ) };

    ghost view = { λ keys. map (λ key. (key.1.now, key.2.now)) keys.texts.keys };

    ghost invariant = { λ keys. AreTailed keys.texts.keys };
}

impl<'a> Keys<'a> {
    /// No keys.
    fn new(alloc: Global) -> Keys<'a>
        ensures { result ≡ [] }
    {
        Keys {
            texts: BTreeSet::new(alloc),
        }
    }

    /// Adds a key, and answers whether it is new.
    fn add(&mut self, key: (&'a [u8], &'a [u8])) -> Result<bool, OutOfMemory>
        ensures new { IfOk result (λ new. new ≡ not (list_any (is_same_pair (key.entry.0.now, key.entry.1.now)) self.old)) }
        ensures keys { OnOk result ((other : List ℕ × List ℕ) → list_any (is_same_pair other) self.new
            ≡ list_any (is_same_pair other) ((key.entry.0.now, key.entry.1.now) ∷ self.old)) }
    {
        let (name, other) = key;
        Ok(self.texts.insert((tail_of(name), name, other))?)
    }
}

/// The last eight bytes of a name as a number, 0 of a shorter name.
fn tail_of(name: &[u8]) -> u64
    ensures { result ≡ tail_of name.now }
{
    match name.last_chunk::<8>() {
        Some(tail) => u64::from_be_bytes(*tail),
        None => 0,
    }
}

/// The entries that are the first of their key, in their order.
pub fn first_of_each<T: Drop, K: Key<T>>(
    alloc: Global,
    entries: Vec<T>,
) -> Result<Vec<T>, OutOfMemory>
    // Of the entries of one key the first is kept, and the kept ones stay in their order.
    ensures { IfOk result (λ kept. kept.items ≡ once (has_same_key K.key_of) entries.items) }
{
    if entries.len() < 2 {
        return Ok(entries);
    }
    let marks = first_marks::<T, K>(alloc, &entries)?;
    marked(alloc, entries, marks)
}

/// Which entries are the first of their key.
fn first_marks<T: Drop, K: Key<T>>(alloc: Global, entries: &[T]) -> Result<Vec<bool>, OutOfMemory>
    ensures { IfOk result (λ firsts. firsts.items ≡ marks [] (map K.key_of entries.now)) }
{
    let counts = counts_of::<T, K>(alloc, entries)?;
    let mut keys = Keys::new(alloc);
    let mut firsts = Vec::with_capacity(alloc, entries.len())?;
    for entry in entries {
        firsts.push(is_first(&mut keys, counts.as_slice(), K::of(entry))?)?;
    }
    Ok(firsts)
}

/// How many keys have each place of a table: none, one, or more. There are eight places for each entry.
fn counts_of<T: Drop, K: Key<T>>(alloc: Global, entries: &[T]) -> Result<Vec<u8>, OutOfMemory>
    ensures some { IfOk result (λ counts. 0 < length counts.items) }
    ensures counts { IfOk result (λ counts. AreCounts counts.items (map K.key_of entries.now)) }
{
    let size = entries.len().saturating_mul(8).saturating_add(1);
    let mut counts = Vec::new(alloc);
    counts.resize(size, 0)?;
    for entry in entries {
        let (name, _) = K::of(entry);
        raise(&mut counts, bucket_of(name, size));
    }
    Ok(counts)
}

/// Counts one more at a place, up to two.
fn raise(counts: &mut [u8], place: usize)
    ensures long { length counts.new ≡ length counts.old }
    ensures each { (other : ℕ) → other < length counts.old → slice_index counts.new other
        ≡ (if place == other then min 2 (slice_index counts.old other + 1) else slice_index counts.old other) }
{
    if place < counts.len() {
        counts[place] = counts[place].saturating_add(1).min(2);
    }
}

/// The place of a name in a table of this size.
#[tactic(auto, unfolding(crate::specs::Merging::Buckets::bucket))]
fn bucket_of(name: &[u8], size: usize) -> usize
    requires { 0 < size }
    ensures { result ≡ bucket size name.now }
{
    let spread = tail_of(name).wrapping_mul(SPREAD);
    (spread.wrapping_add(name.len() as u64) % size as u64) as usize
}

/// Whether a key is the first of its kind. One that is alone at its place is, and no other key is the same, so that it isn't kept.
fn is_first<'a>(
    keys: &mut Keys<'a>,
    counts: &[u8],
    key: (&'a [u8], &'a [u8]),
) -> Result<bool, OutOfMemory>
    requires { 0 < length counts.now }
    ensures first { IfOk result (λ first. first ≡ (is_alone counts.now key.entry.0.now
        || not (list_any (is_same_pair (key.entry.0.now, key.entry.1.now)) keys.old))) }
    ensures keys { OnOk result ((other : List ℕ × List ℕ) → list_any (is_same_pair other) keys.new
        ≡ list_any (is_same_pair other) (if is_alone counts.now key.entry.0.now then keys.old
        else (key.entry.0.now, key.entry.1.now) ∷ keys.old)) }
{
    if is_alone(counts, key.0) {
        return Ok(true);
    }
    keys.add(key)
}

/// Whether just one key has the place of this name.
fn is_alone(counts: &[u8], name: &[u8]) -> bool
    requires { 0 < length counts.now }
    ensures { result ≡ is_alone counts.now name.now }
{
    match counts.get(bucket_of(name, counts.len())) {
        Some(count) => *count == 1,
        None => false,
    }
}

/// The entries that are marked, in their order.
pub fn marked<T: Drop>(
    alloc: Global,
    entries: Vec<T>,
    marks: Vec<bool>,
) -> Result<Vec<T>, OutOfMemory>
    // Each entry has a mark.
    requires { length marks.items ≡ length entries.items }
    // Exactly the marked ones are kept, in their order.
    ensures { IfOk result (λ kept. kept.items ≡ picked marks.items entries.items) }
{
    if are_all_marked(&marks) {
        return Ok(entries);
    }
    let (mut entries, mut marks) = (entries, marks);
    let mut kept = Vec::with_capacity(alloc, entries.len())?;
    while let (Some(entry), Some(mark)) = (entries.pop(), marks.pop()) {
        if mark {
            kept.push(entry)?;
        }
    }
    kept.reverse();
    Ok(kept)
}

/// Whether each entry is marked.
fn are_all_marked(marks: &[bool]) -> bool
    ensures { result ≡ list_all (λ mark. mark) marks.now }
{
    marks.iter().all(|mark| *mark)
}
