//! Where the pairs of each name stand, so that a search goes through no other pairs.

ghost use Rattle.std.specs.Prelude.{◌≡◌, ◌+◌, ◌<◌, ◌++◌, get_or, length, IfOk, OnOk};
ghost use Rattle.mime_base.specs.Database.{pairs_of, plain_database};
ghost use Rattle.mime_base.specs.Database.PlainPairs.{plain_pairs};
ghost use Rattle.mime_base.specs.Database.Subclass as above;
ghost use Rattle.mime_base.specs.declared.database.pair.Pair as plain;
ghost use Rattle.mime_base.specs.Database.Subclass.{resolved};
ghost use Rattle.mime_lookup.specs.Places.{ArePlaced, IsAbove, IsPlaced, placed};

use crate::climb::Hierarchy;
use crate::name_map::{NameMap, new_map, put_value, value_of};
use crate::queue::Queue;
use mime_base::{Database, OutOfMemory, Pair};
use std::alloc::Global;

/// Some pairs, with the place of each by its name.
#[derive(Drop)]
pub struct Places<'a> {
    /// The pairs.
    pub pairs: &'a [Pair],
    /// The first place of each name.
    pub first: NameMap<'a, usize>,
    /// From the last place to the first, the next place of its name.
    pub next: Vec<Option<usize>>,
}

/// The places of the aliases and of the subclass pairs.
#[derive(Drop)]
pub struct PlacedPairs<'a> {
    /// The aliases.
    pub aliases: Places<'a>,
    /// The subclass pairs.
    pub parents: Places<'a>,
}

/// What is one step above a type.
#[derive(Clone, Copy)]
pub enum Above<'a> {
    /// It has no parent.
    Nothing,
    /// It has one, which is this type after one alias step.
    One(&'a [u8]),
    /// It has several.
    Several,
}

/// The places of some pairs.
pub fn places_of<'a>(alloc: Global, pairs: &'a [Pair]) -> Result<Places<'a>, OutOfMemory>
    // The places are of these pairs.
    ensures pairs { IfOk result (λ places. places.pairs.now ≡ pairs.entry.now) }
    // Each name has its first place, and each place the next of its name.
    ensures indexed { IfOk result IsPlaced }
{
    let mut first = new_map(alloc, pairs.len())?;
    let mut next = Vec::with_capacity(alloc, pairs.len())?;
    let mut place = pairs.len();
    while place > 0 {
        place -= 1;
        let pair = &pairs[place];
        let later = put_value(&mut first, pair.name.bytes(), place)?;
        next.push_reserved(later);
    }
    Ok(Places { pairs, first, next })
}

/// The places of all pairs of a database.
pub fn placed_pairs<'a>(
    alloc: Global,
    database: &'a Database,
) -> Result<PlacedPairs<'a>, OutOfMemory>
    // The places are of the database's pairs.
    ensures pairs { IfOk result (λ both. placed both ≡ pairs_of (plain_database database.entry.now)) }
    // They are those of all pairs.
    ensures placed { IfOk result ArePlaced }
{
    let aliases = places_of(alloc, &database.aliases)?;
    let parents = places_of(alloc, &database.parents)?;
    Ok(PlacedPairs { aliases, parents })
}

/// A type after one alias step.
// Part of each of its callers: most types are no alias, which takes less to see than a call.
#[inline(always)]
pub fn unalias_at<'a>(aliases: &Places<'a>, kind: &'a [u8]) -> &'a [u8]
    // The places are those of all pairs.
    requires indexed { IsPlaced aliases.now }
    // It is the type after one alias step.
    ensures { result.now ≡ resolved (plain_pairs aliases.now.pairs.now) kind.entry.now }
{
    match value_of(&aliases.first, kind) {
        Some(place) => target_at(aliases.pairs, place),
        None => kind,
    }
}

/// What the pair at a place points to.
fn target_at<'a>(pairs: &'a [Pair], place: usize) -> &'a [u8]
    requires within { place < length pairs.now }
    ensures { (pair : plain.Pair) → pair ≡ get_or pairs.entry.now place pair → result.now ≡ pair.target }
{
    let pair = &pairs[place];
    pair.target.bytes()
}

/// What is one step above a type, by these places.
fn above_of<'a>(both: &PlacedPairs<'a>, kind: &[u8]) -> Above<'a>
    // The places are of all pairs.
    requires placed { ArePlaced both.now }
    // It says what is above the type, unless it has several parents.
    ensures { IsAbove (above.above (placed both.now) kind.now) result }
{
    let parents = &both.parents;
    let pairs = parents.pairs;
    let Some(place) = value_of(&parents.first, kind) else {
        return Above::Nothing;
    };
    if parents.next[pairs.len() - 1 - place].is_some() {
        return Above::Several;
    }
    Above::One(unalias_at(&both.aliases, target_at(pairs, place)))
}

impl<'a> Hierarchy<'a> for PlacedPairs<'a> {
    ghost use Rattle.std.specs.Prelude.{◌≡◌};
    ghost use Rattle.mime_lookup.specs.Places.{ArePlaced, placed};

    ghost holds = { ArePlaced };

    ghost is_of = { λ both pairs. pairs ≡ placed both };

    fn above(&self, kind: &[u8]) -> Above<'a> {
        above_of(self, kind)
    }
}

/// Puts the parents of a type at the end of a queue, each after one alias step.
pub fn push_parents<'a>(
    both: &PlacedPairs<'a>,
    kind: &[u8],
    queue: &mut Queue<'a>,
) -> Result<(), OutOfMemory>
    // The places are those of all pairs.
    requires placed { ArePlaced both.now }
    // The parents that the pairs name come to the end of the queue, each after one alias step.
    ensures queue { OnOk result (queue.new ≡ queue.old ++ above.above (placed both.now) kind.now) }
    // The queue is longer by as many.
    ensures longer { OnOk result (length queue.new ≡ length queue.old
        + length (above.parents (placed both.now).parents kind.now)) }
{
    let parents = &both.parents;
    let pairs = parents.pairs;
    let mut place = value_of(&parents.first, kind);
    while let Some(here) = place {
        let pair = &pairs[here];
        queue.push_back(unalias_at(&both.aliases, pair.target.bytes()))?;
        place = parents.next[pairs.len() - 1 - here];
    }
    Ok(())
}
