//! Which entries of the parent list were expanded. This project's own.

ghost use Rattle.std.specs.Prelude.{◌≡◌, [], IfErr, OnErr, OnOk};
ghost use Rattle.mime_view.specs.Parents.{has_place, with_place};

use crate::fault::CacheFault;
use std::alloc::Global;
use std::collections::BTreeSet;
use std::marker::Model;

/// A set of places of entries of the parent list.
///
/// The first that is added needs no allocation. The others are in a tree, and not in a table, since a cache could
/// choose places whose hashes are equal.
#[derive(Drop)]
pub struct Marks {
    first: Option<u32>,
    others: BTreeSet<u32>,
}

impl Model for Marks {
    ghost use Rattle.std.specs.Prelude.{◌≡◌, ℕ, List, [], MatchOption};
    ghost use Rattle.mime_view.specs.Parents.{with_first};

    ghost Value = { List ℕ };

    ghost view = { λ marks. with_first marks.first marks.others.keys };

    ghost invariant = { λ marks. MatchOption marks.first (marks.others.keys ≡ []) (λ place. Unit {0}) };
}

impl Marks {
    /// No places. It never allocates.
    pub fn new(alloc: Global) -> Marks
        // There are none.
        ensures { result ≡ [] }
    {
        Marks {
            first: None,
            others: BTreeSet::new(alloc),
        }
    }

    /// Whether a place is in the set.
    pub fn contains(&self, place: u32) -> bool
        // Whether the place was added.
        ensures { result ≡ has_place self.now place }
    {
        match self.first {
            Some(first) => place == first || self.others.contains(&place),
            None => false,
        }
    }

    /// Adds a place.
    pub(crate) fn add(&mut self, place: u32) -> Result<(), CacheFault>
        // The place is among the marks, and the others stay.
        ensures added { OnOk result (self.new ≡ with_place self.old place) }
        // Before a fault nothing is marked.
        ensures unchanged { OnErr result (self.new ≡ self.old) }
        // Only memory can be short.
        ensures fault { IfErr result (λ e. e ≡ CacheFault.OutOfMemory) }
    {
        match self.first {
            Some(_) => {
                self.others.insert(place)?;
            }
            None => self.first = Some(place),
        }
        Ok(())
    }
}
