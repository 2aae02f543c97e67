//! The types that a search for a subclass has still to go through. This project's own.

ghost use Rattle.std.specs.Prelude.{◌≡◌, [], ◌∷◌, ◌++◌, MatchOption, OnErr, OnOk};

use mime_base::OutOfMemory;
use std::alloc::Global;
use std::collections::VecDeque;
use std::marker::Model;

/// Types in the order in which they came.
///
/// The first that waits is held in place, so a queue in which no more than one waits at a time never allocates.
#[derive(Drop)]
pub(crate) struct Queue<'a> {
    first: Option<&'a [u8]>,
    others: VecDeque<&'a [u8]>,
}

impl<'a> Model for Queue<'a> {
    ghost use Rattle.std.specs.Prelude.{◌≡◌, ◌++◌, ℕ, List, [], MatchOption};
    ghost use Rattle.std.specs.Option.{option_to_list};
    ghost use Rattle.mime_lookup.specs.Ancestry.{kinds_of};

    ghost Value = { List (List ℕ) };

    ghost view = { λ queue. kinds_of (option_to_list queue.first ++ queue.others.items) };

    ghost invariant = { λ queue. MatchOption queue.first (queue.others.items ≡ []) (λ kind. Unit {0}) };
}

impl<'a> Queue<'a> {
    /// No types. It never allocates.
    pub(crate) fn new(alloc: Global) -> Queue<'a>
        // There are none.
        ensures { result ≡ [] }
    {
        Queue {
            first: None,
            others: VecDeque::new(alloc),
        }
    }

    /// Puts a type at the end.
    pub(crate) fn push_back(&mut self, kind: &'a [u8]) -> Result<(), OutOfMemory>
        // The type comes after all that waited.
        ensures added { OnOk result (self.new ≡ self.old ++ kind.entry.now ∷ []) }
        // Where an allocation was refused, the queue is as it was.
        ensures unchanged { OnErr result (self.new ≡ self.old) }
    {
        match self.first {
            Some(_) => self.others.push_back(kind)?,
            None => self.first = Some(kind),
        }
        Ok(())
    }

    /// Takes the first type, if one waits.
    pub(crate) fn pop_front(&mut self) -> Option<&'a [u8]>
        // It is the one that came first, and the others stay in their order; none is given only where none waits.
        ensures taken { MatchOption result ((self.old ≡ []) × (self.new ≡ [])) (λ kind. self.old ≡ kind.now ∷ self.new) }
    {
        let first = self.first;
        self.first = self.others.pop_front();
        first
    }
}
