//! An index of the aliases and the parents of a cache.

ghost use Rattle.std.specs.Prelude.{◌≡◌, ℕ, List, IfOk};
ghost use Rattle.mime_base.specs.Cache.Bytes.{Stands, field};
ghost use Rattle.mime_base.specs.Database.Subclass.{resolved};
ghost use Rattle.mime_base.specs.Format.Header.{HeaderAt, Offsets};
ghost use Rattle.mime_base.specs.Format.Pairs.{PairsAt};
ghost use Rattle.mime_load.specs.PairLists.{ArePairLists};
ghost use Rattle.mime_view.specs.Pairs.{IsUnaliased};

use crate::climb::Hierarchy;
use crate::name_map::NameMap;
use crate::places::Above;
use crate::read_back::steps::{step_of, steps_of};
use crate::read_back::targets::{target_of, targets_of};
use mime_base::{Counted, OutOfMemory};
use mime_load::PairLists;
use std::alloc::Global;
use std::marker::Model;

/// The aliases and the parents of a cache, prepared once for many types. This project's own.
#[derive(Drop)]
pub struct IndexedPairs<'a> {
    /// The bytes of the cache.
    counted: Counted<'a>,
    /// The target of each of its aliases.
    targets: NameMap<'a, &'a [u8]>,
    /// What is one step above each type that has a parent.
    steps: NameMap<'a, Above<'a>>,
    /// How many pairs of a type and a parent there are.
    count: u64,
}

impl<'a> Model for IndexedPairs<'a> {
    ghost use Rattle.std.specs.Prelude.{ℕ, List};
    ghost use Rattle.mime_lookup.specs.PairsReadBack.{AreStepsOf};
    ghost use Rattle.mime_lookup.specs.ReadBack.{AreTargetsOf};

    ghost Value = { List ℕ };

    ghost view = { λ pairs. pairs.counted };

    ghost invariant = { λ pairs. AreTargetsOf pairs.counted pairs.targets × AreStepsOf pairs.counted pairs.steps };
}

impl<'a> IndexedPairs<'a> {
    /// The index over the lists of a cache. Its time and memory grow with its aliases and parents.
    pub fn new(
        alloc: Global,
        counted: Counted<'a>,
        lists: &PairLists<'a>,
    ) -> Result<IndexedPairs<'a>, OutOfMemory>
        // The lists stand in the cache.
        requires { ArePairLists counted lists.now }
        // It is an index over this cache.
        ensures { IfOk result (λ pairs. pairs ≡ counted.entry) }
    {
        let targets = targets_of(alloc, &lists.aliases)?;
        let steps = steps_of(alloc, &lists.parents, &targets)?;
        Ok(IndexedPairs {
            counted,
            targets,
            steps,
            count: lists.parents.len() as u64,
        })
    }

    /// How many pairs of a type and a parent there are.
    pub fn count(&self) -> u64 {
        self.count
    }

    /// A type after one alias step.
    pub fn unalias<'k>(&self, kind: &'k [u8]) -> &'k [u8]
    where
        'a: 'k,
        // Where the aliases of a database stand, it is the type that this one stands for, or this one.
        ensures answer { (offsets : Offsets) (pairs : List (List ℕ × List ℕ)) → HeaderAt (Stands self.now) offsets →
            PairsAt (Stands self.now) offsets.aliases pairs → result.now ≡ resolved pairs kind.now }
        // The list of aliases lies in the cache, and it is the type itself or a text of the cache.
        ensures given { IsUnaliased self.now (field self.now 0 1) kind.now result.now }
    {
        target_of(&self.targets, kind)
    }
}

impl<'a> Hierarchy<'a> for IndexedPairs<'a> {
    ghost use Rattle.std.specs.Prelude.{◌≡◌};
    ghost use Rattle.mime_base.specs.Database.{PlainDatabase, pairs_of};
    ghost use Rattle.mime_lookup.specs.Spelling.{SpellsPairs};

    ghost holds = { λ _. Unit {0} };

    ghost is_of = { λ pairs plain. (b : PlainDatabase) × SpellsPairs pairs b × (plain ≡ pairs_of b) };

    fn above(&self, kind: &[u8]) -> Above<'a> {
        step_of(&self.steps, kind)
    }
}
