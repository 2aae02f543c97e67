//! An index over the glob rules of a cache.

ghost use Rattle.std.specs.Prelude.{◌≡◌, ◌≤◌, ℕ, All, List, length, IfOk};
ghost use Rattle.mime_base.specs.Cache.Bytes.{Stands, field};
ghost use Rattle.mime_base.specs.Database.{PlainDatabase};
ghost use Rattle.mime_base.specs.Database.Subclass.{resolved};
ghost use Rattle.mime_base.specs.Format.Header.{HeaderAt, Offsets};
ghost use Rattle.mime_base.specs.Format.Pairs.{PairsAt};
ghost use Rattle.mime_base.specs.Kept.{FitsRank};
ghost use Rattle.mime_base.specs.declared.database.rule.GlobRule.{GlobRule};
ghost use Rattle.mime_load.specs.NameLists.{AreNameLists};
ghost use Rattle.mime_lookup.specs.Cached.{IsCacheText};
ghost use Rattle.mime_lookup.specs.ReadBack.{AreTypesOf};
ghost use Rattle.mime_lookup.specs.Spelling.{SpellsGlobs};
ghost use Rattle.mime_names.specs.Index.{held_types};
ghost use Rattle.mime_view.specs.NameHits.{SpellsRules};
ghost use Rattle.mime_view.specs.Pairs.{IsUnaliased};
ghost use Rattle.mime_view.specs.RuleHits.{AreRuleHits, types_alone};

use crate::hits::hits_of;
use crate::name_map::NameMap;
use crate::read_back::rules::unaliased_rules;
use crate::read_back::spelled_once::spelled_once;
use crate::read_back::targets::{target_of, targets_of};
use mime_base::{Counted, Meter, OutOfMemory};
use mime_load::NameLists;
use mime_names::{KeptTypes, NameIndex, candidate_kinds, kept_types};
use mime_view::{NameHits, RuleHits, Texts, Which};
use std::alloc::Global;
use std::marker::Model;

/// The glob rules of a cache, with what is found of them once for many names. This project's own.
///
/// ```text
/// let lists = read_names(alloc, &counted, &mut meter)?;
/// let names = IndexedNames::new(alloc, counted, lists)?;
/// ```
#[derive(Drop)]
pub struct IndexedNames<'a> {
    /// The bytes of the cache.
    counted: Counted<'a>,
    /// The index of its rules, which give their types after one alias step.
    index: NameIndex<'a>,
    /// The target of each of its aliases.
    targets: NameMap<'a, &'a [u8]>,
}

impl<'a> Model for IndexedNames<'a> {
    ghost use Rattle.std.specs.Prelude.{ℕ, List};
    ghost use Rattle.mime_lookup.specs.ReadBack.{AreRulesReadBack, AreTargetsOf};

    ghost Value = { List ℕ };

    ghost view = { λ names. names.counted };

    ghost invariant = { λ names. AreRulesReadBack names.counted names.index × AreTargetsOf names.counted names.targets };
}

impl<'a> IndexedNames<'a> {
    /// The index over the lists of a cache. Its time and memory grow with its rules and aliases.
    pub fn new(
        alloc: Global,
        counted: Counted<'a>,
        lists: NameLists<'a>,
    ) -> Result<IndexedNames<'a>, OutOfMemory>
        // The lists stand in the cache.
        requires { AreNameLists counted lists }
        // It is an index over this cache.
        ensures { IfOk result (λ names. names ≡ counted.entry) }
    {
        let targets = targets_of(alloc, &lists.aliases)?;
        let rules = unaliased_rules(alloc, lists, &targets)?;
        let index = NameIndex::new(alloc, rules)?;
        Ok(IndexedNames {
            counted,
            index,
            targets,
        })
    }

    /// Whether most rules are general patterns, so that a walk of them is as quick.
    pub fn is_mostly_general(&self) -> bool {
        self.index.is_mostly_general()
    }

    /// A type after one alias step.
    pub fn unalias<'k>(&self, kind: &'k [u8]) -> &'k [u8]
    where
        'a: 'k,
        // Where the aliases of a database stand, it is the type that this one stands for, or this one.
        ensures answer { (offsets : Offsets) (pairs : List (List ℕ × List ℕ)) → HeaderAt (Stands self.now) offsets →
            PairsAt (Stands self.now) offsets.aliases pairs → result.now ≡ resolved pairs kind.now }
        // The list of aliases lies in the cache, and it is the type itself or a text of the cache.
        ensures given { IsUnaliased self.now (field self.now 0 1) kind.now result.now }
    {
        target_of(&self.targets, kind)
    }

    /// The types of the rules of a name that are asked for, each after one alias step, and how many of these are kept.
    pub fn types(
        &self,
        alloc: Global,
        name: &[u8],
        which: Which,
    ) -> Result<NameHits<'a>, OutOfMemory>
        // Where the glob rules of a database stand, they are these.
        ensures gives { (b : PlainDatabase) → SpellsGlobs self.now b → IfOk result (AreTypesOf which b name.now) }
        // They are texts of the cache.
        ensures text { IfOk result (λ hits. All (IsCacheText self.now) hits.kinds) }
        // No more of them are kept than there are.
        ensures front { IfOk result (λ hits. hits.kept ≤ length hits.kinds) }
    {
        spelled_once();
        match which {
            Which::Kept => {
                let types = kept_types(alloc, &self.index, name, &mut Meter::new())?;
                Ok(kept_hits(types))
            }
            Which::Candidates => {
                let all = candidate_kinds(alloc, &self.index, name, &mut Meter::new())?;
                Ok(NameHits {
                    kinds: Texts::of(all.kinds),
                    kept: all.kept,
                })
            }
        }
    }

    /// All rules that match a name, by falling rank, each with its type as the cache has it, and how many of these are kept.
    pub fn rule_hits(&self, alloc: Global, name: &[u8]) -> Result<RuleHits<'a>, OutOfMemory>
        // Where these rules stand, they are those that match.
        ensures gives { (rules : List GlobRule) → SpellsRules self.now rules → All FitsRank rules →
            IfOk result (AreRuleHits name.now rules) }
        // Their types are texts of the cache.
        ensures text { IfOk result (λ hits. All (IsCacheText self.now) (types_alone hits).kinds) }
        // No more of them are kept than there are.
        ensures front { IfOk result (λ hits. hits.kept ≤ length hits.rules.items) }
    {
        hits_of(alloc, &self.index, name, &mut Meter::new())
    }
}

/// The types that are kept, all of which are.
#[inline(always)]
fn kept_hits<'a>(types: KeptTypes<'a>) -> NameHits<'a>
    ensures kinds { result.kinds ≡ held_types types.entry }
    ensures kept { result.kept ≡ length result.kinds }
{
    match types {
        KeptTypes::One(kind) => NameHits {
            kinds: Texts::one(kind),
            kept: 1,
        },
        KeptTypes::Others(kinds) => {
            let kept = kinds.len();
            NameHits {
                kinds: Texts::of(kinds),
                kept,
            }
        }
    }
}
