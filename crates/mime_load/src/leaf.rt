//! Rules of the suffix tree.
//!
//! The bytes of an ending lie scattered in the tree, so the patterns of all rules are written one after the other, into one text.

ghost use Rattle.std.specs.Prelude.{◌≡◌, ◌++◌, ◌∷◌, ◌≤◌, [], length, map, reverse, IfErr, OnOk, option_map};
ghost use Rattle.std.specs.List.{All, slice_get};
ghost use Rattle.mime_load.specs.Lent.{plain_leaf};
ghost use Rattle.mime_load.specs.Leaves.{LiesIn, entry_pattern, plain_entry};

use crate::unread::Unread;
use std::alloc::Global;
use std::marker::Model;

/// A rule of the suffix tree. Its type lies in the cache; its pattern does for as long as the [`Leaves`] are there that it is one of.
#[derive(Clone, Copy, Debug)]
pub struct LeafRule<'p, 'a> {
    /// Its weight, from 0 to 255.
    pub weight: u8,
    /// The type that the rule gives.
    pub kind: &'a [u8],
    /// The pattern: a `*` and the ending.
    pub pattern: &'p [u8],
    /// Whether it is case-sensitive.
    pub cased: bool,
}

/// A rule of the suffix tree whose pattern lies in the text of [`LeafParts`].
#[derive(Clone, Copy, Debug)]
pub struct LeafEntry<'a> {
    /// The type that the rule gives.
    pub kind: &'a [u8],
    /// Where in the text its pattern begins.
    pub start: usize,
    /// How long its pattern is.
    pub length: u8,
    /// Its weight, from 0 to 255.
    pub weight: u8,
    /// Whether it is case-sensitive.
    pub cased: bool,
}

/// What [`Leaves`] are made of: the rules, and one text that the pattern of each lies in. This project's own.
#[derive(Debug, Drop)]
pub struct LeafParts<'a> {
    /// The rules, in their order.
    pub entries: Vec<LeafEntry<'a>>,
    /// Their patterns.
    pub patterns: Vec<u8>,
}

/// Rules of the suffix tree, in their order. This project's own.
///
/// ```text
/// let leaves = leaves_at(&source, tree, &mut taking)?;
/// // leaves.get(0) is the first of its `leaves.len()` rules
/// ```
#[derive(Debug, Drop)]
pub struct Leaves<'a> {
    /// The rules.
    entries: Vec<LeafEntry<'a>>,
    /// Their patterns.
    patterns: Vec<u8>,
}

impl<'a> Model for Leaves<'a> {
    ghost use Rattle.std.specs.Prelude.{List, map};
    ghost use Rattle.std.specs.List.{All};
    ghost use Rattle.mime_base.specs.declared.database.rule.GlobRule.{GlobRule};
    ghost use Rattle.mime_load.specs.Leaves.{LiesIn, plain_entry};

    ghost Value = { List GlobRule };

    ghost view = { λ leaves. map (plain_entry leaves.patterns.items) leaves.entries.items };

    ghost invariant = { λ leaves. All (LiesIn leaves.patterns.items) leaves.entries.items };
}

impl<'a> Leaves<'a> {
    /// No rules. It never allocates.
    pub(crate) fn none(alloc: Global) -> Leaves<'a>
        // There is none.
        ensures { result ≡ [] }
    {
        Leaves {
            entries: Vec::new(alloc),
            patterns: Vec::new(alloc),
        }
    }

    /// How many rules there are ("The mime.cache files").
    pub fn len(&self) -> usize
        // It is their number.
        ensures { result ≡ length self.now }
    {
        self.entries.len()
    }

    /// The rule at a place, counted from 0, or `None` where there are no more ("The mime.cache files").
    pub fn get(&self, place: usize) -> Option<LeafRule<'_, 'a>>
        // It is the one at that place, where there is one.
        ensures { option_map plain_leaf result ≡ slice_get self.now place }
    {
        match self.entries.get(place) {
            Some(entry) => Some(LeafRule {
                weight: entry.weight,
                kind: entry.kind,
                pattern: pattern_of(&self.patterns, entry),
                cased: entry.cased,
            }),
            None => None,
        }
    }

    /// The rules and their patterns, for one that keeps them. It copies nothing.
    pub fn into_parts(self) -> LeafParts<'a>
        // The rules are these.
        ensures rules { map (plain_entry result.patterns.items) result.entries.items ≡ self.entry }
        // The pattern of each lies whole in the text.
        ensures lie { All (LiesIn result.patterns.items) result.entries.items }
    {
        let Leaves { entries, patterns } = self;
        LeafParts { entries, patterns }
    }

    /// Puts a rule after them.
    pub(crate) fn push(&mut self, rule: LeafRule<'_, 'a>) -> Result<(), Unread>
        // Its pattern has at most 255 bytes.
        requires short { length rule.pattern.now ≤ 255 }
        // It comes after them.
        ensures pushed { OnOk result (self.new ≡ self.old ++ plain_leaf rule.entry ∷ []) }
        // Only memory is refused.
        ensures need { IfErr result (λ e. e ≡ Unread.OutOfMemory) }
    {
        let entry = LeafEntry {
            kind: rule.kind,
            start: self.patterns.len(),
            length: rule.pattern.len() as u8,
            weight: rule.weight,
            cased: rule.cased,
        };
        self.patterns.extend_from_slice(rule.pattern)?;
        self.entries.push(entry)?;
        Ok(())
    }

    /// Turns their order round.
    pub(crate) fn reverse(&mut self)
        // The last comes first.
        ensures { self.new ≡ reverse self.old }
    {
        self.entries.reverse();
    }
}

/// The pattern of a rule among those of all.
#[inline]
fn pattern_of<'p>(patterns: &'p [u8], entry: &LeafEntry<'_>) -> &'p [u8]
    // It lies there.
    requires { LiesIn patterns.now entry.now }
    // It is the rule's own.
    ensures { result.now ≡ entry_pattern patterns.now entry.now }
{
    &patterns[entry.start..entry.start + usize::from(entry.length)]
}
