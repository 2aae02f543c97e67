//! An index over glob rules.

ghost use Rattle.std.specs.Prelude.{◌≡◌, IfOk};
ghost use Rattle.mime_names.specs.Near.{is_mostly_general};

use crate::indexed_rule::IndexedRule;
use crate::indexed_rules::IndexedRules;
use crate::keys::{KeyTable, key_table};
use mime_base::OutOfMemory;
use std::alloc::Global;
use std::marker::Model;

/// An index over glob rules, whose types are lent. This project's own.
///
/// For each rule it has some 96 bytes, and for each row of its tree 256 bytes: at most a row a rule, and those of the last byte of all
/// patterns, with room for a row to three rules at once. The patterns themselves are lent, or stand in the text that it was given.
#[derive(Drop)]
pub struct NameIndex<'a> {
    /// The rules.
    pub(crate) rules: Vec<IndexedRule<'a>>,
    /// The text of patterns that aren't lent.
    pub(crate) patterns: Vec<u8>,
    /// The keys by which names find them.
    pub(crate) table: KeyTable,
    /// How many of them are no text and no star before a text.
    general: usize,
}

impl<'a> Model for NameIndex<'a> {
    ghost use Rattle.mime_names.specs.Index.{IsIndex, PlainIndex, plain_index};

    ghost Value = { PlainIndex };

    ghost view = { λ index. plain_index index.patterns.items index.rules.items };

    ghost invariant = { λ index. IsIndex index.patterns.items index.rules.items index.table index.general };
}

impl<'a> NameIndex<'a> {
    /// The index over some rules. Its time and memory grow with their number and their lengths.
    pub fn new(alloc: Global, rules: IndexedRules<'a>) -> Result<NameIndex<'a>, OutOfMemory>
        // It is the index over just these.
        ensures { IfOk result (λ index. index ≡ record { given = rules.entry.given; own = rules.entry.own }) }
    {
        let IndexedRules { rules, patterns } = rules;
        let (table, general) = key_table(alloc, &patterns, &rules)?;
        Ok(NameIndex {
            rules,
            patterns,
            table,
            general,
        })
    }

    /// Whether most rules are no text and no star before a text, so that a name that begins as they do is held against them all, and
    /// an index over them gains nothing.
    pub fn is_mostly_general(&self) -> bool
        // It says whether these are more than half of the rules.
        ensures { result ≡ is_mostly_general self.now.given }
    {
        self.general > self.rules.len() / 2
    }
}
