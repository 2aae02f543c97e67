//! Lookup over an index of a database, which is made once and lent to each lookup.
//!
//! It answers as [`crate::look_up_plain`] does over the database, which tries every rule. Here the rules that match a
//! name are found by an index over them, and the places of aliases and subclass pairs are known.

pub mod candidates;
pub mod database_magic;
pub mod first_line;
pub mod heads;
pub mod hits;
pub mod icons;
pub mod kept;
pub mod line_head;
pub mod line_search;
pub mod look_up;
pub mod magic_index;
pub mod magic_line;
pub mod noted_pairs;
pub mod other_pairs;
pub mod prepared_magic;
pub mod rules;
pub mod sniff;
pub mod subclass;
pub mod tables;
pub mod top_line;

ghost use Rattle.std.specs.Prelude.{◌≡◌, IfOk};

use crate::indexed::prepared_magic::{PreparedMagic, magic_of};
use crate::indexed::rules::lent_rules;
use crate::lists::Lists;
use crate::places::{PlacedPairs, places_of};
use mime_base::{Database, OutOfMemory, database_keeps_limits};
use mime_names::NameIndex;
use std::alloc::Global;
use std::marker::Model;

/// A database with what is found of it once for many lookups. This project's own.
///
/// ```
/// let mut index = IndexedDatabase::new(alloc, &database)?;
/// index.prepare_magic(alloc)?;
/// let answer = look_up_indexed(alloc, &index, b"notes.txt", &mut content, Host::Little, order)?;
/// ```
#[derive(Drop)]
pub struct IndexedDatabase<'a> {
    /// The database.
    database: &'a Database,
    /// The index of its rules, which give their types after one alias step.
    names: NameIndex<'a>,
    /// The places of its aliases and of its subclass pairs.
    pairs: PlacedPairs<'a>,
    /// Its sections of magic, once they are prepared.
    magic: Option<PreparedMagic<'a>>,
}

impl<'a> Model for IndexedDatabase<'a> {
    ghost use Rattle.mime_base.specs.declared.database.Database.{Database};
    ghost use Rattle.mime_base.specs.contracts.magic.matchlet.Matchlet as line;
    ghost use Rattle.mime_lookup.specs.Indexed.{IsIndexOf, IsPreparedMagic};
    ghost use Rattle.std.specs.Coded.{codes};
    ghost use Rattle.std.specs.Prelude.{IfSome};

    ghost Value = { Database };

    ghost coded = { Prim.hlevel (codes, line.the_row.coded) };

    ghost view = { λ index. index.database.now };

    ghost invariant = { λ index. IsIndexOf index.database.now index.names index.pairs
        × IfSome index.magic (IsPreparedMagic index.database.now) };
}

impl<'a> IndexedDatabase<'a> {
    /// The index of a database for names and types. Its time and memory grow with its rules, aliases and subclass pairs; its magic is not
    /// looked at.
    pub fn new(alloc: Global, database: &'a Database) -> Result<IndexedDatabase<'a>, OutOfMemory>
        // It is an index of this database.
        ensures { IfOk result (λ index. index ≡ database.entry.now) }
    {
        let aliases = places_of(alloc, &database.aliases)?;
        let parents = places_of(alloc, &database.parents)?;
        database_keeps_limits(database);
        let rules = lent_rules(alloc, &database.rules, &aliases)?;
        let names = NameIndex::new(alloc, rules)?;
        Ok(IndexedDatabase {
            database,
            names,
            pairs: PlacedPairs { aliases, parents },
            magic: None,
        })
    }

    /// Prepares its magic for many contents, which without that are tried on all lines. The time and the memory grow with the lines.
    pub fn prepare_magic(&mut self, alloc: Global) -> Result<(), OutOfMemory>
        // It is an index of the same database.
        ensures { self.new ≡ self.old }
    {
        self.magic = Some(magic_of(alloc, self.database)?);
        Ok(())
    }

    /// The database, to be asked by trying all of it.
    pub(crate) fn lists(&self) -> Lists<'a>
        // It is that of the index.
        ensures { result.database.now ≡ self.now }
    {
        Lists {
            database: self.database,
        }
    }
}
