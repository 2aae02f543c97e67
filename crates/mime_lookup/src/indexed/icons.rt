//! The icons of types, over an index of a database's lists ("Directory layout").

ghost use Rattle.std.specs.Prelude.{◌≡◌, IfOk};
ghost use Rattle.mime_base.specs.Database.{plain_database};
ghost use Rattle.mime_base.specs.Database.PlainPairs as plain;
ghost use Rattle.mime_load.specs.Lent.{plain_pairs};
ghost use Rattle.mime_lookup.specs.Icons.{icons_of, plain_icons_of};

use crate::cached::icons::Icons;
use crate::icon_index::IconIndex;
use mime_base::{Database, Icon, Meter, OutOfMemory, Pair, TypeName};
use mime_load::{IconLists, LentPair};
use std::alloc::Global;
use std::marker::Model;

/// The icons of a database, with what is found of them once for many types. This project's own.
///
/// ```
/// let icons = DatabaseIcons::new(alloc, &database)?;
/// let found = icon_of_indexed(alloc, &icons, &kind)?;
/// ```
#[derive(Drop)]
pub struct DatabaseIcons<'a> {
    /// The database.
    database: &'a Database,
    /// Its aliases and its icons.
    index: IconIndex<'a>,
}

impl<'a> Model for DatabaseIcons<'a> {
    ghost use Rattle.mime_base.specs.declared.database.Database.{Database};
    ghost use Rattle.mime_base.specs.contracts.magic.matchlet.Matchlet as line;
    ghost use Rattle.mime_lookup.specs.IconsReadBack.{AreIconsIn};
    ghost use Rattle.std.specs.Coded.{codes};

    ghost Value = { Database };

    ghost coded = { Prim.hlevel (codes, line.the_row.coded) };

    ghost view = { λ icons. icons.database.now };

    ghost invariant = { λ icons. AreIconsIn icons.database.now icons.index };
}

impl<'a> DatabaseIcons<'a> {
    /// The index of a database's aliases and icons; its other lists are not looked at. Its time and memory grow with these.
    pub fn new(alloc: Global, database: &'a Database) -> Result<DatabaseIcons<'a>, OutOfMemory>
        // It is an index of this database.
        ensures { IfOk result (λ icons. icons ≡ database.entry.now) }
    {
        let lists = IconLists {
            aliases: lent_pairs(alloc, &database.aliases)?,
            icons: lent_icons(alloc, &database.icons)?,
            generic_icons: lent_icons(alloc, &database.generic_icons)?,
        };
        let index = IconIndex::new(alloc, &lists)?;
        Ok(DatabaseIcons { database, index })
    }
}

/// The names of a type's icons, over an index ("Directory layout").
///
/// The type is resolved by one alias step first. Where the database names no icon, it is the type with `-` for each `/`; where it names
/// no generic icon, it is what stands before the type's first `/` and `-x-generic`. That is this project's own. The meter counts nothing.
pub fn icon_of_indexed(
    alloc: Global,
    icons: &DatabaseIcons<'_>,
    kind: &TypeName,
) -> Result<Icons, OutOfMemory>
    // These are the icons of the type.
    ensures answer { IfOk result (λ found. plain_icons_of found ≡ icons_of (plain_database icons.now) kind.now) }
    // Nothing is counted.
    ensures counts { IfOk result (λ found. found.meter ≡ record { nodes = 0; bytes = 0 }) }
{
    let (icon, generic) = icons.index.names_of(alloc, kind.bytes())?;
    Ok(Icons {
        icon,
        generic,
        meter: Meter::new(),
    })
}

/// Pairs of types, lent.
fn lent_pairs<'a>(alloc: Global, pairs: &'a [Pair]) -> Result<Vec<LentPair<'a>>, OutOfMemory>
    ensures { IfOk result (λ lent. plain_pairs lent.items ≡ plain.plain_pairs pairs.entry.now) }
{
    let mut lent = Vec::with_capacity(alloc, pairs.len())?;
    for pair in pairs {
        lent.push_reserved(LentPair {
            name: pair.name.bytes(),
            target: pair.target.bytes(),
        });
    }
    Ok(lent)
}

/// Types with the names of their icons, lent.
fn lent_icons<'a>(alloc: Global, icons: &'a [Icon]) -> Result<Vec<LentPair<'a>>, OutOfMemory>
    ensures { IfOk result (λ lent. plain_pairs lent.items ≡ plain.plain_icons icons.entry.now) }
{
    let mut lent = Vec::with_capacity(alloc, icons.len())?;
    for icon in icons {
        lent.push_reserved(LentPair {
            name: icon.kind.bytes(),
            target: icon.name.bytes(),
        });
    }
    Ok(lent)
}
