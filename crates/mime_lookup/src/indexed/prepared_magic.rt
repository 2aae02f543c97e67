//! The sections of magic of a database, prepared for many contents.

ghost use Rattle.std.specs.Prelude.{IfOk};
ghost use Rattle.mime_lookup.specs.Indexed.{IsPreparedMagic};

use crate::indexed::heads::{Heads, heads_of};
use crate::indexed::magic_line::Matchlets;
use crate::indexed::top_line::{TopLines, tops_of};
use crate::lists::limit_of;
use mime_base::{Database, Matchlet, OutOfMemory};
use std::alloc::Global;

/// Sections of magic, prepared for many contents.
#[derive(Drop)]
pub struct PreparedMagic<'a> {
    /// The top lines of the sections with their heads.
    pub heads: Heads<'a, Matchlets, &'a Matchlet>,
    /// How much of a content is read at most.
    pub limit: usize,
}

/// The magic of a database.
pub fn magic_of<'a>(alloc: Global, database: &'a Database) -> Result<PreparedMagic<'a>, OutOfMemory>
    // It is that of the database.
    ensures { IfOk result (IsPreparedMagic database.entry.now) }
{
    let TopLines { lines, extent } = tops_of(alloc, &database.sections)?;
    let heads = heads_of(alloc, Matchlets, lines)?;
    Ok(PreparedMagic {
        heads,
        limit: limit_of(extent),
    })
}
