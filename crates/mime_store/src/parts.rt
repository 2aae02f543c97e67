//! The parts of a database, each in the order in which a cache holds it.

ghost use Rattle.std.specs.Prelude.{IfOk};
ghost use Rattle.mime_store.specs.Parts.{AreParts};

use crate::ending::Ending;
use crate::pairs::{sort_pairs, texts_of_icons, texts_of_pairs};
use crate::rules::{glob_rules, literal_rules, sort_rules};
use crate::stored_rule::StoredRule;
use crate::suffix_tree::{endings, sort_endings};
use crate::text_pair::TextPair;
use mime_base::{Database, OutOfMemory};
use std::alloc::Global;

/// The members of each list of a cache but those of magic, sorted where the list is.
#[derive(Drop)]
pub struct Parts<'a> {
    pub aliases: Vec<TextPair<'a>>,
    pub parents: Vec<TextPair<'a>>,
    pub literals: Vec<StoredRule<'a>>,
    pub endings: Vec<Ending<'a>>,
    pub globs: Vec<StoredRule<'a>>,
    pub icons: Vec<TextPair<'a>>,
    pub generic_icons: Vec<TextPair<'a>>,
}

/// The parts of a database.
pub fn parts_of(alloc: Global, database: &Database) -> Result<Parts<'_>, OutOfMemory>
    // Each part holds just what the database has of it, in the order of the cache.
    ensures { IfOk result (λ parts. AreParts parts database.now) }
{
    let mut aliases = texts_of_pairs(alloc, &database.aliases)?;
    sort_pairs(&mut aliases)?;
    let mut parents = texts_of_pairs(alloc, &database.parents)?;
    sort_pairs(&mut parents)?;
    let mut literals = literal_rules(alloc, &database.rules)?;
    sort_rules(&mut literals)?;
    let mut endings = endings(alloc, &database.rules)?;
    sort_endings(&mut endings)?;
    let globs = glob_rules(alloc, &database.rules)?;
    let mut icons = texts_of_icons(alloc, &database.icons)?;
    sort_pairs(&mut icons)?;
    let mut generic_icons = texts_of_icons(alloc, &database.generic_icons)?;
    sort_pairs(&mut generic_icons)?;
    Ok(Parts {
        aliases,
        parents,
        literals,
        endings,
        globs,
        icons,
        generic_icons,
    })
}
