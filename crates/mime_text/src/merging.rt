//! Merging of data directories into one database.
//!
//! Directories have an order of preference ("Directory layout", "The glob files", "The magic files").
//! A marker of one directory discards the globs, or the sections, that less preferred directories
//! give for its type; those of its own directory and of more preferred ones stay. That the first pair
//! of an alias counts, and the first icon of a type, is this project's own.
//!
//! Its work is n log n in the entries, whatever names they have.

ghost use Rattle.std.specs.Prelude.{◌≡◌, ◌++◌, IfOk, OnOk};
ghost use Rattle.mime_base.specs.Database.{plain_database};
ghost use Rattle.mime_text.specs.Merging.{merged, plain_dirs, visible_database};
ghost use Rattle.mime_text.specs.Merging.Gathering.{AddsDirectory, Gathers};

mod first;
pub mod hidden;
mod kept;
mod key;
mod priority;
pub mod twins;
mod types;

use crate::lines::globs2::GlobsFile;
use crate::lines::icons::IconsFile;
use crate::lines::pairs::PairsFile;
use crate::magic::MagicFile;
use first::first_of_each;
use hidden::visible;
use kept::Kept;
use key::{ByName, ByPair};
use mime_base::{Database, GlobRule, Icon, OutOfMemory, Pair, Section};
use priority::by_priority;
use std::alloc::Global;

/// What the files of one data directory say. A missing file says what an empty one does.
#[derive(Debug, Drop)]
pub struct DirFiles {
    /// The file `globs2`.
    pub globs: GlobsFile,
    /// The file `magic`.
    pub magic: MagicFile,
    /// The file `aliases`.
    pub aliases: PairsFile,
    /// The file `subclasses`.
    pub subclasses: PairsFile,
    /// The file `icons`.
    pub icons: IconsFile,
    /// The file `generic-icons`.
    pub generic_icons: IconsFile,
}

/// The lists of several directories, one after another.
#[derive(Drop)]
pub struct Lists {
    /// The glob rules that no marker discards.
    pub rules: Kept<GlobRule>,
    /// The sections that no marker discards.
    pub sections: Kept<Section>,
    /// All alias pairs.
    pub aliases: Vec<Pair>,
    /// All subclass pairs.
    pub subclasses: Vec<Pair>,
    /// All icons.
    pub icons: Vec<Icon>,
    /// All generic icons.
    pub generic_icons: Vec<Icon>,
}

/// Merges what directories say, the most preferred first. It fails only where an allocation is
/// refused.
///
/// ```
/// let mut dirs = Vec::new(rt.alloc());
/// dirs.push(own)?; // what /usr/local/share says
/// dirs.push(system)?; // what /usr/share says
/// let database = merge(rt.alloc(), dirs)?;
/// ```
///
/// Rules and sections are left out where a more preferred directory has a marker for their type.
/// Sections then stand by falling priority, those of one priority in their order. Of the pairs of an
/// alias, of equal subclass pairs and of the icons of a type, the first counts.
pub fn merge(alloc: Global, dirs: Vec<DirFiles>) -> Result<Database, OutOfMemory>
    // The database is the merging of what the directories say, the most preferred first.
    ensures merged { IfOk result (λ database. plain_database database ≡ merged (plain_dirs dirs.items)) }
{
    let Lists {
        rules,
        sections,
        aliases,
        subclasses,
        icons,
        generic_icons,
    } = gather(alloc, dirs)?;
    Ok(Database {
        rules: rules.items,
        aliases: first_of_each::<Pair, ByName>(alloc, aliases)?,
        parents: first_of_each::<Pair, ByPair>(alloc, subclasses)?,
        sections: by_priority(sections.items)?,
        icons: first_of_each::<Icon, ByName>(alloc, icons)?,
        generic_icons: first_of_each::<Icon, ByName>(alloc, generic_icons)?,
    })
}

/// Merges what directories say, as [`merge`] does, and leaves out the rules that are never kept.
///
/// It is what a cache is made of, and what is asked over text files. For every name the same rules are
/// kept as over [`merge`]'s database.
pub fn merge_visible(alloc: Global, dirs: Vec<DirFiles>) -> Result<Database, OutOfMemory>
    // The database is the merging of what the directories say, with the visible ones of its rules.
    ensures visible { IfOk result (λ database. plain_database database ≡ visible_database (merged (plain_dirs dirs.items))) }
{
    let database = merge(alloc, dirs)?;
    visible(alloc, database)
}

/// The lists of the directories.
fn gather(alloc: Global, dirs: Vec<DirFiles>) -> Result<Lists, OutOfMemory>
    ensures { IfOk result (λ lists. Gathers lists dirs.items) }
{
    let mut lists = Lists {
        rules: Kept::new(alloc),
        sections: Kept::new(alloc),
        aliases: Vec::new(alloc),
        subclasses: Vec::new(alloc),
        icons: Vec::new(alloc),
        generic_icons: Vec::new(alloc),
    };
    for dir in dirs {
        lists.add(alloc, dir)?;
    }
    Ok(lists)
}

impl Lists {
    /// Adds a directory that is less preferred than those before.
    fn add(&mut self, alloc: Global, dir: DirFiles) -> Result<(), OutOfMemory>
        ensures { OnOk result (AddsDirectory self.old dir self.new) }
    {
        let DirFiles {
            globs,
            magic,
            aliases,
            subclasses,
            icons,
            generic_icons,
        } = dir;
        self.rules.add(alloc, globs.rules, &globs.deleted)?;
        self.sections.add(alloc, magic.sections, &magic.deleted)?;
        append(&mut self.aliases, aliases.pairs)?;
        append(&mut self.subclasses, subclasses.pairs)?;
        append(&mut self.icons, icons.icons)?;
        append(&mut self.generic_icons, generic_icons.icons)?;
        Ok(())
    }
}

/// Appends items to a list. An empty list becomes the items, so that none is moved.
fn append<T: Drop>(list: &mut Vec<T>, items: Vec<T>) -> Result<(), OutOfMemory>
    ensures { OnOk result (list.new.items ≡ list.old.items ++ items.items) }
{
    if list.is_empty() {
        *list = items;
        return Ok(());
    }
    let mut items = items;
    list.append(&mut items)?;
    Ok(())
}
