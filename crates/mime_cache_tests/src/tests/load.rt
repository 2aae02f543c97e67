//! Caches that are read back into lists, and the first part that is not.

mod damaged;
mod written;

use mime_base::{Counted, Meter};
use mime_load::{Lists, LoadFault, Part, Unread, read_back, read_names};
use std::alloc::Global;
use std::test::Fail;

/// How many members the lists have: aliases, subclasses, rules of the three lists, sections, icons and generic icons; or the first
/// part that is not read back.
type Counts = Result<[usize; 8], Part>;

/// How many members lists have.
fn counts_of(lists: &Lists<'_>) -> [usize; 8] {
    [
        lists.aliases.len(),
        lists.parents.len(),
        lists.literals.len(),
        lists.leaves.len(),
        lists.globs.len(),
        lists.magic.sections.len(),
        lists.icons.len(),
        lists.generic_icons.len(),
    ]
}

/// How many members the lists have that give types to names: aliases, and rules of the three lists; none if they are not read back.
fn name_counts(alloc: Global, cache: &[u8]) -> Result<Option<[usize; 4]>, Fail> {
    match read_names(alloc, &Counted::new(cache), &mut Meter::new()) {
        Ok(lists) => Ok(Some([
            lists.aliases.len(),
            lists.literals.len(),
            lists.leaves.len(),
            lists.globs.len(),
        ])),
        Err(Unread::NotSpelled) => Ok(None),
        Err(Unread::OutOfMemory) => Err(Fail::from(Unread::OutOfMemory)),
    }
}

/// What is read back of a cache.
fn counts(alloc: Global, cache: &[u8]) -> Result<Counts, Fail> {
    match read_back(alloc, &Counted::new(cache), &mut Meter::new()) {
        Ok(lists) => Ok(Ok(counts_of(&lists))),
        Err(LoadFault::NoDatabase(part)) => Ok(Err(part)),
        Err(LoadFault::OutOfMemory) => Err(Fail::from(LoadFault::OutOfMemory)),
    }
}
