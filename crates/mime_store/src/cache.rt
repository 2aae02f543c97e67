//! The whole cache.
//!
//! It is written from the bottom: what a record points to stands before the record, so that each offset is
//! known when it is written. The 40 bytes of the header are kept free first and written last.

ghost use Rattle.std.specs.Prelude.{◌≡◌, ◌+◌, ◌^◌, ◌<◌, ◌≤◌, length, map, min, nat_le, IfErr, IfOk, MatchOption};
ghost use Rattle.mime_base.specs.Database.{plain_database};
ghost use Rattle.mime_base.specs.Format.Packed.{Packed};
ghost use Rattle.mime_base.specs.Format.Room.{room};
ghost use Rattle.mime_base.specs.Format.Runs.{AreRuns};
ghost use Rattle.mime_base.specs.Format.Spells.{Spells, cache_limit};
ghost use Rattle.mime_store.specs.Namespaces.{HasNoNamespaces};
ghost use Rattle.mime_store.specs.Parts.{AreParts, parts_room};
ghost use Rattle.mime_store.specs.Runs.{plain_run};
ghost use Rattle.mime_store.specs.Views.{pair_texts};

use crate::bound::is_bounded;
use crate::bytes::{append_list, append_zeros, patch};
use crate::fault::StoreFault;
use crate::list::{take_list, write_list};
use crate::magic::write_magic;
use crate::parents::runs;
use crate::parts::{Parts, parts_of};
use crate::room::{FIXED_ROOM, take_tree};
use crate::run::Run;
use crate::suffix_tree::write_tree;
use crate::text_pair::TextPair;
use mime_base::{Database, LARGEST_CACHE, OutOfMemory};
use std::alloc::Global;

/// The version 1.2: two numbers of 16 bits, as one of 32.
const VERSION: u32 = 65_538;

/// The bytes of the header.
const HEADER_LENGTH: usize = 40;

/// The cache that spells a database, of at most `limit` bytes ("The mime.cache files").
///
/// ```
/// let database = Database::of_rules(rt.alloc(), rules);
/// let cache = write_cache(rt.alloc(), &database, LARGEST_CACHE)?;
/// assert_eq!(rt; &cache[..4], b"\0\x01\0\x02");
/// ```
///
/// It is refused as [`StoreFault::TooLarge`] where the database, its texts not shared, takes more than
/// `limit` bytes, or than the 268,435,456 that a cache may have.
pub fn write_cache(alloc: Global, database: &Database, limit: usize) -> Result<Vec<u8>, StoreFault>
    // The bytes spell the database: each part, read by the format's own definition, says just what the database does.
    ensures spells { IfOk result (λ cache. Spells cache.items (plain_database database.now)) }
    // The records that a reader may visit, and the values, take no more bytes than the cache has.
    ensures packed { IfOk result (λ cache. Packed cache.items (plain_database database.now)) }
    // The list of namespaces is empty.
    ensures no_namespaces { IfOk result (λ cache. HasNoNamespaces cache.items) }
    // The cache has at most the bytes that the database takes where no text is shared.
    ensures long { IfOk result (λ cache. length cache.items ≤ room (plain_database database.now)) }
    // There is a cache only where the database takes at most the limit, and at most 268,435,456 bytes.
    ensures fits { IfOk result (λ cache. room (plain_database database.now) ≤ min limit cache_limit) }
    // A database is too large only where it takes more than the limit, or more than 268,435,456 bytes.
    ensures too_large { IfErr result
        (λ fault. fault ≡ StoreFault.TooLarge → min limit cache_limit < room (plain_database database.now)) }
{
    let parts = parts_of(alloc, database)?;
    let runs = runs(alloc, &parts.parents)?;
    let Some(size) = size_within(lesser(limit, LARGEST_CACHE), database, &parts, &runs) else {
        return Err(StoreFault::TooLarge);
    };
    let cache = write_parts(alloc, size, database, &parts, &runs)?;
    Ok(cache)
}

/// Whether a database fits in a cache of at most `limit` bytes, which is then not refused as [`StoreFault::TooLarge`].
///
/// Nothing is allocated where a bound says that it does.
pub fn fits_in_cache(alloc: Global, database: &Database, limit: usize) -> Result<bool, OutOfMemory>
    // It fits exactly where it takes at most the limit, and at most 268,435,456 bytes.
    ensures { IfOk result (λ fits. fits ≡ nat_le (room (plain_database database.now)) (min limit cache_limit)) }
{
    let limit = lesser(limit, LARGEST_CACHE);
    if is_bounded(limit, database) {
        return Ok(true);
    }
    let parts = parts_of(alloc, database)?;
    let runs = runs(alloc, &parts.parents)?;
    Ok(size_within(limit, database, &parts, &runs).is_some())
}

fn lesser(left: usize, right: usize) -> usize
    ensures { result ≡ min left right }
{
    if left < right { left } else { right }
}

/// How many bytes a database takes, where they are at most the limit.
fn size_within(
    limit: usize,
    database: &Database,
    parts: &Parts<'_>,
    runs: &[Run<'_, '_>],
) -> Option<usize>
    requires parts { AreParts parts.now database.now }
    requires runs { AreRuns (map plain_run runs.now) (map pair_texts parts.now.parents.items) }
    requires small { limit < 2 ^ 32 }
    ensures { MatchOption result (limit < room (plain_database database.now))
        (λ size. (size ≡ room (plain_database database.now)) × (size ≤ limit)) }
{
    let left = take_room(limit, database, parts, runs)?;
    Some(limit - left)
}

fn take_room(
    left: usize,
    database: &Database,
    parts: &Parts<'_>,
    runs: &[Run<'_, '_>],
) -> Option<usize>
    requires { left < 2 ^ 32 }
    ensures { MatchOption result (left < parts_room parts.now runs.now database.now.sections.items)
        (λ rest. rest + parts_room parts.now runs.now database.now.sections.items ≡ left) }
{
    let left = left.checked_sub(FIXED_ROOM)?;
    let left = take_list::<2, TextPair<'_>>(left, &parts.aliases)?;
    let left = take_list(left, runs)?;
    let left = take_list(left, &parts.literals)?;
    let left = take_tree(left, &parts.endings)?;
    let left = take_list(left, &parts.globs)?;
    let left = take_list(left, &database.sections)?;
    let left = take_list::<2, TextPair<'_>>(left, &parts.icons)?;
    take_list::<2, TextPair<'_>>(left, &parts.generic_icons)
}

/// The parts, and then the header in the place that was kept for it; they are `size` bytes.
#[tactic(auto, using(crate::proofs::BytesLemmas::Written::grew_length, crate::proofs::CacheLemmas::Spelling::kept_length))]
fn write_parts(
    alloc: Global,
    size: usize,
    database: &Database,
    parts: &Parts<'_>,
    runs: &[Run<'_, '_>],
) -> Result<Vec<u8>, OutOfMemory>
    requires parts { AreParts parts.now database.now }
    requires runs { AreRuns (map plain_run runs.now) (map pair_texts parts.now.parents.items) }
    requires room { parts_room parts.now runs.now database.now.sections.items ≤ cache_limit }
    ensures spells { IfOk result (λ cache. Spells cache.items (plain_database database.now)) }
    ensures packed { IfOk result (λ cache. Packed cache.items (plain_database database.now)) }
    ensures no_namespaces { IfOk result (λ cache. HasNoNamespaces cache.items) }
    ensures long { IfOk result (λ cache. length cache.items ≡ room (plain_database database.now)) }
{
    let mut out = Vec::with_capacity(alloc, size)?;
    append_zeros(&mut out, HEADER_LENGTH)?;
    let aliases = write_list::<2, TextPair<'_>>(alloc, &mut out, &parts.aliases)?;
    let parents = write_list(alloc, &mut out, runs)?;
    let literals = write_list(alloc, &mut out, &parts.literals)?;
    let tree = write_tree(alloc, &mut out, &parts.endings)?;
    let globs = write_list(alloc, &mut out, &parts.globs)?;
    let magic = write_magic(alloc, &mut out, &database.sections)?;
    let namespaces = append_list(&mut out, 0, &[])?;
    let icons = write_list::<2, TextPair<'_>>(alloc, &mut out, &parts.icons)?;
    let generic_icons = write_list::<2, TextPair<'_>>(alloc, &mut out, &parts.generic_icons)?;
    patch(
        &mut out,
        &[
            VERSION,
            aliases,
            parents,
            literals,
            tree,
            globs,
            magic,
            namespaces,
            icons,
            generic_icons,
        ],
    );
    Ok(out)
}
