//! The icons of a type, by a cache ("The mime.cache files").

ghost use Rattle.std.specs.Prelude.{◌≡◌, ◌*◌, ◌<◌, ◌==◌, ◌++◌, codes, length, option_map, position};
ghost use Rattle.std.specs.Prelude.{IfErr, IfOk, IfSome, OnOk};
ghost use Rattle.mime_lookup.specs.Asking.{KeepsAsking, StopsAsking};
ghost use Rattle.mime_lookup.specs.Cached.{cause_of};
ghost use Rattle.mime_lookup.specs.Icons.{AnswersIcons, HasIconLists, plain_icons_of};
ghost use Rattle.mime_lookup.specs.Icons.{before_slash, generic_of_media, hyphen_for_slash, name_or, with_hyphens};
ghost use Rattle.mime_lookup.specs.Spelling.{SpellsIcons};
ghost use Rattle.mime_lookup.specs.StepFaults.{IsIconFault};
ghost use Rattle.mime_view.specs.Spending.{Looks};

use crate::cached::indexed_cache::IndexedCache;
use crate::stopped::{Cause, Stopped};
use mime_base::{Counted, Meter, OutOfMemory, TypeName};
use mime_view::CacheFault;
use smallvec::SmallVec;
use std::alloc::Global;

/// How the name of a generic icon ends that is made of a type.
const GENERIC: &[u8] = b"-x-generic";

/// Names of icons of at most that many bytes need no allocation.
const SHORT_NAME: usize = 48;

/// The name of an icon, which lies in the value itself where it is short.
pub type IconText = SmallVec<u8, SHORT_NAME>;

/// The icons of a type, and what it took to find them.
#[derive(Debug, Drop)]
pub struct Icons {
    /// The name of the type's icon.
    pub icon: IconText,
    /// The name of the icon that stands for the type and those like it.
    pub generic: IconText,
    /// What was looked at.
    pub meter: Meter,
}

/// The names of a type's icons, by a cache ("The mime.cache files").
///
/// The type is resolved by one alias step first. Where the cache names no icon, it is the type with `-` for
/// each `/`; where it names no generic icon, it is what stands before the type's first `/` and `-x-generic`.
/// That is this project's own. [`Cause::Cache`] says what is wrong with the cache, where one of the three lists
/// does not lie in it or a text does not stand; no content is read.
pub fn icon_of<'a>(alloc: Global, cache: Counted<'a>, kind: &'a TypeName) -> Result<Icons, Stopped>
    // Where the aliases and both lists of icons stand, these are the icons of the type.
    ensures answer { AnswersIcons plain_icons_of cache.entry kind.entry.now result }
    // For an answer all three lists lie in the cache.
    ensures lists { OnOk result (HasIconLists cache.entry) }
    // Why it stops: where the aliases and both lists of icons of a database stand, only for memory.
    ensures stops { StopsAsking (λ stopped. stopped.cause) cache.entry (IsIconFault cache.entry) (SpellsIcons cache.entry) result }
    // No content is read.
    ensures read { IfErr result (λ stopped. stopped.read ≡ 0) }
    // Whatever the bytes are, the nodes and the bytes keep to the bounds of an empty name without content.
    ensures bounds { KeepsAsking (λ icons. icons.meter) cache.entry result }
{
    let mut meter = Meter::new();
    match open_and_find(alloc, cache, kind.bytes(), &mut meter) {
        Ok((icon, generic)) => Ok(Icons {
            icon,
            generic,
            meter,
        }),
        Err(fault) => Err(Stopped {
            cause: Cause::from(fault),
            read: 0,
            meter,
        }),
    }
}

/// [`icon_of`] over a cache that was opened once, for many types, given as their bytes.
pub fn icon_again<'k, 'a: 'k>(
    alloc: Global,
    indexed: &IndexedCache<'a>,
    kind: &'k [u8],
) -> Result<Icons, Stopped>
    // Where the aliases and both lists of icons stand, these are the icons of the type.
    ensures answer { AnswersIcons plain_icons_of indexed.now kind.entry.now result }
    // For an answer all three lists lie in the cache.
    ensures lists { OnOk result (HasIconLists indexed.now) }
    // Why it stops: where the aliases and both lists of icons of a database stand, only for memory.
    ensures stops { StopsAsking (λ stopped. stopped.cause) indexed.now (IsIconFault indexed.now) (SpellsIcons indexed.now) result }
    // No content is read.
    ensures read { IfErr result (λ stopped. stopped.read ≡ 0) }
    // Whatever the bytes are, the nodes and the bytes keep to the bounds of an empty name without content.
    ensures bounds { KeepsAsking (λ icons. icons.meter) indexed.now result }
{
    let mut meter = Meter::new();
    meter.add_node();
    match find_icons(alloc, indexed, kind, &mut meter) {
        Ok((icon, generic)) => Ok(Icons {
            icon,
            generic,
            meter,
        }),
        Err(fault) => Err(Stopped {
            cause: Cause::from(fault),
            read: 0,
            meter,
        }),
    }
}

/// The names of the icon and of the generic icon of a type.
#[tactic(auto, using(crate::proofs::StopLemmas::OpenFaults::opens_without_fault))]
fn open_and_find<'a>(
    alloc: Global,
    cache: Counted<'a>,
    kind: &'a [u8],
    meter: &mut Meter,
) -> Result<(IconText, IconText), CacheFault>
    // Where the aliases and both lists of icons stand, these are the icons of the type.
    ensures answer { AnswersIcons (λ icons. record { icon = icons.0.items; generic = icons.1.items })
        cache.entry kind.entry.now result }
    // For an answer all three lists lie in the cache.
    ensures lists { OnOk result (HasIconLists cache.entry) }
    // Why it stops: where the aliases and both lists of icons of a database stand, only for memory.
    ensures stops { StopsAsking cause_of cache.entry (IsIconFault cache.entry) (SpellsIcons cache.entry) result }
    // It visits the header, and at most 29 records of each list, with a text for each.
    ensures cost { Looks 88 (256 * 87) meter.old meter.new }
{
    let indexed = IndexedCache::open(cache, meter)?;
    find_icons(alloc, &indexed, kind, meter)
}

/// The same over an opened cache, by the icons that were read back, where they were.
// Part of each of its two callers.
#[inline(always)]
fn find_icons<'k, 'a: 'k>(
    alloc: Global,
    indexed: &IndexedCache<'a>,
    kind: &'k [u8],
    meter: &mut Meter,
) -> Result<(IconText, IconText), CacheFault>
    // Where the aliases and both lists of icons stand, these are the icons of the type.
    ensures answer { AnswersIcons (λ icons. record { icon = icons.0.items; generic = icons.1.items })
        indexed.now kind.entry.now result }
    // For an answer all three lists lie in the cache.
    ensures lists { OnOk result (HasIconLists indexed.now) }
    // Why it stops: where the aliases and both lists of icons of a database stand, only for memory.
    ensures stops { StopsAsking cause_of indexed.now (IsIconFault indexed.now) (SpellsIcons indexed.now) result }
    // It visits at most 29 records of each list, with a text for each.
    ensures cost { Looks 87 (256 * 87) meter.old meter.new }
{
    match indexed.icons() {
        Some(icons) => Ok(icons.names_of(alloc, kind)?),
        None => walk(alloc, indexed, kind, meter),
    }
}

/// The same by a walk of the cache.
// Part of its caller, as that is.
#[inline(always)]
fn walk<'k, 'a: 'k>(
    alloc: Global,
    indexed: &IndexedCache<'a>,
    kind: &'k [u8],
    meter: &mut Meter,
) -> Result<(IconText, IconText), CacheFault>
    // Where the aliases and both lists of icons stand, these are the icons of the type.
    ensures answer { AnswersIcons (λ icons. record { icon = icons.0.items; generic = icons.1.items })
        indexed.now kind.entry.now result }
    // For an answer all three lists lie in the cache.
    ensures lists { OnOk result (HasIconLists indexed.now) }
    // Why it stops: where the aliases and both lists of icons of a database stand, only for memory.
    ensures stops { StopsAsking cause_of indexed.now (IsIconFault indexed.now) (SpellsIcons indexed.now) result }
    // It visits at most 29 records of each list, with a text for each.
    ensures cost { Looks 87 (256 * 87) meter.old meter.new }
{
    let mut budget = indexed.budget();
    let kind = indexed.unalias(kind, meter, &mut budget)?;
    let cache = indexed.cache();
    let icon = cache.icon(kind, meter, &mut budget)?;
    let generic = cache.generic_icon(kind, meter, &mut budget)?;
    let icon = icon_or_hyphens(alloc, icon, kind)?;
    let generic = generic_or_media(alloc, generic, kind)?;
    Ok((icon, generic))
}

/// The icon's name, else the type with a hyphen for each slash.
// Part of each of its callers, as what it calls for a short name is, so that the name is moved less often.
#[inline(always)]
pub fn icon_or_hyphens(
    alloc: Global,
    icon: Option<&[u8]>,
    kind: &[u8],
) -> Result<IconText, OutOfMemory>
    // It is that name, or the type with a hyphen for each slash.
    ensures { IfOk result (λ name. name.items ≡ name_or (option_map (λ text. text.now) icon.entry) (with_hyphens kind.now)) }
{
    match icon {
        Some(name) => text_of(alloc, name),
        None => with_hyphens(alloc, kind),
    }
}

/// A copy of a name.
#[inline(always)]
fn text_of(alloc: Global, name: &[u8]) -> Result<IconText, OutOfMemory>
    ensures { IfOk result (λ text. text.items ≡ name.now) }
{
    if SHORT_NAME < name.len() {
        return Ok(SmallVec::from_slice(alloc, name)?);
    }
    let mut room = [0; SHORT_NAME];
    room[..name.len()].copy_from_slice(name);
    Ok(SmallVec::from_buf_and_len(alloc, room, name.len()))
}

/// The type with a hyphen for each slash. All of the room has them put at once, since its size is known.
#[inline(always)]
fn with_hyphens(alloc: Global, kind: &[u8]) -> Result<IconText, OutOfMemory>
    ensures { IfOk result (λ name. name.items ≡ with_hyphens kind.now) }
{
    if SHORT_NAME < kind.len() {
        return Ok(long_with_hyphens(alloc, kind)?);
    }
    let mut room = [0; SHORT_NAME];
    room[..kind.len()].copy_from_slice(kind);
    put_hyphens(&mut room);
    Ok(SmallVec::from_buf_and_len(alloc, room, kind.len()))
}

/// The same of a long type.
#[cold]
#[inline(never)]
fn long_with_hyphens(alloc: Global, kind: &[u8]) -> Result<IconText, OutOfMemory>
    ensures { IfOk result (λ name. name.items ≡ with_hyphens kind.now) }
{
    let mut name: IconText = SmallVec::from_slice(alloc, kind)?;
    put_hyphens(&mut name);
    Ok(name)
}

/// Puts a hyphen in the place of each slash.
#[inline(always)]
fn put_hyphens(name: &mut [u8])
    ensures { name.new ≡ with_hyphens name.old }
{
    for byte in name.iter_mut() {
        *byte = hyphen_for_slash(*byte);
    }
}

/// A hyphen for a slash, and any other byte for itself.
fn hyphen_for_slash(byte: u8) -> u8
    ensures { result ≡ hyphen_for_slash byte }
{
    if byte == b'/' { b'-' } else { byte }
}

/// The generic icon's name, else what stands before the type's first slash, and `-x-generic`.
// Part of each of its callers, as `icon_or_hyphens` is.
#[inline(always)]
pub fn generic_or_media(
    alloc: Global,
    icon: Option<&[u8]>,
    kind: &[u8],
) -> Result<IconText, OutOfMemory>
    // It is that name, or what stands before the type's first slash, and `-x-generic`.
    ensures { IfOk result (λ name. name.items ≡ name_or (option_map (λ text. text.now) icon.entry) (generic_of_media kind.now)) }
{
    match icon {
        Some(name) => text_of(alloc, name),
        None => generic_of_media(alloc, kind),
    }
}

/// What stands before the type's first slash, and `-x-generic`.
#[inline(always)]
fn generic_of_media(alloc: Global, kind: &[u8]) -> Result<IconText, OutOfMemory>
    ensures { IfOk result (λ name. name.items ≡ generic_of_media kind.now) }
{
    let front = before_slash(kind);
    if SHORT_NAME - GENERIC.len() < front.len() {
        return Ok(long_generic(alloc, front)?);
    }
    let end = front.len() + GENERIC.len();
    let mut room = [0; SHORT_NAME];
    room[..front.len()].copy_from_slice(front);
    room[front.len()..end].copy_from_slice(GENERIC);
    Ok(SmallVec::from_buf_and_len(alloc, room, end))
}

/// Long bytes, and `-x-generic`.
#[cold]
#[inline(never)]
fn long_generic(alloc: Global, front: &[u8]) -> Result<IconText, OutOfMemory>
    ensures { IfOk result (λ name. name.items ≡ front.now ++ codes "-x-generic") }
{
    let mut name: IconText = SmallVec::with_capacity(alloc, front.len() + GENERIC.len())?;
    name.extend_from_slice(front)?;
    name.extend_from_slice(GENERIC)?;
    Ok(name)
}

/// What stands before the first slash, all without one.
fn before_slash(kind: &[u8]) -> &[u8]
    ensures { result.now ≡ before_slash kind.now }
{
    match first_slash(kind) {
        Some(slash) => &kind[..slash],
        None => kind,
    }
}

/// The place of the first slash.
fn first_slash(kind: &[u8]) -> Option<usize>
    ensures place { result ≡ position (λ b. b == 47) kind.now }
    ensures within { IfSome result (λ slash. slash < length kind.now) }
{
    kind.iter().position(|byte| *byte == b'/')
}
