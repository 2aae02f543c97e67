//! Many rules of one ending, and texts of the greatest length. The numbers are sums of the terms of
//! `room`.

use crate::tests::checked::alike;
use mime_base::{Counted, Database, Meter};
use mime_samples::texts::{EMPTY, Texts, merged};
use mime_store::{StoreFault, fits_in_cache, write_cache};
use mime_view::{Budget, Cache};
use std::alloc::Global;
use std::process::Abort;
use std::test::Fail;

/// The cache of a directory, which fits in that many bytes and in no fewer.
fn cache_of(
    rt: &impl Abort,
    alloc: Global,
    texts: Texts<'_>,
    size: usize,
) -> Result<Vec<u8>, Fail> {
    let database = merged(alloc, &[texts])?;
    let refused = write_cache(alloc, &database, size.saturating_sub(1)).err();
    alike(rt, "one byte less", refused, Some(StoreFault::TooLarge));
    fits(rt, alloc, &database, size)?;
    let bytes = write_cache(alloc, &database, size)?;
    alike(rt, "size", bytes.len(), size);
    Ok(bytes)
}

/// The database fits in that many bytes, and in more, and not in fewer.
fn fits(rt: &impl Abort, alloc: Global, database: &Database, size: usize) -> Result<(), Fail> {
    let short = fits_in_cache(alloc, database, size.saturating_sub(1))?;
    alike(rt, "in one byte less", short, false);
    alike(
        rt,
        "in its size",
        fits_in_cache(alloc, database, size)?,
        true,
    );
    alike(
        rt,
        "in any",
        fits_in_cache(alloc, database, usize::MAX)?,
        true,
    );
    Ok(())
}

/// The cache of rules alone opens and has no magic.
fn takes(rt: &impl Abort, alloc: Global, globs2: &[u8], size: usize) -> Result<(), Fail> {
    let bytes = cache_of(rt, alloc, Texts { globs2, ..EMPTY }, size)?;
    let mut meter = Meter::new();
    let cache = Cache::open(Counted::new(&bytes), &mut meter)?;
    let mut budget = Budget::of(&cache);
    alike(rt, "extent", cache.extent(&mut meter, &mut budget), Ok(0));
    Ok(())
}

#[test]
fn one_ending_of_4096_equal_rules(rt: HostRuntime) -> Result<(), Fail> {
    let mut globs2 = Vec::new(rt.alloc());
    for _ in 0..4096 {
        globs2.extend_from_slice(b"50:t/g:*.a\n")?;
    }
    takes(&rt, rt.alloc(), &globs2, 88 + 2 * 12 + 4096 * (12 + 4))
}

#[test]
fn one_ending_of_4096_types(rt: HostRuntime) -> Result<(), Fail> {
    let mut globs2 = Vec::new(rt.alloc());
    for number in 1000..5096 {
        let line = format!(in rt.alloc(); "50:t/{number}:*.a\n")?;
        globs2.extend_from_slice(line.as_bytes())?;
    }
    takes(&rt, rt.alloc(), &globs2, 88 + 2 * 12 + 4096 * (12 + 8))
}

#[test]
fn one_ending_of_256_weights_16_times(rt: HostRuntime) -> Result<(), Fail> {
    let mut globs2 = Vec::new(rt.alloc());
    for number in 0..4096 {
        let line = format!(in rt.alloc(); "{}:t/g:*.a\n", number % 256)?;
        globs2.extend_from_slice(line.as_bytes())?;
    }
    takes(&rt, rt.alloc(), &globs2, 88 + 2 * 12 + 4096 * (12 + 4))
}

#[test]
fn the_longest_ending_has_254_nodes(rt: HostRuntime) -> Result<(), Fail> {
    let mut globs2 = Vec::from_slice(rt.alloc(), b"50:t/g:*")?;
    globs2.extend_from_slice(&[b'a'; 254])?;
    takes(&rt, rt.alloc(), &globs2, 88 + 254 * 12 + (12 + 4))
}

#[test]
fn the_longest_literal_has_256_bytes_with_its_zero(rt: HostRuntime) -> Result<(), Fail> {
    let mut globs2 = Vec::from_slice(rt.alloc(), b"50:t/g:")?;
    globs2.extend_from_slice(&[b'a'; 255])?;
    takes(&rt, rt.alloc(), &globs2, 88 + (12 + 256 + 4))
}

/// A type of 255 bytes, all the same but the slash.
fn longest_type(byte: u8) -> [u8; 255] {
    let mut kind = [byte; 255];
    kind[1] = b'/';
    kind
}

/// A line of two texts.
fn line(alloc: Global, first: &[u8], between: u8, second: &[u8]) -> Result<Vec<u8>, Fail> {
    let mut line = Vec::from_slice(alloc, first)?;
    line.push(between)?;
    line.extend_from_slice(second)?;
    Ok(line)
}

fn texts_of<'a>(aliases: &'a [u8], icons: &'a [u8]) -> Texts<'a> {
    Texts {
        aliases,
        icons,
        generic_icons: icons,
        ..EMPTY
    }
}

#[test]
fn the_longest_names_are_read_back(rt: HostRuntime) -> Result<(), Fail> {
    let (alias, kind, icon) = (longest_type(b'a'), longest_type(b'b'), [b'i'; 255]);
    let aliases = line(rt.alloc(), &alias, b' ', &kind)?;
    let icons = line(rt.alloc(), &kind, b':', &icon)?;
    let texts = texts_of(&aliases, &icons);
    let bytes = cache_of(&rt, rt.alloc(), texts, 88 + 3 * (8 + 256 + 256))?;
    let cache = Cache::open(Counted::new(&bytes), &mut Meter::new())?;
    are_read_back(&rt, &cache, &alias, &kind, &icon);
    Ok(())
}

/// An alias stands for a type, which has one icon twice.
fn are_read_back(rt: &impl Abort, cache: &Cache<'_>, alias: &[u8], kind: &[u8], icon: &[u8]) {
    let (mut meter, mut budget) = (Meter::new(), Budget::of(cache));
    let named = cache.unalias(alias, &mut meter, &mut budget);
    alike(rt, "alias", named, Ok(kind));
    let given = cache.icon(kind, &mut meter, &mut budget);
    alike(rt, "icon", given, Ok(Some(icon)));
    let given = cache.generic_icon(kind, &mut meter, &mut budget);
    alike(rt, "generic icon", given, Ok(Some(icon)));
}
