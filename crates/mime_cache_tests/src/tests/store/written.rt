//! Databases at the limits that they fit in, and what is read of the written caches.

use crate::tests::caches::written;
use crate::tests::checked::alike;
use mime_base::{Counted, Meter};
use mime_samples::texts::{EMPTY, SAMPLE_TEXTS, Texts, merged};
use mime_store::{StoreFault, write_cache};
use mime_view::{Budget, Cache, CacheFault};
use std::alloc::Global;
use std::test::Fail;

/// A directory, how many bytes its database takes, and what its cache says of `t/h` and `t/g`.
struct Row {
    name: &'static str,
    texts: Texts<'static>,
    refused: usize,
    fits: usize,
    alias: &'static [u8],
    icon: Option<&'static [u8]>,
    generic_icon: Option<&'static [u8]>,
    extent: u32,
}

const WITH_ICON: Texts<'static> = Texts {
    icons: b"t/g:pkg\n",
    ..SAMPLE_TEXTS
};

const WITH_BOTH_ICONS: Texts<'static> = Texts {
    generic_icons: b"t/g:package-x-generic\n",
    ..WITH_ICON
};

static ROWS: [Row; 6] = [
    Row {
        name: "nothing",
        texts: EMPTY,
        refused: 87,
        fits: 88,
        alias: b"t/h",
        icon: None,
        generic_icon: None,
        extent: 0,
    },
    Row {
        name: "a literal and a suffix",
        texts: Texts {
            globs2: b"50:t/g:mk\n50:t/g:*.gz\n",
            ..EMPTY
        },
        refused: 159,
        fits: 160,
        alias: b"t/h",
        icon: None,
        generic_icon: None,
        extent: 0,
    },
    Row {
        name: "sample",
        texts: SAMPLE_TEXTS,
        refused: 255,
        fits: 256,
        alias: b"t/g",
        icon: None,
        generic_icon: None,
        extent: 3,
    },
    Row {
        name: "sample with an icon",
        texts: WITH_ICON,
        refused: 271,
        fits: 272,
        alias: b"t/g",
        icon: Some(b"pkg"),
        generic_icon: None,
        extent: 3,
    },
    Row {
        name: "sample with both icons",
        texts: WITH_BOTH_ICONS,
        refused: 303,
        fits: 304,
        alias: b"t/g",
        icon: Some(b"pkg"),
        generic_icon: Some(b"package-x-generic"),
        extent: 3,
    },
    Row {
        name: "masked-range",
        texts: Texts {
            magic: b"MIME-Magic\0\n[50:t/a]\n>4=\0\x02ab&\xdf\xdf+3\n",
            ..EMPTY
        },
        refused: 147,
        fits: 148,
        alias: b"t/h",
        icon: None,
        generic_icon: None,
        extent: 9,
    },
];

fn table() -> &'static [Row] {
    &ROWS
}

/// Why a row's database is refused at the one limit, and how many bytes its cache has at the other.
fn sizes(alloc: Global, row: &Row) -> Result<(Option<StoreFault>, usize), Fail> {
    let database = merged(alloc, &[row.texts])?;
    let refused = write_cache(alloc, &database, row.refused).err();
    let bytes = write_cache(alloc, &database, row.fits)?;
    Ok((refused, bytes.len()))
}

#[test]
fn limits(rt: HostRuntime) -> Result<(), Fail> {
    for row in table() {
        let wanted = (Some(StoreFault::TooLarge), row.fits);
        alike(&rt, row.name, sizes(rt.alloc(), row)?, wanted);
    }
    Ok(())
}

/// Whether a cache has the names and the extent of a row.
fn says(cache: &Cache<'_>, row: &Row) -> Result<bool, CacheFault> {
    let (mut meter, mut budget) = (Meter::new(), Budget::of(cache));
    let same = cache.unalias(b"t/h", &mut meter, &mut budget)? == row.alias
        && cache.icon(b"t/g", &mut meter, &mut budget)? == row.icon
        && cache.generic_icon(b"t/g", &mut meter, &mut budget)? == row.generic_icon
        && cache.extent(&mut meter, &mut budget)? == row.extent;
    Ok(same)
}

/// Whether a row's cache, once it is written, says what the row says.
fn is_read_back(alloc: Global, row: &Row) -> Result<bool, Fail> {
    let bytes = written(alloc, row.texts, row.fits)?;
    let cache = Cache::open(Counted::new(&bytes), &mut Meter::new())?;
    Ok(says(&cache, row)?)
}

#[test]
fn read_back(rt: HostRuntime) -> Result<(), Fail> {
    for row in table() {
        alike(&rt, row.name, is_read_back(rt.alloc(), row)?, true);
    }
    Ok(())
}
