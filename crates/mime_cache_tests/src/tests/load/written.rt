//! Caches that were written are read back, with as many members as their texts have lines.

use super::{counts, name_counts};
use crate::tests::caches::written;
use crate::tests::checked::alike;
use crate::tests::lines::add_rule;
use mime_base::{Counted, LARGEST_CACHE, Meter};
use mime_load::{Leaves, Part, read_names};
use mime_samples::caches::{SAMPLE, write_at};
use mime_samples::texts::{EMPTY, SAMPLE_TEXTS, Texts};
use std::alloc::{AllocError, Global};
use std::test::Fail;

/// A directory, and how many members each list has.
struct Row {
    name: &'static str,
    texts: Texts<'static>,
    counts: [usize; 8],
}

static ROWS: [Row; 5] = [
    Row {
        name: "nothing",
        texts: EMPTY,
        counts: [0; 8],
    },
    Row {
        name: "sample",
        texts: SAMPLE_TEXTS,
        counts: [1, 1, 1, 1, 0, 1, 0, 0],
    },
    Row {
        name: "rules of each list",
        texts: Texts {
            globs2: b"50:t/a:README\n50:t/a:readme:cs\n60:t/b:*.tar.gz\n50:t/c:*.gz\n50:t/C:*.GZ:cs\n50:t/d:*\n50:t/e:a*b\n",
            ..EMPTY
        },
        counts: [0, 0, 2, 3, 2, 0, 0, 0],
    },
    Row {
        name: "types with many parents, and icons",
        texts: Texts {
            subclasses: b"t/b t/a\nt/a t/c\nt/b t/c\nt/a t/b\n",
            icons: b"t/g:pkg\nt/a:pkg\n",
            generic_icons: b"t/g:package-x-generic\n",
            ..EMPTY
        },
        counts: [0, 4, 0, 0, 0, 0, 2, 1],
    },
    Row {
        name: "lines with masks and children",
        texts: Texts {
            magic: b"MIME-Magic\0\n[50:t/a]\n>4=\0\x02ab&\xdf\xdf+3\n1>0=\0\x02cd~2\n[40:t/b]\n>0=\0\x00\n",
            ..EMPTY
        },
        counts: [0, 0, 0, 0, 0, 2, 0, 0],
    },
];

fn table() -> &'static [Row] {
    &ROWS
}

#[test]
fn as_many_as_lines(rt: HostRuntime) -> Result<(), Fail> {
    let alloc = rt.alloc();
    for row in table() {
        let bytes = written(alloc, row.texts, LARGEST_CACHE)?;
        alike(&rt, row.name, counts(alloc, &bytes)?, Ok(row.counts));
    }
    let by_hand = counts(alloc, &SAMPLE)?;
    alike(&rt, "by hand", by_hand, Ok([1, 1, 1, 1, 0, 1, 0, 0]));
    Ok(())
}

#[test]
fn names_of_the_whole(rt: HostRuntime) -> Result<(), Fail> {
    let alloc = rt.alloc();
    for row in table() {
        let bytes = written(alloc, row.texts, LARGEST_CACHE)?;
        let [aliases, _, literals, leaves, globs, _, _, _] = row.counts;
        let wanted = Some([aliases, literals, leaves, globs]);
        alike(&rt, row.name, name_counts(alloc, &bytes)?, wanted);
    }
    Ok(())
}

/// What stands from an offset on.
fn rest_from(bytes: &[u8], at: usize) -> &[u8] {
    bytes.get(at..).unwrap_or(&[])
}

/// Two aliases, the second before the first in the list.
fn exchanged(alloc: Global) -> Result<Vec<u8>, Fail> {
    let texts = Texts {
        aliases: b"t/a t/c\nt/b t/c\n",
        ..EMPTY
    };
    let mut bytes = written(alloc, texts, LARGEST_CACHE)?;
    // two entries stand after the header, four texts of four bytes and the count
    let (mut first, mut second) = ([0; 8], [0; 8]);
    write_at(&mut first, 0, rest_from(&bytes, 60));
    write_at(&mut second, 0, rest_from(&bytes, 68));
    write_at(&mut bytes, 60, &second);
    write_at(&mut bytes, 68, &first);
    Ok(bytes)
}

#[test]
fn aliases_that_fall(rt: HostRuntime) -> Result<(), Fail> {
    let bytes = exchanged(rt.alloc())?;
    alike(
        &rt,
        "exchanged",
        counts(rt.alloc(), &bytes)?,
        Err(Part::Aliases),
    );
    Ok(())
}

/// The rules of the tree by rising last bytes, and of one ending the leaf before what is below it, as lines of `globs2`.
const LEAVES: &[u8] =
    b"50:t/C:*.GZ:cs\n0:t/d:*.a-long-ending-of-names\n50:t/c:*.gz\n60:t/b:*.tar.gz\n255:t/e:*~\n";

static LEAF_TEXTS: Texts<'static> = Texts {
    globs2: b"60:t/b:*.tar.gz\n255:t/e:*~\n50:t/c:*.gz\n0:t/d:*.a-long-ending-of-names\n50:t/C:*.GZ:cs\n50:t/f:README\n",
    ..EMPTY
};

/// The rules of a tree as lines of `globs2`.
fn lines_of(alloc: Global, leaves: &Leaves<'_>) -> Result<Vec<u8>, AllocError> {
    let mut lines = Vec::new(alloc);
    for place in 0..leaves.len() {
        if let Some(leaf) = leaves.get(place) {
            add_rule(&mut lines, leaf.weight, leaf.kind, leaf.pattern, leaf.cased)?;
        }
    }
    Ok(lines)
}

#[test]
fn leaves_in_their_order(rt: HostRuntime) -> Result<(), Fail> {
    let alloc = rt.alloc();
    let bytes = written(alloc, LEAF_TEXTS, LARGEST_CACHE)?;
    let lists = read_names(alloc, &Counted::new(&bytes), &mut Meter::new())?;
    let leaves = &lists.leaves;
    alike(&rt, "how many", leaves.len(), 5);
    alike(&rt, "leaf", lines_of(alloc, leaves)?.as_slice(), LEAVES);
    alike(&rt, "no more", leaves.get(5).is_none(), true);
    Ok(())
}
