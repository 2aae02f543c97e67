//! Lines of `aliases` and `subclasses`.

use crate::tests::checked::alike;
use mime_base::Pair;
use mime_text::{PairsFile, read_pairs};
use std::process::Abort;
use std::test::Fail;

struct Row {
    name: &'static str,
    text: &'static [u8],
    pairs: &'static [(&'static [u8], &'static [u8])],
    skipped: &'static [u64],
}

static ROWS: [Row; 4] = [
    Row {
        name: "first-alias-pair",
        text: b"a/b c/d\nx y\na/b e/f\n# z",
        pairs: &[(b"a/b", b"c/d"), (b"a/b", b"e/f")],
        skipped: &[2],
    },
    Row {
        name: "no bytes",
        text: b"",
        pairs: &[],
        skipped: &[],
    },
    Row {
        name: "comments alone",
        text: b"# a\n\n#a/b c/d\n",
        pairs: &[],
        skipped: &[],
    },
    Row {
        name: "two spaces",
        text: b"\na/b  c/d\na/b c/d\n",
        pairs: &[(b"a/b", b"c/d")],
        skipped: &[2],
    },
];

/// Whether pairs have these texts.
fn are_pairs(pairs: &[Pair], want: &[(&[u8], &[u8])]) -> bool {
    let mut same = pairs.len() == want.len();
    for (pair, want) in pairs.iter().zip(want) {
        same = same && pair.name.bytes() == want.0 && pair.target.bytes() == want.1;
    }
    same
}

fn is_read(rt: &impl Abort, row: &Row, file: &PairsFile) {
    alike(rt, row.name, are_pairs(&file.pairs, row.pairs), true);
    alike(rt, row.name, file.skipped.as_slice(), row.skipped);
}

#[test]
fn rows(rt: HostRuntime) -> Result<(), Fail> {
    for row in &ROWS {
        let file = read_pairs(rt.alloc(), row.text)?;
        is_read(&rt, row, &file);
    }
    Ok(())
}
