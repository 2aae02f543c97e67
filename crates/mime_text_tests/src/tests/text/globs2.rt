//! Rules and markers of `globs2`.

use super::are_names;
use crate::tests::checked::alike;
use mime_base::GlobRule;
use mime_text::{GlobsFile, read_globs2};
use std::process::Abort;
use std::test::Fail;

struct Row {
    name: &'static str,
    text: &'static [u8],
    rules: &'static [(u8, &'static [u8], &'static [u8], bool)],
    deleted: &'static [&'static [u8]],
    skipped: &'static [u64],
}

static ROWS: [Row; 6] = [
    Row {
        name: "globs2-lines",
        text: b"50:t/a\n300:t/a:*.x\n50:t/a:*.y:cs,zz:more",
        rules: &[(50, b"t/a", b"*.y", true)],
        deleted: &[],
        skipped: &[1, 2],
    },
    Row {
        name: "noglobs-marker",
        text: b"0:t/a:__NOGLOBS__\n50:t/a:*.new\n",
        rules: &[(50, b"t/a", b"*.new", false)],
        deleted: &[b"t/a"],
        skipped: &[],
    },
    Row {
        name: "no bytes",
        text: b"",
        rules: &[],
        deleted: &[],
        skipped: &[],
    },
    Row {
        name: "comments alone",
        text: b"# a\n\n#50:t/a:*.x\n",
        rules: &[],
        deleted: &[],
        skipped: &[],
    },
    Row {
        name: "last line without a newline",
        text: b"50:t/a:*.x\n60:t/b:y",
        rules: &[(50, b"t/a", b"*.x", false), (60, b"t/b", b"y", false)],
        deleted: &[],
        skipped: &[],
    },
    Row {
        name: "last line with a newline",
        text: b"50:t/a:*.x\n60:t/b:y\n",
        rules: &[(50, b"t/a", b"*.x", false), (60, b"t/b", b"y", false)],
        deleted: &[],
        skipped: &[],
    },
];

/// Whether rules have these weights, types, patterns and flags.
fn are_rules(rules: &[GlobRule], want: &[(u8, &[u8], &[u8], bool)]) -> bool {
    let mut same = rules.len() == want.len();
    for (rule, want) in rules.iter().zip(want) {
        same = same && rule.weight == want.0 && rule.cased == want.3;
        same = same && rule.kind.bytes() == want.1 && rule.pattern.bytes() == want.2;
    }
    same
}

fn is_read(rt: &impl Abort, row: &Row, file: &GlobsFile) {
    alike(rt, row.name, are_rules(&file.rules, row.rules), true);
    alike(rt, row.name, are_names(&file.deleted, row.deleted), true);
    alike(rt, row.name, file.skipped.as_slice(), row.skipped);
}

#[test]
fn rows(rt: HostRuntime) -> Result<(), Fail> {
    for row in &ROWS {
        let file = read_globs2(rt.alloc(), row.text)?;
        is_read(&rt, row, &file);
    }
    Ok(())
}
