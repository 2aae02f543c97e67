//! Lines of `icons` and `generic-icons`.

use crate::tests::checked::alike;
use mime_base::Icon;
use mime_text::{IconsFile, read_icons};
use std::process::Abort;
use std::test::Fail;

struct Row {
    name: &'static str,
    text: &'static [u8],
    icons: &'static [(&'static [u8], &'static [u8])],
    skipped: &'static [u64],
}

static ROWS: [Row; 4] = [
    Row {
        name: "colons in a name",
        text: b"t/a:x\n:y\nt/a:\n# z\nt/b:c:d",
        icons: &[(b"t/a", b"x"), (b"t/b", b"c:d")],
        skipped: &[2, 3],
    },
    Row {
        name: "no bytes",
        text: b"",
        icons: &[],
        skipped: &[],
    },
    Row {
        name: "comments alone",
        text: b"# a\n\n#t/a:x\n",
        icons: &[],
        skipped: &[],
    },
    Row {
        name: "no colon",
        text: b"\nt/a x\nt/a:x-y\n",
        icons: &[(b"t/a", b"x-y")],
        skipped: &[2],
    },
];

/// Whether icons have these texts.
fn are_icons(icons: &[Icon], want: &[(&[u8], &[u8])]) -> bool {
    let mut same = icons.len() == want.len();
    for (icon, want) in icons.iter().zip(want) {
        same = same && icon.kind.bytes() == want.0 && icon.name.bytes() == want.1;
    }
    same
}

fn is_read(rt: &impl Abort, row: &Row, file: &IconsFile) {
    alike(rt, row.name, are_icons(&file.icons, row.icons), true);
    alike(rt, row.name, file.skipped.as_slice(), row.skipped);
}

#[test]
fn rows(rt: HostRuntime) -> Result<(), Fail> {
    for row in &ROWS {
        let file = read_icons(rt.alloc(), row.text)?;
        is_read(&rt, row, &file);
    }
    Ok(())
}
