//! What `magic` is read as: the lines that are kept, and the types of markers.

use super::are_names;
use crate::tests::checked::alike;
use mime_base::{Matchlet, Section};
use mime_text::{MagicFile, read_magic};
use std::process::Abort;
use std::slice::Iter;
use std::test::Fail;

/// The value of a line, and those of its children.
type Line = (&'static [u8], &'static [&'static [u8]]);

struct Row {
    name: &'static str,
    text: &'static [u8],
    /// The value of each line of indent 0, and those of its children.
    lines: &'static [Line],
    deleted: &'static [&'static [u8]],
}

static ROWS: [Row; 10] = [
    Row {
        name: "no bytes",
        text: b"",
        lines: &[],
        deleted: &[],
    },
    Row {
        name: "a section without lines",
        text: b"MIME-Magic\x00\n[50:t/a]\n",
        lines: &[],
        deleted: &[],
    },
    Row {
        name: "a marker without its equals sign",
        text: b"MIME-Magic\x00\n[50:t/a]\n>0__NOMAGIC__\n",
        lines: &[],
        deleted: &[b"t/a"],
    },
    Row {
        name: "a marker with a length",
        text: b"MIME-Magic\x00\n[50:t/a]\n>0=\x00\x0b__NOMAGIC__\n",
        lines: &[],
        deleted: &[b"t/a"],
    },
    Row {
        name: "a marker and a line",
        text: b"MIME-Magic\x00\n[50:t/a]\n>0=__NOMAGIC__\n>0=\x00\x01c\n",
        lines: &[(b"c", &[])],
        deleted: &[b"t/a"],
    },
    Row {
        name: "a word after a range",
        text: b"MIME-Magic\x00\n[50:t/a]\n>0=\x00\x01a+3~2\n",
        lines: &[],
        deleted: &[],
    },
    Row {
        name: "ignored-magic-line",
        text: b"MIME-Magic\x00\n[50:t/a]\n>0=\x00\x01a?zz\n1>0=\x00\x01b\n>0=\x00\x01c\n",
        lines: &[(b"c", &[])],
        deleted: &[],
    },
    Row {
        name: "the greatest sum",
        text: b"MIME-Magic\x00\n[50:t/a]\n>4294967293=\x00\x01a\n",
        lines: &[(b"a", &[])],
        deleted: &[],
    },
    Row {
        name: "children",
        text: b"MIME-Magic\x00\n[50:t/a]\n>0=\x00\x01a\n1>0=\x00\x01b\n1>0=\x00\x01c\n",
        lines: &[(b"a", &[b"b", b"c"])],
        deleted: &[],
    },
    Row {
        name: "markers of two sections",
        text: b"MIME-Magic\x00\n[9:t/b]\n>0__NOMAGIC__\n[9:t/c]\n>0=\x00\x00\n>0__NOMAGIC__\n",
        lines: &[(b"", &[])],
        deleted: &[b"t/b", b"t/c"],
    },
];

/// Whether a line has this value and children of these values.
fn is_line(line: &Matchlet, value: &[u8], children: &[&[u8]]) -> bool {
    let mut same = line.value.as_slice() == value && line.children.len() == children.len();
    for (child, value) in line.children.iter().zip(children) {
        same = same && child.value.as_slice() == *value;
    }
    same
}

/// Whether lines are the next ones that are wanted.
fn are_next(lines: &[Matchlet], wanted: &mut Iter<'_, Line>) -> bool {
    let mut same = true;
    for line in lines {
        same = match wanted.next() {
            Some((value, children)) => same && is_line(line, *value, *children),
            None => false,
        };
    }
    same
}

fn is_read(rt: &impl Abort, row: &Row, file: &MagicFile) {
    let mut wanted = row.lines.iter();
    for section in &file.sections {
        alike(rt, row.name, are_next(&section.lines, &mut wanted), true);
    }
    alike(rt, row.name, wanted.next().is_none(), true);
    alike(rt, row.name, are_names(&file.deleted, row.deleted), true);
}

#[test]
fn rows(rt: HostRuntime) -> Result<(), Fail> {
    for row in &ROWS {
        let file = read_magic(rt.alloc(), row.text)?;
        is_read(&rt, row, &file);
    }
    Ok(())
}

/// A line has a start, a range, a word, a value and a mask.
fn has_all_parts(rt: &impl Abort, line: &Matchlet) {
    alike(rt, "start", line.start, 4);
    alike(rt, "range", line.range, 3);
    alike(rt, "word", line.word, 2);
    alike(rt, "value", line.value.as_slice(), b"ab");
    let mask = line.mask.as_ref().map(|mask| mask.as_slice());
    alike(rt, "mask", mask, Some(b"\xdf\xff"));
}

fn is_section(rt: &impl Abort, section: &Section) {
    alike(rt, "priority", section.priority, 80);
    alike(rt, "type", section.kind.bytes(), b"t/a");
    alike(rt, "lines", section.lines.len(), 1);
    for line in &section.lines {
        has_all_parts(rt, line);
    }
}

#[test]
fn line_of_all_parts(rt: HostRuntime) -> Result<(), Fail> {
    let text = b"MIME-Magic\x00\n[0080:t/a]\n>4=\x00\x02ab&\xdf\xff~2+3\n";
    let file = read_magic(rt.alloc(), text)?;
    alike(&rt, "sections", file.sections.len(), 1);
    for section in &file.sections {
        is_section(&rt, section);
    }
    Ok(())
}
