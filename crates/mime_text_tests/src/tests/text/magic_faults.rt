//! Why a text of `magic` is refused, and where.

use crate::tests::checked::alike;
use mime_text::{MagicFault, MagicFaultKind, read_magic};
use std::alloc::Global;
use std::process::Abort;
use std::test::Fail;

struct Row {
    name: &'static str,
    text: &'static [u8],
    kind: MagicFaultKind,
    offset: u64,
    message: &'static str,
}

static ROWS: [Row; 10] = [
    Row {
        name: "four bytes in place of the header",
        text: b"MIME",
        kind: MagicFaultKind::NoHeader,
        offset: 0,
        message: "magic no header at 0",
    },
    Row {
        name: "a value of five bytes that ends after three",
        text: b"MIME-Magic\x00\n[50:t/a]\n>0=\x00\x05ab\n",
        kind: MagicFaultKind::Truncated,
        offset: 29,
        message: "magic truncated at 29",
    },
    Row {
        name: "a priority that is no number",
        text: b"MIME-Magic\x00\n[x:t/a]\n",
        kind: MagicFaultKind::BadSection,
        offset: 12,
        message: "magic bad section at 12",
    },
    Row {
        name: "no start",
        text: b"MIME-Magic\x00\n[50:t/a]\n>=\x00\x01a\n",
        kind: MagicFaultKind::BadNumber,
        offset: 22,
        message: "magic bad number at 22",
    },
    Row {
        name: "the sum is above the greatest",
        text: b"MIME-Magic\x00\n[50:t/a]\n>4294967294=\x00\x01a\n",
        kind: MagicFaultKind::BadNumber,
        offset: 21,
        message: "magic bad number at 21",
    },
    Row {
        name: "a word that does not divide the length",
        text: b"MIME-Magic\x00\n[50:t/a]\n>0=\x00\x03abc~2\n",
        kind: MagicFaultKind::BadWord,
        offset: 30,
        message: "magic bad word at 30",
    },
    Row {
        name: "an indent above 0 on the first line",
        text: b"MIME-Magic\x00\n[50:t/a]\n1>0=\x00\x01a\n",
        kind: MagicFaultKind::BadIndent,
        offset: 21,
        message: "magic bad indent at 21",
    },
    Row {
        name: "a byte after a marker with its equals sign",
        text: b"MIME-Magic\x00\n[50:t/a]\n>0=__NOMAGIC__x\n",
        kind: MagicFaultKind::Truncated,
        offset: 37,
        message: "magic truncated at 37",
    },
    Row {
        name: "a marker before the first section",
        text: b"MIME-Magic\x00\n>0__NOMAGIC__\n",
        kind: MagicFaultKind::BadSection,
        offset: 12,
        message: "magic bad section at 12",
    },
    Row {
        name: "a marker that is cut short",
        text: b"MIME-Magic\x00\n[50:t/a]\n>0__NOMAG",
        kind: MagicFaultKind::BadNumber,
        offset: 22,
        message: "magic bad number at 22",
    },
];

/// A text is refused for this fault, which is told so.
fn is_refused(
    rt: &impl Abort,
    alloc: Global,
    name: &str,
    text: &[u8],
    (kind, offset): (MagicFaultKind, u64),
    message: &str,
) -> Result<(), Fail> {
    let fault = read_magic(alloc, text).err().ok_or("no fault")?;
    let wanted = MagicFault::Malformed { kind, offset };
    alike(rt, name, fault, wanted);
    is_told(rt, alloc, name, fault, message)
}

fn is_told(
    rt: &impl Abort,
    alloc: Global,
    name: &str,
    fault: MagicFault,
    text: &str,
) -> Result<(), Fail> {
    let message = fault.to_string(alloc)?;
    alike(rt, name, message.as_str(), text);
    Ok(())
}

#[test]
fn rows(rt: HostRuntime) -> Result<(), Fail> {
    for row in &ROWS {
        let fault = (row.kind, row.offset);
        is_refused(&rt, rt.alloc(), row.name, row.text, fault, row.message)?;
    }
    Ok(())
}

/// A line of each of the levels 0 to 63.
fn all_levels(alloc: Global) -> Result<Vec<u8>, Fail> {
    let mut text = Vec::from_slice(alloc, b"MIME-Magic\x00\n[50:t/a]\n")?;
    for indent in 0..64u8 {
        text.push(b'0' + indent / 10)?;
        text.push(b'0' + indent % 10)?;
        text.extend_from_slice(b">0=\x00\x01a\n")?;
    }
    Ok(text)
}

#[test]
fn levels(rt: HostRuntime) -> Result<(), Fail> {
    let alloc = rt.alloc();
    let mut text = all_levels(alloc)?;
    let file = read_magic(alloc, &text)?;
    alike(&rt, "sections", file.sections.len(), 1);
    text.extend_from_slice(b"64>0=\x00\x01a\n")?;
    let fault = (MagicFaultKind::TooDeep, 597);
    is_refused(
        &rt,
        alloc,
        "level 64",
        &text,
        fault,
        "magic too deep at 597",
    )?;
    is_told(
        &rt,
        alloc,
        "memory",
        MagicFault::OutOfMemory,
        "out of memory",
    )
}
