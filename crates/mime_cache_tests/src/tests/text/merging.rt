//! What is merged of several directories.

use crate::tests::checked::alike;
use mime_base::{Database, GlobRule, Icon, Pair, Section};
use mime_samples::texts::{EMPTY, Texts, merged};
use std::alloc::{AllocError, Global};
use std::test::Fail;

/// Directories, and what is merged of them: a line for each member of each list.
struct Row {
    name: &'static str,
    dirs: &'static [Texts<'static>],
    merged: &'static [u8],
}

const MARKER: Texts<'static> = Texts {
    globs2: b"0:t/a:__NOGLOBS__\n50:t/a:*.new\n",
    magic: b"MIME-Magic\0\n[60:t/a]\n>0__NOMAGIC__\n>0=\0\x01a\n[40:t/b]\n>0=\0\x01b\n",
    aliases: b"a/b c/d\na/b e/f\n",
    subclasses: b"t/a t/b\nt/a t/c\n",
    icons: b"t/a:x\nt/a:y\n",
    generic_icons: b"",
};

const OLD: Texts<'static> = Texts {
    globs2: b"50:t/a:*.old\n",
    magic: b"MIME-Magic\0\n[80:t/a]\n>0=\0\x01c\n[40:t/c]\n>0=\0\x01d\n[90:t/d]\n>0=\0\x01e\n",
    aliases: b"a/b g/h\na/c c/d\n",
    subclasses: b"t/a t/d\nt/a t/b\n",
    icons: b"t/a:z\nt/b:z\n",
    generic_icons: b"t/a:w\n",
};

static ROWS: [Row; 4] = [
    Row {
        name: "no directories",
        dirs: &[],
        merged: b"",
    },
    Row {
        name: "first-alias-pair",
        dirs: &[Texts {
            aliases: b"a/b c/d\nx y\na/b e/f\n# z",
            ..EMPTY
        }],
        merged: b"alias a/b c/d\n",
    },
    Row {
        name: "marker first",
        dirs: &[MARKER, OLD],
        merged: b"rule t/a *.new\n\
            section 90 t/d\nsection 60 t/a\nsection 40 t/b\nsection 40 t/c\n\
            alias a/b c/d\nalias a/c c/d\n\
            parent t/a t/b\nparent t/a t/c\nparent t/a t/d\n\
            icon t/a x\nicon t/b z\n\
            generic-icon t/a w\n",
    },
    Row {
        name: "marker last",
        dirs: &[OLD, MARKER],
        merged: b"rule t/a *.old\nrule t/a *.new\n\
            section 90 t/d\nsection 80 t/a\nsection 60 t/a\nsection 40 t/c\nsection 40 t/b\n\
            alias a/b g/h\nalias a/c c/d\n\
            parent t/a t/d\nparent t/a t/b\nparent t/a t/c\n\
            icon t/a z\nicon t/b z\n\
            generic-icon t/a w\n",
    },
];

fn table() -> &'static [Row] {
    &ROWS
}

/// Adds a line of a member of a list.
fn add(lines: &mut Vec<u8>, list: &[u8], first: &[u8], second: &[u8]) -> Result<(), AllocError> {
    lines.extend_from_slice(list)?;
    lines.extend_from_slice(b" ")?;
    lines.extend_from_slice(first)?;
    lines.extend_from_slice(b" ")?;
    lines.extend_from_slice(second)?;
    lines.extend_from_slice(b"\n")
}

fn add_rules(lines: &mut Vec<u8>, rules: &[GlobRule]) -> Result<(), AllocError> {
    for rule in rules {
        add(lines, b"rule", rule.kind.bytes(), rule.pattern.bytes())?;
    }
    Ok(())
}

fn add_sections(lines: &mut Vec<u8>, sections: &[Section]) -> Result<(), AllocError> {
    for section in sections {
        let priority = format!(in *lines.allocator(); "{}", section.priority)?;
        add(lines, b"section", priority.as_bytes(), section.kind.bytes())?;
    }
    Ok(())
}

fn add_pairs(lines: &mut Vec<u8>, list: &[u8], pairs: &[Pair]) -> Result<(), AllocError> {
    for pair in pairs {
        add(lines, list, pair.name.bytes(), pair.target.bytes())?;
    }
    Ok(())
}

fn add_icons(lines: &mut Vec<u8>, list: &[u8], icons: &[Icon]) -> Result<(), AllocError> {
    for icon in icons {
        add(lines, list, icon.kind.bytes(), icon.name.bytes())?;
    }
    Ok(())
}

/// The lines of the lists of a database.
fn lines_of(alloc: Global, database: &Database) -> Result<Vec<u8>, AllocError> {
    let mut lines = Vec::new(alloc);
    add_rules(&mut lines, &database.rules)?;
    add_sections(&mut lines, &database.sections)?;
    add_pairs(&mut lines, b"alias", &database.aliases)?;
    add_pairs(&mut lines, b"parent", &database.parents)?;
    add_icons(&mut lines, b"icon", &database.icons)?;
    add_icons(&mut lines, b"generic-icon", &database.generic_icons)?;
    Ok(lines)
}

#[test]
fn rows(rt: HostRuntime) -> Result<(), Fail> {
    for row in table() {
        let database = merged(rt.alloc(), row.dirs)?;
        let lines = lines_of(rt.alloc(), &database)?;
        alike(&rt, row.name, lines.as_slice(), row.merged);
    }
    Ok(())
}
