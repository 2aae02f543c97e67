//! Which rules of a database are visible.

use crate::tests::checked::alike;
use mime_base::Database;
use mime_samples::texts::{EMPTY, Texts, merged, of_rules};
use mime_text::visible;
use std::alloc::Global;
use std::test::Fail;

struct Row {
    name: &'static str,
    globs2: &'static [u8],
    /// The lines of the rules that are visible, by their places.
    visible: &'static [usize],
}

static ROWS: [Row; 12] = [
    Row {
        name: "both twins",
        globs2: b"50:a/p:*.C:cs\n50:a/p:*.C\n50:a/c:*.c:cs\n50:a/c:*.c\n",
        visible: &[0, 2],
    },
    Row {
        name: "no capital",
        globs2: b"50:t/a:*.c:cs\n50:t/a:*.c\n",
        visible: &[0, 1],
    },
    Row {
        name: "lighter capital",
        globs2: b"50:t/a:*.c:cs\n40:t/b:*.C:cs\n50:t/a:*.c\n",
        visible: &[0, 1, 2],
    },
    Row {
        name: "light itself",
        globs2: b"50:t/a:*.c:cs\n40:t/b:*.C:cs\n40:t/a:*.c\n",
        visible: &[0, 1],
    },
    Row {
        name: "heavier capital later",
        globs2: b"40:t/a:*.C\n50:t/a:*.c:cs\n30:t/b:*.C:cs\n40:t/b:*.C:cs\n30:t/c:*.C:cs\n",
        visible: &[1, 2, 3, 4],
    },
    Row {
        name: "one of two weights",
        globs2: b"51:t/a:A\n50:t/a:a\n50:t/b:A:cs\n51:t/b:a:cs\n",
        visible: &[0, 2, 3],
    },
    Row {
        name: "no letters",
        globs2: b"50:t/a:1:cs\n50:t/b:1\n",
        visible: &[0],
    },
    Row {
        name: "star alone",
        globs2: b"50:t/a:*:cs\n50:t/b:*\n",
        visible: &[0],
    },
    Row {
        name: "Full",
        globs2: b"50:t/a:*.[ab]:cs\n50:t/a:*.[ab]\n50:t/a:?:cs\n50:t/a:?\n",
        visible: &[0, 1, 2, 3],
    },
    Row {
        name: "letters of other alphabets",
        globs2: b"50:t/a:\xc3\xa9:cs\n50:t/b:\xc3\xa9\n",
        visible: &[0],
    },
    Row {
        name: "the bytes beside the letters",
        globs2: b"0:t/a:@Z{z`:cs\n0:t/a:@z{Z`:cs\n0:t/a:@Z{Z`:cs\n0:t/a:@z{z`:cs\n0:t/b:@z{z`\n",
        visible: &[0, 1, 2, 3],
    },
    Row {
        name: "greatest weight",
        globs2: b"255:t/a:1:cs\n255:t/b:1\n",
        visible: &[0],
    },
];

fn table() -> &'static [Row] {
    &ROWS
}

/// Whether the rules of a database are those at these places of another.
pub fn are_at(database: &Database, all: &Database, places: &[usize]) -> bool {
    let mut same = database.rules.len() == places.len();
    for (rule, place) in database.rules.iter().zip(places) {
        same &= match all.rules.get(*place) {
            Some(want) => rule.weight == want.weight
                && rule.kind.bytes() == want.kind.bytes()
                && rule.pattern.bytes() == want.pattern.bytes()
                && rule.cased == want.cased,
            None => false,
        };
    }
    same
}

#[test]
fn rows(rt: HostRuntime) -> Result<(), Fail> {
    for row in table() {
        let all = of_rules(rt.alloc(), row.globs2)?;
        let shown = visible(rt.alloc(), of_rules(rt.alloc(), row.globs2)?)?;
        alike(&rt, row.name, are_at(&shown, &all, row.visible), true);
    }
    Ok(())
}

const ALL_FILES: Texts<'static> = Texts {
    globs2: b"50:t/a:1:cs\n50:t/b:1\n",
    magic: b"MIME-Magic\0\n[60:t/a]\n>0=\0\x01a\n[40:t/b]\n>0=\0\x01b\n",
    aliases: b"a/b c/d\n",
    subclasses: b"t/a t/b\nt/a t/c\n",
    icons: b"t/a:x\n",
    generic_icons: b"t/a:y\nt/b:y\n",
};

#[test]
fn all_else_stays(rt: HostRuntime) -> Result<(), Fail> {
    let shown = visible(rt.alloc(), merged(rt.alloc(), &[ALL_FILES, EMPTY])?)?;
    alike(&rt, "rules", shown.rules.len(), 1);
    alike(&rt, "sections", shown.sections.len(), 2);
    alike(&rt, "aliases", shown.aliases.len(), 1);
    alike(&rt, "parents", shown.parents.len(), 2);
    alike(&rt, "icons", shown.icons.len(), 1);
    alike(&rt, "generic icons", shown.generic_icons.len(), 2);
    Ok(())
}

/// The lines of each spelling of twelve letters, with `cs` and without.
fn spelled(alloc: Global) -> Result<Vec<u8>, Fail> {
    let mut lines = Vec::new(alloc);
    for spelling in 0..4_096u32 {
        for end in [&b":cs\n"[..], b"\n"] {
            lines.extend_from_slice(b"50:t/a:*.")?;
            for letter in 0..12u32 {
                let capital = (spelling >> letter) & 1 == 1;
                lines.push(if capital { b'L' } else { b'l' })?;
            }
            lines.extend_from_slice(end)?;
        }
    }
    Ok(lines)
}

#[test]
fn each_spelling_of_many(rt: HostRuntime) -> Result<(), Fail> {
    let lines = spelled(rt.alloc())?;
    let shown = visible(rt.alloc(), of_rules(rt.alloc(), &lines)?)?;
    alike(&rt, "rules", shown.rules.len(), 4096);
    alike(&rt, "cs", shown.rules.iter().all(|rule| rule.cased), true);
    Ok(())
}
