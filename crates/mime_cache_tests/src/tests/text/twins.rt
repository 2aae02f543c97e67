//! Which rules of a database are twins.

use super::hidden::are_at;
use crate::tests::checked::alike;
use mime_samples::texts::{EMPTY, Texts, merged, of_rules};
use mime_text::{visible, without_twins};
use std::alloc::Global;
use std::test::Fail;

struct Row {
    name: &'static str,
    globs2: &'static [u8],
    /// The lines of the rules that are no twins, by their places.
    kept: &'static [usize],
}

static ROWS: [Row; 13] = [
    Row {
        name: "literal",
        globs2: b"50:application/x-core:core:cs\n50:application/x-core:core\n",
        kept: &[0],
    },
    Row {
        name: "suffix",
        globs2: b"50:text/x-genie:*.gs:cs\n50:text/x-genie:*.gs\n50:t/a:a\n",
        kept: &[0, 2],
    },
    Row {
        name: "Full",
        globs2: b"50:t/a:*.[ab]:cs\n50:t/a:*.[ab]\n",
        kept: &[0],
    },
    Row {
        name: "in two cases",
        globs2: b"50:a/p:*.C:cs\n50:a/p:*.C\n50:a/c:*.c:cs\n50:a/c:*.c\n",
        kept: &[0, 2],
    },
    Row {
        name: "twin first",
        globs2: b"50:t/a:a\n40:t/b:b\n50:t/a:a:cs\n",
        kept: &[1, 2],
    },
    Row {
        name: "several",
        globs2: b"50:t/a:a\n50:t/a:a:cs\n50:t/a:a\n50:t/a:a:cs\n",
        kept: &[1, 3],
    },
    Row {
        name: "lighter",
        globs2: b"50:t/a:a:cs\n49:t/a:a\n",
        kept: &[0, 1],
    },
    Row {
        name: "heavier",
        globs2: b"254:t/a:a:cs\n255:t/a:a\n0:t/a:b:cs\n0:t/a:b\n",
        kept: &[0, 1, 2],
    },
    Row {
        name: "other type",
        globs2: b"50:t/a:a:cs\n50:t/b:a\n50:T/A:a\n",
        kept: &[0, 1, 2],
    },
    Row {
        name: "other pattern",
        globs2: b"50:t/a:*.c:cs\n50:t/a:*.C\n50:t/a:*.cc\n50:t/a:.c\n",
        kept: &[0, 1, 2, 3],
    },
    Row {
        name: "the same bytes in other places",
        globs2: b"50:t/a:ba:cs\n50:t/ab:a\n",
        kept: &[0, 1],
    },
    Row {
        name: "without cs",
        globs2: b"50:t/a:a\n50:t/a:a\n",
        kept: &[0, 1],
    },
    Row {
        name: "with cs",
        globs2: b"50:t/a:a:cs\n50:t/a:a:cs\n",
        kept: &[0, 1],
    },
];

fn table() -> &'static [Row] {
    &ROWS
}

#[test]
fn rows(rt: HostRuntime) -> Result<(), Fail> {
    for row in table() {
        let all = of_rules(rt.alloc(), row.globs2)?;
        let kept = without_twins(rt.alloc(), of_rules(rt.alloc(), row.globs2)?)?;
        alike(&rt, row.name, are_at(&kept, &all, row.kept), true);
    }
    Ok(())
}

/// The first two are hidden, the next is a twin, the last is neither.
const OF_EACH: &[u8] = b"50:t/b:1\n40:t/a:1\n50:t/a:a\n50:t/a:1:cs\n50:t/a:a:cs\n50:t/b:a\n";

#[test]
fn of_visible_rules(rt: HostRuntime) -> Result<(), Fail> {
    let all = of_rules(rt.alloc(), OF_EACH)?;
    let shown = visible(rt.alloc(), of_rules(rt.alloc(), OF_EACH)?)?;
    let kept = without_twins(rt.alloc(), shown)?;
    alike(&rt, "of each", are_at(&kept, &all, &[3, 4, 5]), true);
    Ok(())
}

const ALL_FILES: Texts<'static> = Texts {
    globs2: b"50:t/a:1:cs\n50:t/a:1\n",
    magic: b"MIME-Magic\0\n[60:t/a]\n>0=\0\x01a\n[40:t/b]\n>0=\0\x01b\n",
    aliases: b"a/b c/d\n",
    subclasses: b"t/a t/b\nt/a t/c\n",
    icons: b"t/a:x\n",
    generic_icons: b"t/a:y\nt/b:y\n",
};

#[test]
fn all_else_stays(rt: HostRuntime) -> Result<(), Fail> {
    let kept = without_twins(rt.alloc(), merged(rt.alloc(), &[ALL_FILES, EMPTY])?)?;
    alike(&rt, "rules", kept.rules.len(), 1);
    alike(&rt, "sections", kept.sections.len(), 2);
    alike(&rt, "aliases", kept.aliases.len(), 1);
    alike(&rt, "parents", kept.parents.len(), 2);
    alike(&rt, "icons", kept.icons.len(), 1);
    alike(&rt, "generic icons", kept.generic_icons.len(), 2);
    Ok(())
}

/// Lines of 10,000 patterns, each with `cs` and without.
fn twins(alloc: Global) -> Result<Vec<u8>, Fail> {
    let mut lines = Vec::new(alloc);
    for number in 0..10_000u32 {
        for end in [&b":cs\n"[..], b"\n"] {
            lines.extend_from_slice(b"50:t/a:*.n")?;
            for place in 0..14u32 {
                let odd = (number >> place) & 1 == 1;
                lines.push(if odd { b'1' } else { b'0' })?;
            }
            lines.extend_from_slice(end)?;
        }
    }
    Ok(lines)
}

#[test]
fn each_of_many(rt: HostRuntime) -> Result<(), Fail> {
    let lines = twins(rt.alloc())?;
    let kept = without_twins(rt.alloc(), of_rules(rt.alloc(), &lines)?)?;
    alike(&rt, "rules", kept.rules.len(), 10_000);
    alike(&rt, "cs", kept.rules.iter().all(|rule| rule.cased), true);
    Ok(())
}
