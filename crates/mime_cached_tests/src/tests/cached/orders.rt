//! The sample's bytes with its section at priorities around that from which magic is asked first.

use super::{Outcome, Row, are_answered};
use mime_lookup::Order;
use mime_samples::caches::{SAMPLE, changed};
use std::test::Fail;

/// A priority of the section, a content, and what is answered to `mk` in both orders.
struct Priority {
    name: &'static str,
    priority: u32,
    content: Option<&'static [u8]>,
    globs_first: Outcome<'static>,
    magic_first: Outcome<'static>,
}

const GZIP: Option<&[u8]> = Some(&[0x1f, 0x8b, 8]);

static PRIORITIES: [Priority; 4] = [
    Priority {
        name: "priority 40",
        priority: 40,
        content: GZIP,
        globs_first: Ok((b"t/m", 0)),
        magic_first: Ok((b"t/m", 3)),
    },
    Priority {
        name: "priority 79",
        priority: 79,
        content: GZIP,
        globs_first: Ok((b"t/m", 0)),
        magic_first: Ok((b"t/m", 3)),
    },
    Priority {
        name: "priority 80",
        priority: 80,
        content: GZIP,
        globs_first: Ok((b"t/m", 0)),
        magic_first: Ok((b"t/g", 3)),
    },
    Priority {
        name: "priority 80, no content",
        priority: 80,
        content: None,
        globs_first: Ok((b"t/m", 0)),
        magic_first: Ok((b"t/m", 0)),
    },
];

#[test]
fn rows(rt: HostRuntime) -> Result<(), Fail> {
    for row in &PRIORITIES {
        let cache = changed(SAMPLE, 160, row.priority);
        let rows = [
            Row {
                name: row.name,
                cache: &cache,
                file: b"mk",
                content: row.content,
                order: Order::GlobsFirst,
                outcome: row.globs_first,
            },
            Row {
                name: row.name,
                cache: &cache,
                file: b"mk",
                content: row.content,
                order: Order::MagicFirst,
                outcome: row.magic_first,
            },
        ];
        are_answered(&rt, rt.alloc(), &rows);
    }
    Ok(())
}
