//! Names that several rules match, in the order that asks the kept ones first and in that which asks all.

use super::{Asked, Row, is_answered, is_answered_from_texts};
use mime_base::Host;
use mime_lookup::Order;
use mime_samples::texts::{EMPTY, Texts};
use std::alloc::Global;
use std::process::Abort;

/// A name, a content, and the type and how much was read of it in both orders.
struct Both {
    name: &'static str,
    dirs: &'static [Texts<'static>],
    file: &'static [u8],
    content: Option<&'static [u8]>,
    globs_first: (&'static [u8], u64),
    all_globs: (&'static [u8], u64),
}

/// What a content of gzip begins with.
const GZIP: &[u8] = &[0x1f, 0x8b, 8];

const ARCHIVES: Texts<'static> = Texts {
    globs2: b"50:t/t:*.tar.gz\n50:t/g:*.gz\n",
    magic: b"MIME-Magic\0\n[50:t/g]\n>0=\0\x02\x1f\x8b\n",
    ..EMPTY
};

const KINDS_OF_GZIP: Texts<'static> = Texts {
    subclasses: b"t/t t/g\n",
    ..ARCHIVES
};

const SCRIPTS: Texts<'static> = Texts {
    globs2: b"50:text/x-a:*.py\n40:text/x-b:*.py\n",
    magic: b"MIME-Magic\0\n[50:text/x-b]\n>0=\0\x01#\n",
    ..EMPTY
};

const MAKEFILES: Texts<'static> = Texts {
    globs2: b"50:t/m:mk\n50:t/a:m*\n",
    magic: b"MIME-Magic\0\n[50:t/a]\n>0=\0\x01x\n",
    ..EMPTY
};

const RENAMED: Texts<'static> = Texts {
    globs2: b"50:t/old:*.o\n40:t/new:*.o\n",
    aliases: b"t/old t/new\n",
    ..EMPTY
};

/// Two rules are kept, of one type, and a third matches.
const TWICE: Texts<'static> = Texts {
    globs2: b"50:t/a:*.x\n50:t/a:*.X\n40:t/b:*.x\n",
    magic: b"MIME-Magic\0\n[50:t/b]\n>0=\0\x01b\n",
    ..EMPTY
};

static ROWS: [Both; 13] = [
    Both {
        name: "a shorter ending, and content of it",
        dirs: &[ARCHIVES],
        file: b"a.tar.gz",
        content: Some(GZIP),
        globs_first: (b"t/t", 0),
        all_globs: (b"t/g", 3),
    },
    Both {
        name: "a subclass of what its content is",
        dirs: &[KINDS_OF_GZIP],
        file: b"a.tar.gz",
        content: Some(GZIP),
        globs_first: (b"t/t", 0),
        all_globs: (b"t/t", 3),
    },
    Both {
        name: "two endings, no content",
        dirs: &[ARCHIVES],
        file: b"a.tar.gz",
        content: None,
        globs_first: (b"t/t", 0),
        all_globs: (b"t/t", 0),
    },
    Both {
        name: "two endings, and content that magic doesn't know",
        dirs: &[ARCHIVES],
        file: b"a.tar.gz",
        content: Some(b"hello"),
        globs_first: (b"t/t", 0),
        all_globs: (b"t/t", 5),
    },
    Both {
        name: "one ending",
        dirs: &[ARCHIVES],
        file: b"a.gz",
        content: Some(b"hello"),
        globs_first: (b"t/g", 0),
        all_globs: (b"t/g", 0),
    },
    Both {
        name: "a lighter rule, and content of it",
        dirs: &[SCRIPTS],
        file: b"x.py",
        content: Some(b"#!"),
        globs_first: (b"text/x-a", 0),
        all_globs: (b"text/x-b", 2),
    },
    Both {
        name: "a lighter rule, and text",
        dirs: &[SCRIPTS],
        file: b"x.py",
        content: Some(b"import"),
        globs_first: (b"text/x-a", 0),
        all_globs: (b"text/x-a", 6),
    },
    Both {
        name: "a lighter rule, and no byte",
        dirs: &[SCRIPTS],
        file: b"x.py",
        content: Some(b""),
        globs_first: (b"text/x-a", 0),
        all_globs: (b"text/x-a", 0),
    },
    Both {
        name: "a later class, and content of it",
        dirs: &[MAKEFILES],
        file: b"mk",
        content: Some(b"x"),
        globs_first: (b"t/m", 0),
        all_globs: (b"t/a", 1),
    },
    Both {
        name: "a later class, and text",
        dirs: &[MAKEFILES],
        file: b"mk",
        content: Some(b"y"),
        globs_first: (b"t/m", 0),
        all_globs: (b"t/m", 1),
    },
    Both {
        name: "two names of one type",
        dirs: &[RENAMED],
        file: b"a.o",
        content: Some(b"y"),
        globs_first: (b"t/new", 0),
        all_globs: (b"t/new", 0),
    },
    Both {
        name: "two rules of one type and a third, no content",
        dirs: &[TWICE],
        file: b"a.x",
        content: None,
        globs_first: (b"t/a", 0),
        all_globs: (b"t/a", 0),
    },
    Both {
        name: "no rule",
        dirs: &[SCRIPTS],
        file: b"x.rs",
        content: Some(b"#!"),
        globs_first: (b"text/x-b", 2),
        all_globs: (b"text/x-b", 2),
    },
];

/// A row is answered under an order.
fn is_ordered(
    rt: &impl Abort,
    alloc: Global,
    row: &Both,
    order: Order,
    wanted: (&'static [u8], u64),
) {
    let (kind, read) = wanted;
    let row = Row {
        name: row.name,
        dirs: row.dirs,
        file: row.file,
        content: row.content,
        host: Host::Little,
        order,
        kind,
        read,
    };
    is_answered(rt, alloc, &row);
}

#[test]
fn rows(rt: HostRuntime) {
    for row in &ROWS {
        is_ordered(&rt, rt.alloc(), row, Order::GlobsFirst, row.globs_first);
        is_ordered(&rt, rt.alloc(), row, Order::AllGlobs, row.all_globs);
    }
}

/// Rules with a twin without the flag for older readers: that of `*.C` is never kept.
static SOURCES: [Texts<'static>; 1] = [Texts {
    globs2: b"50:text/x-c++src:*.C:cs\n50:text/x-c++src:*.C\n50:text/x-csrc:*.c:cs\n50:text/x-csrc:*.c\n",
    magic: b"MIME-Magic\0\n[50:text/x-csrc]\n>0=\0\x02/*\n",
    ..EMPTY
}];

/// What is never kept is no candidate: a source file is of its own type, whatever it begins with.
#[test]
fn hidden_rules(rt: HostRuntime) {
    let types: [(&[u8], &'static [u8]); 2] = [
        (b"main.C", b"text/x-c++src"),
        (b"main.c", b"text/x-csrc"),
    ];
    for (file, kind) in types {
        let asked = Asked {
            name: "hidden",
            file,
            host: Host::Little,
            order: Order::AllGlobs,
            outcome: Ok((kind, 0)),
        };
        is_answered_from_texts(&rt, rt.alloc(), &SOURCES, &asked, Some(&b"/* x"[..]));
    }
}
