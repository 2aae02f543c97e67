//! What words ask for: a cache that is built, or the types of files.

use super::{Asked, answer_to, asks};
use crate::tests::checked::alike;
use std::alloc::Global;
use std::test::Fail;

static BUILT: [Asked; 11] = [
    Asked {
        name: "long names",
        words: "build --output c --data-dirs=b:a",
        request: r#"Build { directories: Named(["b", "a"]), drop_twins: false, file: "c" }"#,
    },
    Asked {
        name: "two directories",
        words: "build -d b:a -o c",
        request: r#"Build { directories: Named(["b", "a"]), drop_twins: false, file: "c" }"#,
    },
    Asked {
        name: "no directory",
        words: "build -d '' -o c",
        request: r#"Build { directories: Named([]), drop_twins: false, file: "c" }"#,
    },
    Asked {
        name: "output first",
        words: "build -o c -d a",
        request: r#"Build { directories: Named(["a"]), drop_twins: false, file: "c" }"#,
    },
    Asked {
        name: "values in the options' words",
        words: "build -da:b -oc/d",
        request: r#"Build { directories: Named(["a", "b"]), drop_twins: false, file: "c/d" }"#,
    },
    Asked {
        name: "colon in FILE",
        words: "build -d a -o c:d",
        request: r#"Build { directories: Named(["a"]), drop_twins: false, file: "c:d" }"#,
    },
    Asked {
        name: "empty FILE",
        words: "build -d a -o ''",
        request: r#"Build { directories: Named(["a"]), drop_twins: false, file: "" }"#,
    },
    Asked {
        name: "command's name",
        words: "build -d build -o build",
        request: r#"Build { directories: Named(["build"]), drop_twins: false, file: "build" }"#,
    },
    Asked {
        name: "no twins",
        words: "build --drop-twins -d a -o c",
        request: r#"Build { directories: Named(["a"]), drop_twins: true, file: "c" }"#,
    },
    Asked {
        name: "no twins, said between",
        words: "build -o c --drop-twins -d a",
        request: r#"Build { directories: Named(["a"]), drop_twins: true, file: "c" }"#,
    },
    Asked {
        name: "no twins, said last",
        words: "build -o c -d a --drop-twins",
        request: r#"Build { directories: Named(["a"]), drop_twins: true, file: "c" }"#,
    },
];

#[test]
fn asks_for_a_cache(rt: HostRuntime) -> Result<(), Fail> {
    asks(&rt, rt.alloc(), &BUILT)
}

/// Words, and what of a request for the types of files they ask.
struct Plain {
    name: &'static str,
    words: &'static str,
    directories: &'static [&'static str],
    name_only: bool,
    magic_first: bool,
    files: &'static [&'static str],
}

static PLAIN: [Plain; 15] = [
    Plain {
        name: "no directory",
        words: "plain --name-only -d '' a",
        directories: &[],
        name_only: true,
        magic_first: false,
        files: &["a"],
    },
    Plain {
        name: "one directory",
        words: "plain -d a x y",
        directories: &["a"],
        name_only: false,
        magic_first: false,
        files: &["x", "y"],
    },
    Plain {
        name: "several directories",
        words: "plain -d b:a:b x",
        directories: &["b", "a", "b"],
        name_only: false,
        magic_first: false,
        files: &["x"],
    },
    Plain {
        name: "empty parts",
        words: "plain -d :a::b: x",
        directories: &["a", "b"],
        name_only: false,
        magic_first: false,
        files: &["x"],
    },
    Plain {
        name: "empty parts alone",
        words: "plain -d :: x",
        directories: &[],
        name_only: false,
        magic_first: false,
        files: &["x"],
    },
    Plain {
        name: "names alone",
        words: "plain -d a --name-only x",
        directories: &["a"],
        name_only: true,
        magic_first: false,
        files: &["x"],
    },
    Plain {
        name: "magic first",
        words: "plain -d a --magic-first x",
        directories: &["a"],
        name_only: false,
        magic_first: true,
        files: &["x"],
    },
    Plain {
        name: "both flags",
        words: "plain -d a --name-only --magic-first x",
        directories: &["a"],
        name_only: true,
        magic_first: true,
        files: &["x"],
    },
    Plain {
        name: "flags the other way round",
        words: "plain --magic-first --name-only -d a x",
        directories: &["a"],
        name_only: true,
        magic_first: true,
        files: &["x"],
    },
    Plain {
        name: "a flag before and one after",
        words: "plain --magic-first -d a --name-only x",
        directories: &["a"],
        name_only: true,
        magic_first: true,
        files: &["x"],
    },
    Plain {
        name: "options last",
        words: "plain x y -da/b:c --magic-first",
        directories: &["a/b", "c"],
        name_only: false,
        magic_first: true,
        files: &["x", "y"],
    },
    Plain {
        name: "hyphens",
        words: "plain -d a -- -x --",
        directories: &["a"],
        name_only: false,
        magic_first: false,
        files: &["-x", "--"],
    },
    Plain {
        name: "one hyphen",
        words: "plain -d a --name-only -",
        directories: &["a"],
        name_only: true,
        magic_first: false,
        files: &["-"],
    },
    Plain {
        name: "command's name",
        words: "plain -d plain plain",
        directories: &["plain"],
        name_only: false,
        magic_first: false,
        files: &["plain"],
    },
    Plain {
        name: "empty FILE",
        words: "plain -d a ''",
        directories: &["a"],
        name_only: false,
        magic_first: false,
        files: &[""],
    },
];

/// The request of a row, as `Debug` writes it.
fn request_of_row(alloc: Global, row: &Plain) -> Result<String, Fail> {
    let Plain {
        directories,
        name_only,
        magic_first,
        files,
        ..
    } = row;
    Ok(format!(in alloc;
        "Plain {{ directories: Named({directories:?}), options: Options {{ name_only: {name_only}, \
        content_only: false, magic_first: {magic_first}, all_globs: false, inode: false, cost: false, \
        output: Output {{ null: false, brief: false, escape: false }} }}, subjects: Files({files:?}) }}"
    )?)
}

#[test]
fn asks_for_files(rt: HostRuntime) -> Result<(), Fail> {
    for row in &PLAIN {
        let answer = answer_to(rt.alloc(), row.words)?;
        let request = request_of_row(rt.alloc(), row)?;
        alike(&rt, row.name, answer.text.as_str(), request.as_str());
    }
    Ok(())
}
