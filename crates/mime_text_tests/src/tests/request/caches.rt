//! What the words of the commands over a cache ask for, and words without a source.

use super::{Asked, asks};
use std::test::Fail;

static USERS: [Asked; 3] = [
    Asked {
        name: "build of the user's directories",
        words: "build -o c",
        request: r#"Build { directories: User, drop_twins: false, file: "c" }"#,
    },
    Asked {
        name: "build without twins of the user's directories",
        words: "build --drop-twins -o c",
        request: r#"Build { directories: User, drop_twins: true, file: "c" }"#,
    },
    Asked {
        name: "plain of the user's directories",
        words: "plain --name-only x",
        request: r#"Plain { directories: User, options: Options { name_only: true, content_only: false, magic_first: false, all_globs: false, inode: false, cost: false, output: Output { null: false, brief: false, escape: false } }, subjects: Files(["x"]) }"#,
    },
];

static LISTS: [Asked; 7] = [
    Asked {
        name: "no source",
        words: "list",
        request: r#"List { source: Directories(User) }"#,
    },
    Asked {
        name: "DIRS",
        words: "list -d b::a",
        request: r#"List { source: Directories(Named(["b", "a"])) }"#,
    },
    Asked {
        name: "long names",
        words: "list --data-dirs=",
        request: r#"List { source: Directories(Named([])) }"#,
    },
    Asked {
        name: "usual words",
        words: "list -c c",
        request: r#"List { source: Cache("c") }"#,
    },
    Asked {
        name: "CACHE in the option's word",
        words: "list -cc/d",
        request: r#"List { source: Cache("c/d") }"#,
    },
    Asked {
        name: "empty CACHE",
        words: "list -c ''",
        request: r#"List { source: Cache("") }"#,
    },
    Asked {
        name: "command's name",
        words: "list -c list",
        request: r#"List { source: Cache("list") }"#,
    },
];

static CHECKS: [Asked; 4] = [
    Asked {
        name: "no source",
        words: "check",
        request: r#"Check { source: Directories(User) }"#,
    },
    Asked {
        name: "DIRS",
        words: "check -d b::a",
        request: r#"Check { source: Directories(Named(["b", "a"])) }"#,
    },
    Asked {
        name: "usual words",
        words: "check -c c",
        request: r#"Check { source: Cache("c") }"#,
    },
    Asked {
        name: "command's name",
        words: "check --cache check",
        request: r#"Check { source: Cache("check") }"#,
    },
];

static EXPLAINS: [Asked; 4] = [
    Asked {
        name: "no source",
        words: "explain a",
        request: r#"Explain { source: Directories(User), options: Options { name_only: false, content_only: false, magic_first: false, all_globs: false, inode: false, cost: false, output: Output { null: false, brief: false, escape: false } }, files: ["a"] }"#,
    },
    Asked {
        name: "usual words",
        words: "explain -c c a b",
        request: r#"Explain { source: Cache("c"), options: Options { name_only: false, content_only: false, magic_first: false, all_globs: false, inode: false, cost: false, output: Output { null: false, brief: false, escape: false } }, files: ["a", "b"] }"#,
    },
    Asked {
        name: "its options",
        words: "explain --name-only -d b::a --all-globs a --escape",
        request: r#"Explain { source: Directories(Named(["b", "a"])), options: Options { name_only: true, content_only: false, magic_first: false, all_globs: true, inode: false, cost: false, output: Output { null: false, brief: false, escape: true } }, files: ["a"] }"#,
    },
    Asked {
        name: "hyphens",
        words: "explain --magic-first -- -c explain",
        request: r#"Explain { source: Directories(User), options: Options { name_only: false, content_only: false, magic_first: true, all_globs: false, inode: false, cost: false, output: Output { null: false, brief: false, escape: false } }, files: ["-c", "explain"] }"#,
    },
];

static IS_AS: [Asked; 8] = [
    Asked {
        name: "no source",
        words: "isa t/h t/m",
        request: r#"IsA { source: Directories(User), kind: "t/h", base: "t/m" }"#,
    },
    Asked {
        name: "DIRS between",
        words: "isa t/h -da t/m",
        request: r#"IsA { source: Directories(Named(["a"])), kind: "t/h", base: "t/m" }"#,
    },
    Asked {
        name: "usual words",
        words: "isa -c c t/h t/m",
        request: r#"IsA { source: Cache("c"), kind: "t/h", base: "t/m" }"#,
    },
    Asked {
        name: "-c last",
        words: "isa t/h t/m -c c",
        request: r#"IsA { source: Cache("c"), kind: "t/h", base: "t/m" }"#,
    },
    Asked {
        name: "-c between",
        words: "isa t/h -cc t/m",
        request: r#"IsA { source: Cache("c"), kind: "t/h", base: "t/m" }"#,
    },
    Asked {
        name: "words that are no types",
        words: "isa -c c h ''",
        request: r#"IsA { source: Cache("c"), kind: "h", base: "" }"#,
    },
    Asked {
        name: "hyphens",
        words: "isa -c c -- -h --cost",
        request: r#"IsA { source: Cache("c"), kind: "-h", base: "--cost" }"#,
    },
    Asked {
        name: "command's name",
        words: "isa -c isa isa isa",
        request: r#"IsA { source: Cache("isa"), kind: "isa", base: "isa" }"#,
    },
];

static ICONS: [Asked; 5] = [
    Asked {
        name: "no source",
        words: "icon t/h",
        request: r#"Icon { source: Directories(User), kind: "t/h" }"#,
    },
    Asked {
        name: "DIRS",
        words: "icon -d a t/h",
        request: r#"Icon { source: Directories(Named(["a"])), kind: "t/h" }"#,
    },
    Asked {
        name: "usual words",
        words: "icon -c c t/h",
        request: r#"Icon { source: Cache("c"), kind: "t/h" }"#,
    },
    Asked {
        name: "-c last",
        words: "icon t/h -c c",
        request: r#"Icon { source: Cache("c"), kind: "t/h" }"#,
    },
    Asked {
        name: "a word that is no type",
        words: "icon -c c h",
        request: r#"Icon { source: Cache("c"), kind: "h" }"#,
    },
];

static OUTPUTS: [Asked; 4] = [
    Asked {
        name: "zero bytes and TYPE alone",
        words: "type -0b -c c x",
        request: r#"Type { source: Cache("c"), options: Options { name_only: false, content_only: false, magic_first: false, all_globs: false, inode: false, cost: false, output: Output { null: true, brief: true, escape: false } }, subjects: Files(["x"]) }"#,
    },
    Asked {
        name: "the same in long",
        words: "type -c c --brief --null x",
        request: r#"Type { source: Cache("c"), options: Options { name_only: false, content_only: false, magic_first: false, all_globs: false, inode: false, cost: false, output: Output { null: true, brief: true, escape: false } }, subjects: Files(["x"]) }"#,
    },
    Asked {
        name: "escapes and cost",
        words: "type --escape -c c --cost x",
        request: r#"Type { source: Cache("c"), options: Options { name_only: false, content_only: false, magic_first: false, all_globs: false, inode: false, cost: true, output: Output { null: false, brief: false, escape: true } }, subjects: Files(["x"]) }"#,
    },
    Asked {
        name: "escapes and TYPE alone",
        words: "plain -d '' -b --escape x",
        request: r#"Plain { directories: Named([]), options: Options { name_only: false, content_only: false, magic_first: false, all_globs: false, inode: false, cost: false, output: Output { null: false, brief: true, escape: true } }, subjects: Files(["x"]) }"#,
    },
];

static ORDERS: [Asked; 11] = [
    Asked {
        name: "no source",
        words: "type x",
        request: r#"Type { source: Directories(User), options: Options { name_only: false, content_only: false, magic_first: false, all_globs: false, inode: false, cost: false, output: Output { null: false, brief: false, escape: false } }, subjects: Files(["x"]) }"#,
    },
    Asked {
        name: "DIRS",
        words: "type -d a --cost x",
        request: r#"Type { source: Directories(Named(["a"])), options: Options { name_only: false, content_only: false, magic_first: false, all_globs: false, inode: false, cost: true, output: Output { null: false, brief: false, escape: false } }, subjects: Files(["x"]) }"#,
    },
    Asked {
        name: "CACHE in long",
        words: "type --cache c x",
        request: r#"Type { source: Cache("c"), options: Options { name_only: false, content_only: false, magic_first: false, all_globs: false, inode: false, cost: false, output: Output { null: false, brief: false, escape: false } }, subjects: Files(["x"]) }"#,
    },
    Asked {
        name: "no flag",
        words: "type -c c x y",
        request: r#"Type { source: Cache("c"), options: Options { name_only: false, content_only: false, magic_first: false, all_globs: false, inode: false, cost: false, output: Output { null: false, brief: false, escape: false } }, subjects: Files(["x", "y"]) }"#,
    },
    Asked {
        name: "names alone",
        words: "type -c c --name-only x",
        request: r#"Type { source: Cache("c"), options: Options { name_only: true, content_only: false, magic_first: false, all_globs: false, inode: false, cost: false, output: Output { null: false, brief: false, escape: false } }, subjects: Files(["x"]) }"#,
    },
    Asked {
        name: "contents alone",
        words: "type --content-only -c c --cost x",
        request: r#"Type { source: Cache("c"), options: Options { name_only: false, content_only: true, magic_first: false, all_globs: false, inode: false, cost: true, output: Output { null: false, brief: false, escape: false } }, subjects: Files(["x"]) }"#,
    },
    Asked {
        name: "contents alone by text files",
        words: "plain -d a x --content-only",
        request: r#"Plain { directories: Named(["a"]), options: Options { name_only: false, content_only: true, magic_first: false, all_globs: false, inode: false, cost: false, output: Output { null: false, brief: false, escape: false } }, subjects: Files(["x"]) }"#,
    },
    Asked {
        name: "cost",
        words: "type -c c --cost x",
        request: r#"Type { source: Cache("c"), options: Options { name_only: false, content_only: false, magic_first: false, all_globs: false, inode: false, cost: true, output: Output { null: false, brief: false, escape: false } }, subjects: Files(["x"]) }"#,
    },
    Asked {
        name: "magic first",
        words: "type -c c --magic-first x",
        request: r#"Type { source: Cache("c"), options: Options { name_only: false, content_only: false, magic_first: true, all_globs: false, inode: false, cost: false, output: Output { null: false, brief: false, escape: false } }, subjects: Files(["x"]) }"#,
    },
    Asked {
        name: "all globs",
        words: "type -c c --all-globs x",
        request: r#"Type { source: Cache("c"), options: Options { name_only: false, content_only: false, magic_first: false, all_globs: true, inode: false, cost: false, output: Output { null: false, brief: false, escape: false } }, subjects: Files(["x"]) }"#,
    },
    Asked {
        name: "inode",
        words: "type -c c --inode x",
        request: r#"Type { source: Cache("c"), options: Options { name_only: false, content_only: false, magic_first: false, all_globs: false, inode: true, cost: false, output: Output { null: false, brief: false, escape: false } }, subjects: Files(["x"]) }"#,
    },
];

static TYPES: [Asked; 8] = [
    Asked {
        name: "standard input",
        words: "type -c c --stdin x",
        request: r#"Type { source: Cache("c"), options: Options { name_only: false, content_only: false, magic_first: false, all_globs: false, inode: false, cost: false, output: Output { null: false, brief: false, escape: false } }, subjects: Input("x") }"#,
    },
    Asked {
        name: "files of a list",
        words: "type -c c --files0-from x",
        request: r#"Type { source: Cache("c"), options: Options { name_only: false, content_only: false, magic_first: false, all_globs: false, inode: false, cost: false, output: Output { null: false, brief: false, escape: false } }, subjects: List("x") }"#,
    },
    Asked {
        name: "all flags",
        words: "type -c c --name-only --cost --magic-first x",
        request: r#"Type { source: Cache("c"), options: Options { name_only: true, content_only: false, magic_first: true, all_globs: false, inode: false, cost: true, output: Output { null: false, brief: false, escape: false } }, subjects: Files(["x"]) }"#,
    },
    Asked {
        name: "flags the other way round",
        words: "type --magic-first --cost --name-only -c c x",
        request: r#"Type { source: Cache("c"), options: Options { name_only: true, content_only: false, magic_first: true, all_globs: false, inode: false, cost: true, output: Output { null: false, brief: false, escape: false } }, subjects: Files(["x"]) }"#,
    },
    Asked {
        name: "options last",
        words: "type x y --cost -cc/d",
        request: r#"Type { source: Cache("c/d"), options: Options { name_only: false, content_only: false, magic_first: false, all_globs: false, inode: false, cost: true, output: Output { null: false, brief: false, escape: false } }, subjects: Files(["x", "y"]) }"#,
    },
    Asked {
        name: "hyphens",
        words: "type -c c -- -x --",
        request: r#"Type { source: Cache("c"), options: Options { name_only: false, content_only: false, magic_first: false, all_globs: false, inode: false, cost: false, output: Output { null: false, brief: false, escape: false } }, subjects: Files(["-x", "--"]) }"#,
    },
    Asked {
        name: "command's name",
        words: "type -c type type",
        request: r#"Type { source: Cache("type"), options: Options { name_only: false, content_only: false, magic_first: false, all_globs: false, inode: false, cost: false, output: Output { null: false, brief: false, escape: false } }, subjects: Files(["type"]) }"#,
    },
    Asked {
        name: "empty FILE",
        words: "type -c c ''",
        request: r#"Type { source: Cache("c"), options: Options { name_only: false, content_only: false, magic_first: false, all_globs: false, inode: false, cost: false, output: Output { null: false, brief: false, escape: false } }, subjects: Files([""]) }"#,
    },
];

#[test]
fn asks_for_the_users_directories(rt: HostRuntime) -> Result<(), Fail> {
    asks(&rt, rt.alloc(), &USERS)
}

#[test]
fn asks_for_the_rules_of_a_cache(rt: HostRuntime) -> Result<(), Fail> {
    asks(&rt, rt.alloc(), &LISTS)
}

#[test]
fn asks_for_a_check(rt: HostRuntime) -> Result<(), Fail> {
    asks(&rt, rt.alloc(), &CHECKS)
}

#[test]
fn asks_for_an_explanation(rt: HostRuntime) -> Result<(), Fail> {
    asks(&rt, rt.alloc(), &EXPLAINS)
}

#[test]
fn asks_whether_a_type_is_another(rt: HostRuntime) -> Result<(), Fail> {
    asks(&rt, rt.alloc(), &IS_AS)
}

#[test]
fn asks_for_icons(rt: HostRuntime) -> Result<(), Fail> {
    asks(&rt, rt.alloc(), &ICONS)
}

#[test]
fn asks_for_output_by_a_cache(rt: HostRuntime) -> Result<(), Fail> {
    asks(&rt, rt.alloc(), &OUTPUTS)
}

#[test]
fn asks_for_orders_by_a_cache(rt: HostRuntime) -> Result<(), Fail> {
    asks(&rt, rt.alloc(), &ORDERS)
}

#[test]
fn asks_for_files_by_a_cache(rt: HostRuntime) -> Result<(), Fail> {
    asks(&rt, rt.alloc(), &TYPES)
}
