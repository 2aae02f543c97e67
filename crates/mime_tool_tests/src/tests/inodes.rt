//! What is printed with `--inode`.

use crate::tests::ran::{says, says_over};
use mime_fakes::{Entry, FailingFiles, Said};
use mime_tool::{FileFault, Inode};
use std::test::Fail;

struct Row {
    name: &'static str,
    words: &'static [&'static str],
    status: u8,
    out: &'static str,
    err: &'static str,
}

static ENTRIES: &[(&str, Entry<'static>)] = &[
    ("/s/mime/globs2", Entry::Bytes(b"50:t/a:*.a\n")),
    ("folder.a", Entry::Folder),
    ("terminal", Entry::Special(Inode::CharDevice)),
    ("disk", Entry::Special(Inode::BlockDevice)),
    ("pipe.a", Entry::Special(Inode::Fifo)),
    ("socket", Entry::Special(Inode::Socket)),
    ("link.a", Entry::Dangling),
    ("closed", Entry::Closed),
    ("broken", Entry::Unreadable),
    ("file", Entry::Bytes(b"hello")),
    ("file.a", Entry::Bytes(b"hello")),
];

const ALL: &str = "\
folder.a: inode/directory
terminal: inode/chardevice
disk: inode/blockdevice
pipe.a: inode/fifo
socket: inode/socket
link.a: inode/symlink
";

static ROWS: [Row; 8] = [
    Row {
        name: "every kind",
        words: &[
            "plain", "-d", "/s", "--inode", "folder.a", "terminal", "disk", "pipe.a", "socket",
            "link.a",
        ],
        status: 0,
        out: ALL,
        err: "",
    },
    Row {
        name: "every kind of type",
        words: &[
            "type", "-d", "/s", "--inode", "folder.a", "terminal", "disk", "pipe.a", "socket",
            "link.a",
        ],
        status: 0,
        out: ALL,
        err: "",
    },
    Row {
        name: "what is looked up",
        words: &[
            "plain", "-d", "/s", "--inode", "file", "file.a", "closed", "broken", "none",
        ],
        status: 1,
        out: "file: text/plain\nfile.a: t/a\n",
        err: "mimelook: closed: cannot open\nmimelook: broken: cannot read\nmimelook: none: cannot open\n",
    },
    Row {
        name: "without --inode",
        words: &["plain", "-d", "/s", "folder.a", "pipe.a", "link.a"],
        status: 1,
        out: "",
        err: "mimelook: folder.a: cannot read\nmimelook: pipe.a: cannot open\nmimelook: link.a: cannot open\n",
    },
    Row {
        name: "by name alone",
        words: &[
            "plain",
            "-d",
            "/s",
            "--inode",
            "--name-only",
            "folder.a",
            "none.a",
            "link.a",
            "broken",
        ],
        status: 0,
        out: "folder.a: inode/directory\nnone.a: t/a\nlink.a: inode/symlink\nbroken: application/octet-stream\n",
        err: "",
    },
    Row {
        name: "what it costs",
        words: &["type", "-d", "/s", "--inode", "--cost", "pipe.a"],
        status: 0,
        out: "pipe.a: inode/fifo nodes=0 bytes=0 read=0\n",
        err: "",
    },
    Row {
        name: "by content alone, between zero bytes",
        words: &[
            "type",
            "-d",
            "/s",
            "--inode",
            "--content-only",
            "-0",
            "folder.a",
        ],
        status: 0,
        out: "folder.a\0inode/directory\0",
        err: "",
    },
    Row {
        name: "brief",
        words: &["plain", "-d", "/s", "--inode", "-b", "disk", "file.a"],
        status: 0,
        out: "inode/blockdevice\nt/a\n",
        err: "",
    },
];

#[test]
fn tells_kinds(rt: HostRuntime) -> Result<(), Fail> {
    for row in &ROWS {
        let wanted = Said {
            status: row.status,
            out: row.out,
            err: row.err,
        };
        says_over(&rt, rt.alloc(), row.name, row.words, ENTRIES, wanted)?;
    }
    Ok(())
}

#[test]
fn stops_where_memory_runs_out(rt: HostRuntime) -> Result<(), Fail> {
    let wanted = Said {
        status: 4,
        out: "",
        err: "mimelook: no data directories\nmimelook: out of memory\n",
    };
    let words = &["plain", "-d", "", "--inode", "--name-only", "x"];
    let mut files = FailingFiles(FileFault::Failed);
    says(&rt, rt.alloc(), "memory", words, &mut files, wanted)
}
