//! Names that rules match: conflicts, parents, aliases and markers.

use super::{Row, are_answered};
use mime_base::Host;
use mime_lookup::Order;
use mime_samples::texts::{EMPTY, Texts};

const OGG: Texts<'static> = Texts {
    globs2: b"50:audio/ogg:*.ogg\n50:video/ogg:*.ogg\n",
    subclasses: b"audio/ogg x/a\nx/a audio/ogg\nvideo/ogg x/a\nvideo/ogg application/ogg\n",
    magic: b"MIME-Magic\0\n[50:application/ogg]\n>0=\0\x04OggS\n",
    ..EMPTY
};

const HIGH_OGG: Texts<'static> = Texts {
    magic: b"MIME-Magic\0\n[80:application/ogg]\n>0=\0\x04OggS\n",
    ..OGG
};

const RENAMED: Texts<'static> = Texts {
    globs2: b"50:t/old:*.o\n50:t/new:*.o\n",
    aliases: b"t/old t/new\n",
    ..EMPTY
};

const CYCLE: Texts<'static> = Texts {
    globs2: b"50:inode/x:*.a\n50:inode/y:*.a\n",
    subclasses: b"inode/x inode/z\ninode/z inode/x\ninode/y t/b\n",
    ..EMPTY
};

const MARKER: Texts<'static> = Texts {
    globs2: b"0:t/a:__NOGLOBS__\n50:t/a:*.new\n",
    ..EMPTY
};

const OLD: Texts<'static> = Texts {
    globs2: b"50:t/a:*.old\n",
    ..EMPTY
};

static ROWS: [Row; 10] = [
    Row {
        name: "conflict-subclass-paths",
        dirs: &[OGG],
        file: b"a.ogg",
        content: Some(b"OggS"),
        host: Host::Little,
        order: Order::GlobsFirst,
        kind: b"video/ogg",
        read: 4,
    },
    Row {
        name: "conflict-subclass-paths, magic first",
        dirs: &[OGG],
        file: b"a.ogg",
        content: Some(b"OggS"),
        host: Host::Little,
        order: Order::MagicFirst,
        kind: b"video/ogg",
        read: 4,
    },
    Row {
        name: "conflict-subclass-paths of priority 80",
        dirs: &[HIGH_OGG],
        file: b"a.ogg",
        content: Some(b"OggS"),
        host: Host::Little,
        order: Order::GlobsFirst,
        kind: b"video/ogg",
        read: 4,
    },
    Row {
        name: "conflict-subclass-paths of priority 80, magic first",
        dirs: &[HIGH_OGG],
        file: b"a.ogg",
        content: Some(b"OggS"),
        host: Host::Little,
        order: Order::MagicFirst,
        kind: b"application/ogg",
        read: 4,
    },
    Row {
        name: "conflict-one-type",
        dirs: &[RENAMED],
        file: b"a.o",
        content: None,
        host: Host::Little,
        order: Order::GlobsFirst,
        kind: b"t/new",
        read: 0,
    },
    Row {
        name: "a cycle of parents",
        dirs: &[CYCLE],
        file: b"q.a",
        content: None,
        host: Host::Little,
        order: Order::GlobsFirst,
        kind: b"inode/y",
        read: 0,
    },
    Row {
        name: "noglobs-marker, its own rule",
        dirs: &[MARKER, OLD],
        file: b"f.new",
        content: None,
        host: Host::Little,
        order: Order::GlobsFirst,
        kind: b"t/a",
        read: 0,
    },
    Row {
        name: "noglobs-marker, a rule less preferred",
        dirs: &[MARKER, OLD],
        file: b"f.old",
        content: None,
        host: Host::Little,
        order: Order::GlobsFirst,
        kind: b"application/octet-stream",
        read: 0,
    },
    Row {
        name: "noglobs-marker last, its own rule",
        dirs: &[OLD, MARKER],
        file: b"f.new",
        content: None,
        host: Host::Little,
        order: Order::GlobsFirst,
        kind: b"t/a",
        read: 0,
    },
    Row {
        name: "noglobs-marker last, a rule more preferred",
        dirs: &[OLD, MARKER],
        file: b"f.old",
        content: None,
        host: Host::Little,
        order: Order::GlobsFirst,
        kind: b"t/a",
        read: 0,
    },
];

#[test]
fn rows(rt: HostRuntime) {
    are_answered(&rt, rt.alloc(), &ROWS)
}
