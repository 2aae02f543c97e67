//! Names at their limits.

use crate::tests::checked::alike;
use mime_base::{IconName, NameFault, Pattern, TypeName};
use std::alloc::Global;
use std::process::Abort;
use std::test::Fail;

/// Bytes are the name of a type and are kept, or they are refused.
fn is_type(rt: &impl Abort, alloc: Global, name: &str, bytes: &[u8], fault: Option<NameFault>) {
    match TypeName::new(alloc, bytes) {
        Ok(kind) => alike(rt, name, (kind.bytes(), None), (bytes, fault)),
        Err(refused) => alike(rt, name, Some(refused), fault),
    }
}

/// The same of a pattern.
fn is_pattern(rt: &impl Abort, alloc: Global, name: &str, bytes: &[u8], fault: Option<NameFault>) {
    match Pattern::new(alloc, bytes) {
        Ok(pattern) => alike(rt, name, (pattern.bytes(), None), (bytes, fault)),
        Err(refused) => alike(rt, name, Some(refused), fault),
    }
}

/// The same of the name of an icon.
fn is_icon(rt: &impl Abort, alloc: Global, name: &str, bytes: &[u8], fault: Option<NameFault>) {
    match IconName::new(alloc, bytes) {
        Ok(icon) => alike(rt, name, (icon.bytes(), None), (bytes, fault)),
        Err(refused) => alike(rt, name, Some(refused), fault),
    }
}

const BAD_TYPE: Option<NameFault> = Some(NameFault::BadType);

const BAD_PATTERN: Option<NameFault> = Some(NameFault::BadPattern);

const BAD_ICON: Option<NameFault> = Some(NameFault::BadIcon);

static TYPES: [(&str, &[u8], Option<NameFault>); 5] = [
    ("a type", b"t/a", None),
    ("the slash is first", b"/ab", BAD_TYPE),
    ("the slash is last", b"ab/", BAD_TYPE),
    ("a space", b"a b/c", BAD_TYPE),
    ("two bytes", b"t/", BAD_TYPE),
];

static PATTERNS: [(&str, &[u8], Option<NameFault>); 3] = [
    ("a star", b"*", None),
    ("no byte", b"", BAD_PATTERN),
    ("a colon", b"a:b", BAD_PATTERN),
];

#[test]
fn name_limits(rt: HostRuntime) {
    for &(name, bytes, fault) in &TYPES {
        is_type(&rt, rt.alloc(), name, bytes, fault);
    }
    for &(name, bytes, fault) in &PATTERNS {
        is_pattern(&rt, rt.alloc(), name, bytes, fault);
    }
}

#[test]
fn longest(rt: HostRuntime) {
    let mut bytes = [b'a'; 256];
    bytes[1] = b'/';
    is_type(&rt, rt.alloc(), "255 bytes", &bytes[..255], None);
    is_type(&rt, rt.alloc(), "256 bytes", &bytes, BAD_TYPE);
    is_pattern(&rt, rt.alloc(), "255 bytes", &bytes[..255], None);
    is_pattern(&rt, rt.alloc(), "256 bytes", &bytes, BAD_PATTERN);
}

static ICONS: [(&str, &[u8], Option<NameFault>); 6] = [
    ("a colon", b"a:b", None),
    ("255 bytes", &[b'a'; 255], None),
    ("no byte", b"", BAD_ICON),
    ("a zero byte", b"a\0b", BAD_ICON),
    ("a newline", b"a\nb", BAD_ICON),
    ("256 bytes", &[b'a'; 256], BAD_ICON),
];

#[test]
fn icon_names(rt: HostRuntime) {
    for &(name, bytes, fault) in &ICONS {
        is_icon(&rt, rt.alloc(), name, bytes, fault);
    }
}
