//! One lookup over a cache, and its answer as a line.

use crate::shown::Shown;
use mime_base::{Counted, Host, Meter, TypeName};
use mime_lookup::{Order, Stopped, icon_of, is_a, look_up};
use std::alloc::Global;
use std::io;

/// The type of a content and a name, which stand after each other with a space between them. The content is given in
/// hexadecimal digits, or as `-` where it is not available.
pub fn kind(alloc: Global, cache: &[u8], word: &[u8], order: Order) -> io::Result<String> {
    let (digits, name) = halves(word);
    let bytes = content_of(alloc, digits)?;
    let mut content = if digits == b"-".as_slice() {
        None
    } else {
        Some(bytes.as_slice())
    };
    let (cache, host) = (Counted::new(cache), Host::Little);
    match look_up(alloc, cache, name, &mut content, host, order) {
        Ok(found) => {
            let said = format!(in alloc; "{}", Shown(found.kind))?;
            line(alloc, &said, found.read, found.meter)
        }
        Err(stopped) => refused(alloc, &stopped),
    }
}

/// Whether a type is another, which stands after it and a space, or a subclass of it.
pub fn subclass(alloc: Global, cache: &[u8], word: &[u8]) -> io::Result<String> {
    let (kind, base) = halves(word);
    let (Ok(kind), Ok(base)) = (TypeName::new(alloc, kind), TypeName::new(alloc, base)) else {
        return no_type(alloc);
    };
    match is_a(alloc, Counted::new(cache), &kind, &base) {
        Ok((true, meter)) => line(alloc, "yes", 0, meter),
        Ok((false, meter)) => line(alloc, "no", 0, meter),
        Err(stopped) => refused(alloc, &stopped),
    }
}

/// The names of a type's icon and of its generic icon.
pub fn icons(alloc: Global, cache: &[u8], word: &[u8]) -> io::Result<String> {
    let Ok(kind) = TypeName::new(alloc, word) else {
        return no_type(alloc);
    };
    match icon_of(alloc, Counted::new(cache), &kind) {
        Ok(found) => {
            let (icon, generic) = (Shown(&found.icon), Shown(&found.generic));
            let said = format!(in alloc; "{icon} {generic}")?;
            line(alloc, &said, 0, found.meter)
        }
        Err(stopped) => refused(alloc, &stopped),
    }
}

/// What stands before the first space, and what stands after it.
pub fn halves(word: &[u8]) -> (&[u8], &[u8]) {
    match word.iter().position(|&byte| byte == b' ') {
        Some(at) => (&word[..at], &word[at + 1..]),
        None => (word, &word[word.len()..]),
    }
}

/// The bytes that hexadecimal digits spell, two for each.
pub fn content_of(alloc: Global, digits: &[u8]) -> io::Result<Vec<u8>> {
    let mut content = Vec::new(alloc);
    for pair in digits.chunks_exact(2) {
        content.push(
            digit_of(pair[0])
                .wrapping_mul(16)
                .wrapping_add(digit_of(pair[1])),
        )?;
    }
    Ok(content)
}

fn digit_of(byte: u8) -> u8 {
    match byte {
        b'0'..=b'9' => byte - b'0',
        b'a'..=b'f' => byte - b'a' + 10,
        _ => 0,
    }
}

fn no_type(alloc: Global) -> io::Result<String> {
    line(alloc, "no type", 0, Meter::new())
}

fn refused(alloc: Global, stopped: &Stopped) -> io::Result<String> {
    let said = format!(in alloc; "{stopped}")?;
    line(alloc, &said, stopped.read, stopped.meter)
}

fn line(alloc: Global, said: &str, read: u64, meter: Meter) -> io::Result<String> {
    let (nodes, bytes) = (meter.nodes, meter.bytes);
    Ok(format!(in alloc; "{said} nodes={nodes} bytes={bytes} read={read}")?)
}
