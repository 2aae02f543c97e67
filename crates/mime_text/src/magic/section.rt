//! A section of `magic`: its head `[priority:type]`, its lines and deletion markers.

ghost use Rattle.std.specs.Prelude.{◌≡◌, length};
ghost use Rattle.mime_text.specs.Magic.Entries.{plain_entry, plain_entries, plain_flat_section, slice_bytes};
ghost use Rattle.mime_text.specs.Magic.Reading.{AgreesIfMemory, after_prefix, entry_at, head_at, head_of, kind_of, lines_at};
ghost use Rattle.mime_text.specs.Magic.Reading.{marker_at, may_be_marker, section_at, starts_line};

use super::entry::{FlatSection, MagicEntry, Role};
use super::fault::{Fault, MagicFaultKind, ReadError, fault_at};
use super::line::{line, row};
use super::number::{byte, is_digit, number};
use mime_base::{NameFault, TypeName};
use std::alloc::Global;

/// The bytes after a prefix, where they have it.
pub fn after_prefix<'a>(prefix: &[u8], bytes: &'a [u8]) -> Option<&'a [u8]>
    // There are bytes after it exactly where the bytes begin with the prefix.
    ensures { slice_bytes result ≡ after_prefix prefix.now bytes.now }
{
    bytes.strip_prefix(prefix)
}

/// The bytes after a deletion marker, where they begin with one.
#[tactic(auto, unfolding(crate::specs::Magic::Reading::marker_at))]
fn marker(bytes: &[u8]) -> Option<&[u8]>
    ensures { slice_bytes result ≡ marker_at bytes.now }
{
    if !may_be_marker(bytes) {
        return None;
    }
    if let Some(rest) = after_prefix(b">0=__NOMAGIC__\n", bytes) {
        return Some(rest);
    }
    if let Some(rest) = after_prefix(b">0__NOMAGIC__\n", bytes) {
        return Some(rest);
    }
    after_prefix(b">0=\x00\x0b__NOMAGIC__\n", bytes)
}

/// Whether the fourth byte or the fifth is one that a deletion marker has there.
fn may_be_marker(bytes: &[u8]) -> bool
    ensures { result ≡ may_be_marker bytes.now }
{
    4 < bytes.len() && (bytes[3] == b'_' || bytes[4] == 11)
}

/// A marker, or a line whose indent may be at most `limit`.
#[tactic(auto, unfolding(crate::specs::Magic::Reading::entry_at))]
fn entry(alloc: Global, limit: u32, bytes: &[u8]) -> Result<(MagicEntry, &[u8]), ReadError>
    ensures { AgreesIfMemory (λ x. (plain_entry x.0, x.1.now)) result (entry_at limit bytes.now) }
{
    if let Some(rest) = marker(bytes) {
        let entry = MagicEntry {
            indent: 0,
            role: Role::Marker,
        };
        return Ok((entry, rest));
    }
    line(alloc, limit, bytes)
}

fn starts_line(b: u8) -> bool
    ensures { result ≡ starts_line b }
{
    b == b'>' || is_digit(b)
}

/// The lines of a section, up to a byte that starts none.
fn lines(alloc: Global, bytes: &[u8]) -> Result<(Vec<MagicEntry>, &[u8]), ReadError>
    ensures { AgreesIfMemory (λ x. (plain_entries x.0.items, x.1.now)) result
        (lines_at (length bytes.now) 0 bytes.now) }
{
    let mut entries = Vec::new(alloc);
    let mut rest = bytes;
    let mut limit = 0;
    while let Some((b, _)) = rest.split_first() {
        if !starts_line(*b) {
            break;
        }
        let (next, after) = entry(alloc, limit, rest)?;
        limit = next.indent + 1;
        entries.push(next)?;
        rest = after;
    }
    Ok((entries, rest))
}

/// The type before the last byte, a `]`.
#[tactic(auto, unfolding(crate::specs::Magic::Reading::kind_of))]
fn kind(alloc: Global, wrong: Fault, bytes: &[u8]) -> Result<TypeName, ReadError>
    ensures { AgreesIfMemory (λ kind. kind) result (kind_of wrong bytes.now) }
{
    match bytes {
        [name @ .., b']'] => match TypeName::new(alloc, name) {
            Ok(kind) => Ok(kind),
            Err(NameFault::OutOfMemory) => Err(ReadError::OutOfMemory),
            Err(_) => Err(ReadError::Fault(wrong)),
        },
        _ => Err(ReadError::Fault(wrong)),
    }
}

/// The priority and the type of a head, read from its bytes after the `[`.
#[tactic(auto, unfolding(crate::specs::Magic::Reading::head_of))]
fn head_row(alloc: Global, wrong: Fault, row: &[u8]) -> Result<(u32, TypeName), ReadError>
    ensures { AgreesIfMemory (λ x. (x.0, x.1)) result (head_of wrong row.now) }
{
    let (priority, rest) = number(row)?;
    let rest = byte(b':', wrong, rest)?;
    let kind = kind(alloc, wrong, rest)?;
    Ok((priority, kind))
}

/// The priority and the type of a section, and what comes after its head.
#[tactic(auto, unfolding(crate::specs::Magic::Reading::head_at))]
fn head(alloc: Global, bytes: &[u8]) -> Result<((u32, TypeName), &[u8]), ReadError>
    ensures { AgreesIfMemory (λ x. ((x.0.0, x.0.1), x.1.now)) result (head_at bytes.now) }
{
    let wrong = fault_at(MagicFaultKind::BadSection, bytes);
    match bytes {
        [] => Err(ReadError::Fault(Fault::TRUNCATED)),
        [b'[', rest @ ..] => {
            let (row, rest) = row(rest)?;
            match head_row(alloc, wrong, row) {
                Ok(head) => Ok((head, rest)),
                Err(ReadError::OutOfMemory) => Err(ReadError::OutOfMemory),
                Err(ReadError::Fault(_)) => Err(ReadError::Fault(wrong)),
            }
        }
        [_, ..] => Err(ReadError::Fault(wrong)),
    }
}

/// A section and what comes after it.
#[tactic(auto, unfolding(crate::specs::Magic::Reading::section_at))]
pub fn section(alloc: Global, bytes: &[u8]) -> Result<(FlatSection, &[u8]), ReadError>
    // It is the section that the definition reads here, with what is left, or its first fault, or memory ran out.
    ensures { AgreesIfMemory (λ x. (plain_flat_section x.0, x.1.now)) result (section_at bytes.now) }
{
    let ((priority, kind), rest) = head(alloc, bytes)?;
    let (entries, rest) = lines(alloc, rest)?;
    let flat = FlatSection {
        priority,
        kind,
        entries,
    };
    Ok((flat, rest))
}
