//! A whole text of `magic`: nothing, or a header and sections.

ghost use Rattle.std.specs.Prelude.{Ok, length};
ghost use Rattle.mime_text.specs.Magic.Entries.{plain_flat_sections};
ghost use Rattle.mime_text.specs.Magic.Reading.{AgreesIfMemory, sections_at, whole};

use super::entry::FlatSection;
use super::fault::{MagicFaultKind, ReadError, fault_at};
use super::section::{after_prefix, section};
use std::alloc::Global;

fn sections(alloc: Global, bytes: &[u8]) -> Result<Vec<FlatSection>, ReadError>
    ensures { AgreesIfMemory (λ v. plain_flat_sections v.items) result (sections_at (length bytes.now) bytes.now) }
{
    let mut sections = Vec::new(alloc);
    let mut rest = bytes;
    while !rest.is_empty() {
        let (next, after) = section(alloc, rest)?;
        sections.push(next)?;
        rest = after;
    }
    Ok(sections)
}

/// The sections that the text spells, or its first fault.
#[tactic(auto, unfolding(crate::specs::Magic::Reading::whole))]
pub fn flat_sections(alloc: Global, text: &[u8]) -> Result<Vec<FlatSection>, ReadError>
    // They are the sections that the definition reads of the whole text, or its first fault, or memory ran out.
    ensures { AgreesIfMemory (λ v. plain_flat_sections v.items) result (whole text.now) }
{
    if text.is_empty() {
        return Ok(Vec::new(alloc));
    }
    match after_prefix(b"MIME-Magic\x00\n", text) {
        None => Err(ReadError::Fault(fault_at(MagicFaultKind::NoHeader, text))),
        Some(rest) => sections(alloc, rest),
    }
}
