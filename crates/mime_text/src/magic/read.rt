//! The reader of `magic`.

ghost use Rattle.std.specs.Prelude.{◌≡◌, [], IfErr, IfOk, List, MatchResult, OnOk, length, nat_lt};
ghost use Rattle.std.specs.List.{list_any};
ghost use Rattle.mime_base.specs.Magic.{plain_section, plain_sections};
ghost use Rattle.mime_text.specs.Magic.Entries.{PlainFlatSection, plain_flat_section, plain_flat_sections, plain_role};
ghost use Rattle.mime_text.specs.Magic.File.{ReadsFile, IsFaultOf, IsFileOf, deleted_kinds, is_marker, kept_sections, with_forest};
ghost use Rattle.mime_text.specs.Magic.Reading.{whole};
ghost use Rattle.mime_text.specs.Magic.Text.{MagicText};

use super::entry::{FlatSection, MagicEntry, Role};
use super::fault::{MagicFault, ReadError};
use super::file::MagicFile;
use super::forest::{Root, grow};
use super::text::flat_sections;
use mime_base::{Section, TypeName};
use std::alloc::{AllocError, Global};

fn holds_marker(entries: &[MagicEntry]) -> bool
    ensures { result ≡ list_any (λ e. is_marker (plain_role e.role)) entries.now }
{
    entries
        .iter()
        .any(|entry| matches!(entry.role, Role::Marker))
}

fn copied(alloc: Global, kind: &TypeName) -> Result<TypeName, AllocError>
    ensures { IfOk result (λ copy. copy ≡ kind.now) }
{
    match TypeName::new(alloc, kind.bytes()) {
        Ok(copy) => Ok(copy),
        Err(_) => Err(AllocError),
    }
}

/// The types of the sections that hold a marker.
fn deleted(alloc: Global, flat_sections: &[FlatSection]) -> Result<Vec<TypeName>, AllocError>
    ensures { IfOk result (λ kinds. kinds.items ≡ deleted_kinds (plain_flat_sections flat_sections.now)) }
{
    let mut kinds = Vec::new(alloc);
    for flat in flat_sections {
        if holds_marker(&flat.entries) {
            kinds.push(copied(alloc, &flat.kind)?)?;
        }
    }
    Ok(kinds)
}

/// A section with its lines as a forest, by a stack that is empty before and after it.
fn grown(alloc: Global, roots: &mut Vec<Root>, spelled: FlatSection) -> Result<Section, AllocError>
    requires { roots.old.items ≡ [] }
    ensures grown { IfOk result (λ section. plain_section section ≡ with_forest (plain_flat_section spelled)) }
    ensures left { OnOk result (roots.new.items ≡ []) }
{
    let lines = grow(alloc, roots, spelled.entries)?;
    Ok(Section {
        priority: spelled.priority,
        kind: spelled.kind,
        lines,
    })
}

fn has_lines(section: &Section) -> bool
    ensures { result ≡ nat_lt 0 (length section.now.lines.items) }
{
    !section.lines.is_empty()
}

/// The sections that keep a line.
fn kept(alloc: Global, flat_sections: Vec<FlatSection>) -> Result<Vec<Section>, AllocError>
    ensures { IfOk result (λ v. plain_sections v.items ≡ kept_sections (plain_flat_sections flat_sections.items)) }
{
    let mut roots = Vec::new(alloc);
    let mut sections = Vec::new(alloc);
    for flat in flat_sections {
        let section = grown(alloc, &mut roots, flat)?;
        if has_lines(&section) {
            sections.push(section)?;
        }
    }
    Ok(sections)
}

fn file(alloc: Global, text: &[u8]) -> Result<MagicFile, ReadError>
    ensures { ReadsFile result (whole text.now) }
{
    let flat_sections = flat_sections(alloc, text)?;
    let deleted = deleted(alloc, &flat_sections)?;
    let sections = kept(alloc, flat_sections)?;
    Ok(MagicFile { sections, deleted })
}

/// Reads the text of a file `magic` ("The magic files").
///
/// ```
/// let file = read_magic(rt.alloc(), b"MIME-Magic\0\n[50:image/png]\n>0=\0\x04\x89PNG\n")?;
/// assert_eq!(rt; file.sections.len(), 1);
/// assert_eq!(rt; file.sections[0].priority, 50);
/// ```
///
/// The sections that keep a line stand in the order of the text, each line with its children. A
/// text of no bytes has none. The types of the sections that hold a deletion marker are `deleted`.
///
/// # Errors
///
/// The first fault of the text, or [`MagicFault::OutOfMemory`] where an allocation was refused.
pub fn read_magic(alloc: Global, text: &[u8]) -> Result<MagicFile, MagicFault>
    // What is read is spelled so: the sections that keep a line, in order, and just the types that markers delete.
    ensures found { IfOk result (λ file.
        (flat_sections : List PlainFlatSection) × MagicText text.now flat_sections × IsFileOf flat_sections file) }
    // What is spelled so is read, unless memory runs out.
    ensures only { (flat_sections : List PlainFlatSection) → MagicText text.now flat_sections →
        MatchResult result (λ file. IsFileOf flat_sections file) (λ fault. fault ≡ MagicFault.OutOfMemory) }
    // A fault is the text's first one, with its kind and offset, or memory ran out.
    ensures exact { IfErr result (λ fault. IsFaultOf text.now fault) }
{
    match file(alloc, text) {
        Ok(file) => Ok(file),
        Err(error) => Err(error.placed(text.len())),
    }
}
