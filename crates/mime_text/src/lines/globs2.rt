//! Reader of `globs2` ("The glob files").
//!
//! A line is `weight:type:pattern`, or `weight:type:pattern:flags` with commas between the flags, of
//! which `cs` makes a rule case-sensitive. The pattern `__NOGLOBS__` is a marker and no rule: it discards
//! the globs of its type from less preferred directories.
//!
//! This project's own: a weight has a value from 0 to 255, a marker may have any, and flags and
//! fields that are unknown say nothing.

ghost use Rattle.std.specs.Prelude.{◌≡◌, ◌++◌, IfOk, OnOk};
ghost use Rattle.std.specs.Option.{option_to_list};
ghost use Rattle.mime_text.specs.Lines.{HasJust, skipped_of};
ghost use Rattle.mime_text.specs.Lines.Globs2.{as_marker, as_rule, entry, has_cs, is_malformed_rule, markers_of, rules_of, weight_of};

use super::Fields;
use super::file::{LineEntry, LineFile, read_lines};
use super::names::{pattern_of, type_name_of};
use mime_base::{GlobRule, OutOfMemory, TypeName};
use std::alloc::Global;

/// What a `globs2` file says.
///
/// The order of `deleted`, and how often a type stands in it, say nothing.
#[derive(Debug, Drop)]
pub struct GlobsFile {
    /// The rules, in the order of their lines.
    pub rules: Vec<GlobRule>,
    /// The types whose globs of less preferred directories are discarded.
    pub deleted: Vec<TypeName>,
    /// The numbers of the malformed lines, rising and counted from 1.
    pub skipped: Vec<u64>,
}

/// What a line spells.
#[derive(Debug, Drop)]
enum GlobEntry {
    /// A rule.
    Rule(GlobRule),
    /// A marker for the globs of a type.
    Marker(TypeName),
}

/// The pattern of a marker.
const MARKER: &[u8] = b"__NOGLOBS__";

/// The flag of a case-sensitive rule.
const CASED: &[u8] = b"cs";

/// Reads a `globs2` file. It fails only where an allocation is refused.
///
/// ```
/// let file = read_globs2(rt.alloc(), b"50:text/plain:*.txt\nno rule\n")?;
/// assert_eq!(rt; file.rules.len(), 1);
/// assert_eq!(rt; file.skipped.as_slice(), &[2]);
/// ```
///
/// A malformed line is told by its number. Empty lines and comments are skipped.
#[tactic(auto, unfolding(crate::specs::Lines::Globs2::rules_of, crate::specs::Lines::Globs2::markers_of))]
pub fn read_globs2(alloc: Global, bytes: &[u8]) -> Result<GlobsFile, OutOfMemory>
    // The rules are those that the lines spell, in their order, repetitions kept.
    ensures rules { IfOk result (λ file. file.rules.items ≡ rules_of bytes.now) }
    // A type is deleted exactly where some line is a marker of it; in which order and how often is left open.
    ensures deleted { IfOk result (λ file. HasJust file.deleted.items (markers_of bytes.now)) }
    // The numbers of the malformed lines, rising; the first line is 1, and empty lines and comments count too.
    ensures skipped { IfOk result (λ file. file.skipped.items ≡ skipped_of is_malformed_rule bytes.now) }
{
    let read: LineFile<GlobEntry> = read_lines(alloc, bytes)?;
    let mut file = GlobsFile {
        rules: Vec::with_capacity(alloc, read.entries.len())?,
        deleted: Vec::new(alloc),
        skipped: read.skipped,
    };
    for entry in read.entries {
        file.add(entry)?;
    }
    Ok(file)
}

impl GlobsFile {
    fn add(&mut self, entry: GlobEntry) -> Result<(), OutOfMemory>
        ensures rules { OnOk result
            (self.new.rules.items ≡ self.old.rules.items ++ option_to_list (as_rule entry)) }
        ensures deleted { OnOk result
            (self.new.deleted.items ≡ self.old.deleted.items ++ option_to_list (as_marker entry)) }
        ensures skipped { self.new.skipped ≡ self.old.skipped }
    {
        match entry {
            GlobEntry::Rule(rule) => self.rules.push(rule)?,
            GlobEntry::Marker(kind) => self.deleted.push(kind)?,
        }
        Ok(())
    }
}

impl LineEntry for GlobEntry {
    ghost use Rattle.mime_text.specs.Lines.Globs2.{entry_of};

    ghost entry_of = { entry_of };

    #[tactic(auto, unfolding(crate::specs::Lines::Globs2::entry_of))]
    fn read(alloc: Global, line: &[u8]) -> Result<Option<GlobEntry>, OutOfMemory> {
        let mut fields = Fields::new(line, b':');
        let (Some(weight), Some(kind), Some(pattern)) = (
            fields.next(),
            fields.next(),
            fields.next(),
        ) else {
            return Ok(None);
        };
        let cased = match fields.next() {
            Some(flags) => has_cs(flags),
            None => false,
        };
        entry(alloc, weight_of(weight), kind, pattern, cased)
    }
}

/// What a line spells by its fields.
#[tactic(auto, unfolding(crate::specs::Lines::Globs2::entry))]
fn entry(
    alloc: Global,
    weight: Option<u8>,
    kind: &[u8],
    pattern: &[u8],
    cased: bool,
) -> Result<Option<GlobEntry>, OutOfMemory>
    ensures { IfOk result (λ found. found ≡ entry weight kind.now pattern.now cased) }
{
    let Some(weight) = weight else {
        return Ok(None);
    };
    let Some(kind) = type_name_of(alloc, kind)? else {
        return Ok(None);
    };
    if pattern == MARKER {
        return Ok(Some(GlobEntry::Marker(kind)));
    }
    let Some(pattern) = pattern_of(alloc, pattern)? else {
        return Ok(None);
    };
    Ok(Some(GlobEntry::Rule(GlobRule {
        weight,
        kind,
        pattern,
        cased,
    })))
}

/// The weight that a field spells.
#[tactic(auto, unfolding(crate::specs::Lines::Globs2::weight_of))]
fn weight_of(field: &[u8]) -> Option<u8>
    ensures { result ≡ weight_of field.now }
{
    if field.is_empty() {
        return None;
    }
    let mut weight = 0;
    for byte in field {
        if !byte.is_ascii_digit() {
            return None;
        }
        weight = (weight * 10 + u16::from(*byte - b'0')).min(256);
    }
    u8::try_from(weight).ok()
}

/// Whether `cs` is among the flags.
fn has_cs(flags: &[u8]) -> bool
    ensures { result ≡ has_cs flags.now }
{
    Fields::new(flags, b',').any(|flag| flag == CASED)
}
