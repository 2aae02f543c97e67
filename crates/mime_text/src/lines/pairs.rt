//! Reader of `aliases` ("Directory layout") and `subclasses` ("Subclassing").
//!
//! A line is two types with one space between them: an alias and its type, or a type and its parent.

ghost use Rattle.std.specs.Prelude.{◌≡◌, IfOk};
ghost use Rattle.mime_text.specs.Lines.{skipped_of};
ghost use Rattle.mime_text.specs.Lines.Pairs.{is_malformed_pair, pair_of, pairs_in};

use super::Fields;
use super::file::{LineEntry, LineFile, read_lines};
use super::names::type_name_of;
use mime_base::{OutOfMemory, Pair};
use std::alloc::Global;

/// What an `aliases` or a `subclasses` file says.
#[derive(Debug, Drop)]
pub struct PairsFile {
    /// The pairs, in the order of their lines.
    pub pairs: Vec<Pair>,
    /// The numbers of the malformed lines, rising and counted from 1.
    pub skipped: Vec<u64>,
}

/// Reads an `aliases` or a `subclasses` file. It fails only where an allocation is refused.
///
/// A malformed line is told by its number. Empty lines and comments are skipped.
pub fn read_pairs(alloc: Global, bytes: &[u8]) -> Result<PairsFile, OutOfMemory>
    // The pairs are those that the lines spell, in their order, repetitions kept.
    ensures pairs { IfOk result (λ file. file.pairs.items ≡ pairs_in bytes.now) }
    // The numbers of the malformed lines, rising; the first line is 1, and empty lines and comments count too.
    ensures skipped { IfOk result (λ file. file.skipped.items ≡ skipped_of is_malformed_pair bytes.now) }
{
    let file: LineFile<Pair> = read_lines(alloc, bytes)?;
    Ok(PairsFile {
        pairs: file.entries,
        skipped: file.skipped,
    })
}

impl LineEntry for Pair {
    ghost use Rattle.mime_text.specs.Lines.Pairs.{pair_of};

    ghost entry_of = { pair_of };

    #[tactic(auto, unfolding(crate::specs::Lines::Pairs::pair_of))]
    fn read(alloc: Global, line: &[u8]) -> Result<Option<Pair>, OutOfMemory> {
        let mut fields = Fields::new(line, b' ');
        let (Some(name), Some(target), None) = (fields.next(), fields.next(), fields.next()) else {
            return Ok(None);
        };
        let Some(name) = type_name_of(alloc, name)? else {
            return Ok(None);
        };
        let Some(target) = type_name_of(alloc, target)? else {
            return Ok(None);
        };
        Ok(Some(Pair { name, target }))
    }
}
