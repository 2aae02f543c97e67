//! Pairs of bytes of the lines that are asked by themselves.
//!
//! Most of these have a range near the front of a content, and hold for none that lacks the later pair of their head there.

ghost use Rattle.std.specs.Prelude.{◌<◌, IfOk};
ghost use Rattle.mime_lookup.specs.Pairs.{ArePaired, IsPairAt, IsPairOf};

use crate::indexed::line_head::LineHead;
use crate::indexed::noted_pairs::{FRONT, NUMBERS, pair_number};
use mime_base::OutOfMemory;
use std::alloc::Global;

/// The number of no pair.
const NONE: u16 = NUMBERS as u16;

/// Of each of these lines the number of a pair that a content has near its front if the line holds.
pub fn pairs_of(
    alloc: Global,
    heads: &[LineHead],
    others: &[usize],
) -> Result<Vec<u16>, OutOfMemory>
    // Each line has the number of a pair of its head, or none.
    ensures { IfOk result (λ pairs. ArePaired pairs.items others.now heads.now) }
{
    let mut pairs = Vec::with_capacity(alloc, others.len())?;
    for at in 0..others.len() {
        pairs.push(pair_at(heads, others[at]))?;
    }
    Ok(pairs)
}

/// The number of a pair of the head of a line.
fn pair_at(heads: &[LineHead], line: usize) -> u16
    ensures { IsPairAt result heads.now line }
{
    if line < heads.len() {
        pair_of(&heads[line])
    } else {
        NONE
    }
}

/// The number of the later pair of a head, if all its places are noted.
fn pair_of(head: &LineHead) -> u16
    ensures { result < 2296 → IsPairOf result head.now }
{
    let skip = usize::from(head.skip);
    let end = head.start as usize + head.range as usize + skip;
    if skip + 1 < usize::from(head.size) && end <= FRONT {
        pair_number(head.third, head.fourth) as u16
    } else {
        NONE
    }
}
