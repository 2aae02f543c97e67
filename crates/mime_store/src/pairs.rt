//! The lists of pairs of texts: aliases with their types, types with the names of their icons.

ghost use Rattle.std.specs.Prelude.{◌≡◌, map, OnOk, IfOk};
ghost use Rattle.mime_base.specs.Format.Sorted.{IsSortedByText};
ghost use Rattle.mime_base.specs.Database.PlainPairs.{plain_icons, plain_pairs};
ghost use Rattle.mime_base.specs.Format.Runs.{first_text};
ghost use Rattle.mime_store.specs.Views.{pair_texts};

use crate::bytes::append_text;
use crate::list::Entry;
use crate::room::take_text;
use crate::text_pair::TextPair;
use crate::texts::compare_texts;
use mime_base::{Icon, OutOfMemory, Pair};
use std::alloc::Global;

/// The texts of pairs, in their order.
#[tactic(auto, using(crate::proofs::RulesLemmas::Fits::type_fits))]
pub fn texts_of_pairs(alloc: Global, pairs: &[Pair]) -> Result<Vec<TextPair<'_>>, OutOfMemory>
    // There is a pair of texts for each pair, in their order.
    ensures { IfOk result (λ found. map pair_texts found.items ≡ plain_pairs pairs.now) }
{
    let mut found = Vec::with_capacity(alloc, pairs.len())?;
    for pair in pairs {
        found.push(TextPair {
            first: pair.name.bytes(),
            second: pair.target.bytes(),
        })?;
    }
    Ok(found)
}

/// The texts of icons, in their order.
#[tactic(auto, using(crate::proofs::RulesLemmas::Fits::type_fits, crate::proofs::RulesLemmas::Fits::icon_fits))]
pub fn texts_of_icons(alloc: Global, icons: &[Icon]) -> Result<Vec<TextPair<'_>>, OutOfMemory>
    // There is a pair of texts for each icon, in their order: its type and its name.
    ensures { IfOk result (λ found. map pair_texts found.items ≡ plain_icons icons.now) }
{
    let mut found = Vec::with_capacity(alloc, icons.len())?;
    for icon in icons {
        found.push(TextPair {
            first: icon.kind.bytes(),
            second: icon.name.bytes(),
        })?;
    }
    Ok(found)
}

/// Sorts pairs by their first texts; those of one first text stay in their order.
pub fn sort_pairs(pairs: &mut Vec<TextPair<'_>>) -> Result<(), OutOfMemory>
    // They are the same pairs by rising first texts, and those of one first text keep their order.
    ensures { OnOk result (IsSortedByText first_text (map pair_texts pairs.old.items) (map pair_texts pairs.new.items)) }
{
    pairs.sort_by(|left, right| compare_texts(left.first, right.first))?;
    Ok(())
}

impl Entry<2> for TextPair<'_> {
    ghost use Rattle.std.specs.Prelude.{ℕ, List};
    ghost use Rattle.mime_base.specs.Format.Pairs.{IsPair};
    ghost use Rattle.mime_store.specs.Views.{pair_texts, pair_texts_room};
    ghost use Rattle.std.proofs.Common.{lit<, lit≤};

    ghost Plain = { List ℕ × List ℕ };

    ghost plain = { pair_texts };

    ghost room = { pair_texts_room };

    ghost IsRecord = { IsPair };

    fn take_room(&self, left: usize) -> Option<usize> {
        let left = left.checked_sub(8)?;
        let left = take_text(left, self.first)?;
        take_text(left, self.second)
    }

    fn write(&self, _alloc: Global, out: &mut Vec<u8>) -> Result<[u32; 2], OutOfMemory> {
        let first = append_text(out, self.first)?;
        let second = append_text(out, self.second)?;
        Ok([first, second])
    }

    ghost some = { lit< tt };

    ghost few = { lit≤ tt };
}
