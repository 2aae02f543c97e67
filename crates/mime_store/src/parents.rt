//! The parent list: each type that has a parent once, with all its parents.

ghost use Rattle.std.specs.Prelude.{◌≤◌, length, map, take, drop, IfOk};
ghost use Rattle.std.specs.List.Sorted.{IsSortedBy};
ghost use Rattle.mime_base.specs.Format.Runs.{AreRuns, OfKind};
ghost use Rattle.mime_base.specs.Format.Sorted.{text_lt};
ghost use Rattle.mime_store.specs.Runs.{EndsRun, plain_run};
ghost use Rattle.mime_store.specs.Views.{pair_texts};

use crate::bytes::append_text;
use crate::list::{Entry, take_list, write_list};
use crate::room::take_text;
use crate::run::Run;
use crate::text_pair::TextPair;
use mime_base::OutOfMemory;
use std::alloc::Global;

/// The runs of sorted pairs, in their order.
pub fn runs<'p, 'a>(
    alloc: Global,
    pairs: &'p [TextPair<'a>],
) -> Result<Vec<Run<'p, 'a>>, OutOfMemory>
    // The pairs are sorted by their first texts.
    requires sorted { IsSortedBy (λ left right. text_lt left.0 right.0) (map pair_texts pairs.now) }
    // The runs one after another are the pairs, and no first text has two runs.
    ensures { IfOk result (λ runs. AreRuns (map plain_run runs.items) (map pair_texts pairs.now)) }
{
    let mut runs = Vec::new(alloc);
    let mut at = 0;
    while at < pairs.len() {
        let kind = pairs[at].first;
        let taken = run_length(&pairs[at..], kind);
        runs.push(Run {
            kind,
            pairs: &pairs[at..at + taken],
        })?;
        at += taken;
    }
    Ok(runs)
}

/// How many pairs from the front have this first text.
fn run_length(pairs: &[TextPair<'_>], kind: &[u8]) -> usize
    ensures within { result ≤ length pairs.now }
    ensures all { OfKind kind.now (map pair_texts (take result pairs.now)) }
    ensures ends { EndsRun kind.now (map pair_texts (drop result pairs.now)) }
{
    let mut count = 0;
    for pair in pairs {
        if pair.first != kind {
            return count;
        }
        count += 1;
    }
    count
}

impl Entry<2> for Run<'_, '_> {
    ghost use Rattle.mime_base.specs.Format.Runs.{IsRun, PlainRun};
    ghost use Rattle.mime_store.specs.Runs.{plain_run, run_parts_room};
    ghost use Rattle.std.proofs.Common.{lit<, lit≤};

    ghost Plain = { PlainRun };

    ghost plain = { plain_run };

    ghost room = { run_parts_room };

    ghost IsRecord = { IsRun };

    fn take_room(&self, left: usize) -> Option<usize> {
        let left = left.checked_sub(12)?;
        let left = take_text(left, self.kind)?;
        take_list::<1, TextPair<'_>>(left, self.pairs)
    }

    fn write(&self, alloc: Global, out: &mut Vec<u8>) -> Result<[u32; 2], OutOfMemory> {
        let kind = append_text(out, self.kind)?;
        let parents = write_list::<1, TextPair<'_>>(alloc, out, self.pairs)?;
        Ok([kind, parents])
    }

    ghost some = { lit< tt };

    ghost few = { lit≤ tt };
}

/// In the list of a type's parents, the second text alone.
impl Entry<1> for TextPair<'_> {
    ghost use Rattle.std.specs.Prelude.{ℕ, List};
    ghost use Rattle.mime_base.specs.Format.Parents.{IsName};
    ghost use Rattle.mime_base.specs.Format.Room.{text_room};
    ghost use Rattle.mime_store.specs.Views.{pair_texts};
    ghost use Rattle.std.proofs.Common.{lit<, lit≤};

    ghost Plain = { List ℕ × List ℕ };

    ghost plain = { pair_texts };

    ghost room = { λ pair. text_room pair.1 };

    ghost IsRecord = { λ S pair row. IsName S pair.1 row };

    fn take_room(&self, left: usize) -> Option<usize> {
        let left = left.checked_sub(4)?;
        take_text(left, self.second)
    }

    fn write(&self, _alloc: Global, out: &mut Vec<u8>) -> Result<[u32; 1], OutOfMemory> {
        let second = append_text(out, self.second)?;
        Ok([second])
    }

    ghost some = { lit< tt };

    ghost few = { lit≤ tt };
}
