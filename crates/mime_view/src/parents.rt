//! The parent list: each type that has a parent, with all its parents ("The mime.cache files").

ghost use Rattle.std.specs.Prelude.{ℕ, ◌+◌, ◌*◌, ◌^◌, ◌≤◌, ◌<◌, List, length, MatchResult};
ghost use Rattle.mime_base.specs.Cache.Bytes.{field};
ghost use Rattle.mime_view.specs.Parents.{GivesParents, IsTextUntaken, IsTextsFault, ReadsParents, TakesOrStops, TakesText, TakesTexts};
ghost use Rattle.mime_view.specs.Spending.{Spends, per_record};

use crate::entry::find_entry;
use crate::fault::CacheFault;
use crate::list::count_at;
use crate::marks::Marks;
use crate::spending::Spending;
use crate::texts::Texts;
use mime_base::Counted;
use std::alloc::Global;

/// The parents of a type.
#[derive(Drop)]
pub struct Parents<'a> {
    /// Which entry of the parent list is the type's, counted from 0.
    pub entry: u32,
    /// The parents, in the order of the cache; none where the entry was marked.
    pub types: Texts<'a>,
}

/// The parents of a type, by the parent list at `at`, with a mark on its entry.
pub fn parents_of<'a>(
    alloc: Global,
    counted: &Counted<'a>,
    at: u64,
    kind: &[u8],
    marks: &mut Marks,
    spending: &mut Spending,
) -> Result<Option<Parents<'a>>, CacheFault>
    // The list's offset is a number of 32 bits.
    requires at { at < 2 ^ 32 }
    // No offset needs more than 32 bits.
    requires limit { length counted.now ≤ 2 ^ 28 }
    // Where the list stands, the type's parents are given, none where its entry is marked; each takes a record.
    ensures answer { (pairs : List (List ℕ × List ℕ)) (kinds : List (List ℕ)) → ReadsParents counted.now at pairs kinds →
        GivesParents counted.now at pairs kinds marks.old kind.now spending.old spending.new result }
    // On any bytes an entry that is found is the type's, and is marked then, or nothing is given and the marks stay.
    ensures taken { TakesOrStops counted.now at kind.now spending.old spending.new marks.old marks.new result }
    // It finds an entry, and reads a text for each record.
    ensures cost { Spends (per_record 256) 29 (256 * 27) spending.old spending.new }
{
    let Some(found) = find_entry(counted, at, kind, &mut spending.meter)? else {
        return Ok(None);
    };
    let entry = found.place;
    if marks.contains(entry) {
        let types = Texts::none(alloc);
        return Ok(Some(Parents { entry, types }));
    }
    let types = take_texts(alloc, counted, u64::from(found.target), spending)?;
    marks.add(entry)?;
    Ok(Some(Parents { entry, types }))
}

/// The texts that the list of offsets at `at` names, each with a record of the budget.
fn take_texts<'a>(
    alloc: Global,
    counted: &Counted<'a>,
    at: u64,
    spending: &mut Spending,
) -> Result<Texts<'a>, CacheFault>
    // The list's offset is a number of 32 bits.
    requires at { at < 2 ^ 32 }
    // No offset needs more than 32 bits.
    requires limit { length counted.now ≤ 2 ^ 28 }
    // It takes all texts of the list, or one of them stops it.
    ensures texts { MatchResult result (TakesTexts counted.now at spending.old spending.new)
        (IsTextsFault counted.now at spending.old.budget.records spending.new.budget.records) }
    // It takes no more records than the list counts.
    ensures most { spending.old.budget.records ≤ spending.new.budget.records + field counted.now at 0 }
    // It looks at the list's count, and reads a text for each record.
    ensures cost { Spends (per_record 256) 1 0 spending.old spending.new }
{
    let count = count_at(counted, at, 4, &mut spending.meter)?;
    let first = at + 4;
    if count == 1 {
        let text = take_text(counted, first, spending)?;
        return Ok(Texts::one(text));
    }
    let mut texts = Vec::new(alloc);
    for i in 0..count {
        let text = take_text(counted, first + 4 * i, spending)?;
        texts.push(text)?;
    }
    Ok(Texts::of(texts))
}

/// The text whose offset stands at `at`, with a record of the budget.
fn take_text<'a>(
    counted: &Counted<'a>,
    at: u64,
    spending: &mut Spending,
) -> Result<&'a [u8], CacheFault>
    // The offset lies in the cache.
    requires inside { at + 4 ≤ length counted.now }
    // It takes the text, or no record is left, or no text stands there.
    ensures text { MatchResult result (λ text. TakesText counted.now at spending.old spending.new text.now)
        (IsTextUntaken counted.now at spending.old.budget.records spending.new.budget.records) }
    // It takes one record at most.
    ensures most { spending.old.budget.records ≤ spending.new.budget.records + 1 }
    // It looks at the offset and reads the text.
    ensures cost { Spends (per_record 256) 0 0 spending.old spending.new }
{
    spending.budget.take_record()?;
    let [name] = counted.cards_within::<1>(at, &mut spending.meter);
    let text = counted.text_at(u64::from(name), &mut spending.meter)?;
    Ok(text)
}
