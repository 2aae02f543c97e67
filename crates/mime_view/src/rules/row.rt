//! Records of three numbers: entries of the literal list and of the glob list, and nodes of the suffix
//! tree ("The mime.cache files").

ghost use Rattle.std.specs.Prelude.{◌≡◌, ◌+◌, ◌≤◌, length, MatchResult};
ghost use Rattle.mime_view.specs.Listing.{IsRow};
ghost use Rattle.mime_view.specs.Spending.{Spends, per_record};

use crate::fault::CacheFault;
use crate::spending::Spending;
use mime_base::Counted;

/// The three numbers of a record.
#[derive(Clone, Copy)]
pub struct Row {
    pub first: u32,
    pub second: u32,
    pub third: u32,
}

/// Takes the record at `at`.
pub fn take_row(counted: &Counted<'_>, at: u64, spending: &mut Spending) -> Result<Row, CacheFault>
    // The record lies in the cache.
    requires inside { at + 12 ≤ length counted.now }
    // It gives the record's numbers and takes a record of the budget, or none is left.
    ensures row { MatchResult result (IsRow counted.now at spending.old spending.new)
        (λ e. (e ≡ CacheFault.Spent) × (spending.old.budget.records ≡ 0) × (spending.new.budget.records ≡ 0)) }
    // It reads no text.
    ensures cost { Spends (per_record 0) 0 0 spending.old spending.new }
{
    spending.budget.take_record()?;
    let [first, second, third] = counted.cards::<3>(at, &mut spending.meter)?;
    Ok(Row {
        first,
        second,
        third,
    })
}
