//! How much of a cache a lookup may visit. This project's own.

ghost use Rattle.std.specs.Prelude.{◌≡◌, ◌+◌, ◌<◌, ◌/◌, length, OnOk, IfErr};

use crate::cache::Cache;
use crate::fault::CacheFault;

/// What is left to a lookup. Work over bytes that form cycles or share parts ends when it is spent.
#[derive(Clone, Copy, Debug, PartialEq, Eq)]
pub struct Budget {
    /// How many records may still be taken.
    pub records: u64,
    /// How many bytes of magic values may still be taken.
    pub value_bytes: u64,
}

impl Budget {
    /// A quarter of the cache's length, rounded down, and the cache's length. No cache that is packed
    /// needs more.
    pub fn of(cache: &Cache<'_>) -> Budget
        // A quarter of the length, rounded down: a record has four bytes or more.
        ensures records { result.records ≡ length cache.now / 4 }
        // The length.
        ensures value_bytes { result.value_bytes ≡ length cache.now }
    {
        let length = cache.length();
        Budget {
            records: length / 4,
            value_bytes: length,
        }
    }

    /// Takes a record.
    #[inline]
    pub(crate) fn take_record(&mut self) -> Result<(), CacheFault>
        // One record less is left.
        ensures taken { OnOk result (self.new.records + 1 ≡ self.old.records) }
        // It is spent only if none was left.
        ensures spent { IfErr result (λ e. (e ≡ CacheFault.Spent) × (self.old.records ≡ 0) × (self.new.records ≡ 0)) }
        // Value bytes are not touched.
        ensures value_bytes { self.new.value_bytes ≡ self.old.value_bytes }
    {
        if self.records == 0 {
            return Err(CacheFault::Spent);
        }
        self.records -= 1;
        Ok(())
    }

    /// Takes that many value bytes.
    #[inline]
    pub(crate) fn take_value_bytes(&mut self, count: u64) -> Result<(), CacheFault>
        // That many less are left.
        ensures taken { OnOk result (self.new.value_bytes + count ≡ self.old.value_bytes) }
        // It is spent only if fewer were left; they stay.
        ensures spent { IfErr result (λ e. (e ≡ CacheFault.Spent) × (self.old.value_bytes < count)
            × (self.new.value_bytes ≡ self.old.value_bytes)) }
        // Records are not touched.
        ensures records { self.new.records ≡ self.old.records }
    {
        if self.value_bytes < count {
            return Err(CacheFault::Spent);
        }
        self.value_bytes -= count;
        Ok(())
    }
}
