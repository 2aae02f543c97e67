//! What has been looked at, and what may still be taken.
//!
//! Records may name one another's members and values again and again. So what is read back takes its room from the cache's
//! length, as if nothing were shared, and more is not read. That bounds the work and the memory, whatever the bytes are.

ghost use Rattle.std.specs.Prelude.{◌≡◌, ◌⊎◌, ◌+◌, ◌*◌, ◌<◌, ◌≤◌, IfOk, OnErr, OnOk, length};
ghost use Rattle.mime_base.specs.Cache.Bytes.{Stands, fields};
ghost use Rattle.mime_base.specs.Format.Records.{CardsAt};
ghost use Rattle.mime_load.specs.Taking.{VisitsRecord};

use crate::source::Source;
use crate::unread::Unread;
use mime_base::Meter;

/// A meter, and the room that is left. This project's own.
#[derive(Clone, Copy)]
pub struct Taking {
    /// What was looked at.
    pub meter: Meter,
    /// How many bytes records may still have.
    pub records: u64,
    /// How many bytes values may still have.
    pub value_bytes: u64,
}

/// The room of a cache of that length: as many bytes for records, and as many for values.
pub fn room_of(length: u64, meter: Meter) -> Taking
    // The meter is the one that was given.
    ensures meter { result.meter ≡ meter }
    // Records have the cache's length.
    ensures records { result.records ≡ length }
    // Values have it too.
    ensures value_bytes { result.value_bytes ≡ length }
{
    Taking {
        meter,
        records: length,
        value_bytes: length,
    }
}

/// Takes the room of records of that many bytes.
pub fn take_records(bytes: u64, taking: &mut Taking) -> Result<(), Unread>
    // That much is taken, and nothing else.
    ensures taken { OnOk result (taking.new.records + bytes ≡ taking.old.records) }
    // Or too little is left.
    ensures fault { OnErr result (taking.old.records < bytes) }
    // No value byte is taken.
    ensures value_bytes { taking.new.value_bytes ≡ taking.old.value_bytes }
    // Nothing is looked at.
    ensures meter { taking.new.meter ≡ taking.old.meter }
    // What is left never rises.
    ensures fall { taking.new.records ≤ taking.old.records }
{
    if taking.records < bytes {
        return Err(Unread::NotSpelled);
    }
    taking.records -= bytes;
    Ok(())
}

/// The numbers of the record at `at`, which takes that many bytes.
pub fn take_numbers<const N: usize>(
    source: &Source<'_, '_>,
    at: u64,
    bytes: u64,
    taking: &mut Taking,
) -> Result<[u32; N], Unread>
    // No record has more than ten.
    requires most { N ≤ 10 }
    // The numbers that are given stand there.
    ensures stand { IfOk result (λ numbers. CardsAt (Stands source.now.counted.now) at numbers) }
    // They are the record's, in their order.
    ensures numbers { IfOk result (λ numbers. numbers ≡ fields source.now.counted.now at N) }
    // That much was taken.
    ensures taken { OnOk result (taking.new.records + bytes ≡ taking.old.records) }
    // Too little is left, or it does not lie in the cache.
    ensures fault { OnErr result ((taking.old.records < bytes) ⊎ (length source.now.counted.now < at + 4 * N)) }
    // What was visited was taken, and nothing else.
    ensures visits { VisitsRecord bytes taking.old taking.new }
{
    if taking.records < bytes {
        return Err(Unread::NotSpelled);
    }
    taking.records -= bytes;
    let numbers = source.counted.record::<N>(at, &mut taking.meter)?;
    Ok(numbers)
}

/// Takes the room of a value of that many bytes.
pub fn take_value_bytes(size: u32, taking: &mut Taking) -> Result<(), Unread>
    // That much was taken, and nothing else.
    ensures taken { OnOk result (taking.new.value_bytes + size ≡ taking.old.value_bytes) }
    // Too little is left.
    ensures fault { OnErr result (taking.old.value_bytes < size) }
    // No record is taken.
    ensures records { taking.new.records ≡ taking.old.records }
    // Nothing is looked at.
    ensures meter { taking.new.meter ≡ taking.old.meter }
    // What is left never rises.
    ensures fall { taking.new.value_bytes ≤ taking.old.value_bytes }
{
    let size = u64::from(size);
    if taking.value_bytes < size {
        return Err(Unread::NotSpelled);
    }
    taking.value_bytes -= size;
    Ok(())
}
