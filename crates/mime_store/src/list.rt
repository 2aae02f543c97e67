//! The lists of a cache: a record for each member, and what the records point to.
//!
//! What a record points to is written before it, so the records of a list are gathered first, and follow
//! all that belongs to its members.

ghost use Rattle.std.specs.Prelude.{◌≡◌, ℕ, ◌+◌, ◌*◌, ◌^◌, ◌<◌, ◌≤◌, List, length, map, sum_by, MatchOption, OnOk, IfOk};
ghost use Rattle.mime_base.specs.Format.Records.{ListAt, Standing};
ghost use Rattle.mime_store.specs.Lists.{IsRow, RecordsIn, list_room};
ghost use Rattle.mime_store.specs.Written.{Grew, Written};

use crate::bytes::append_list;
use mime_base::OutOfMemory;
use smallvec::SmallVec;
use std::alloc::Global;

/// Records of at most that many numbers in all need no allocation.
const SHORT_LIST: usize = 4;

/// A member of a list, whose record has `N` numbers.
pub trait Entry<const N: usize> {
    // What it says, as a plain value.
    ghost Plain: { Type 0 };

    ghost plain: { Self → Self.Plain };

    // How many bytes it takes beside its record.
    ghost room: { Self.Plain → ℕ };

    // Whether the numbers are its record, over what stands.
    ghost IsRecord: { Standing → Self.Plain → List ℕ → Type 0 };

    /// Room for its record and for what that points to.
    fn take_room(&self, left: usize) -> Option<usize>
        // What is left can be pointed to by a number of 32 bits.
        requires { left < 2 ^ 32 }
        // It is what is left after the record and all that it points to, or none where they take more.
        ensures { MatchOption result (left < 4 * N + room (plain self.now))
            (λ rest. rest + (4 * N + room (plain self.now)) ≡ left) };

    /// Writes what its record points to; returns the record.
    fn write(&self, alloc: Global, out: &mut Vec<u8>) -> Result<[u32; N], OutOfMemory>
        // The bytes stay within what a number of 32 bits can point to.
        requires fits { length out.old.items + room (plain self.now) < 2 ^ 32 }
        // The header has its place.
        requires begun { 40 ≤ length out.old.items }
        // The bytes grow by what the member takes beside its record, and what was there stays.
        ensures grew { OnOk result (Grew out.old.items out.new.items (room (plain self.now))) }
        // The numbers are its record, and stay it however much is written after.
        ensures row { IfOk result (λ row. IsRow IsRecord N out.new.items (plain self.now) row) };

    // Its record has some number, and not more than 8.
    ghost some: { 0 < N };

    ghost few: { N ≤ 8 };
}

/// Room for the members of a list, with their records.
pub fn take_list<const N: usize, T: Entry<N>>(left: usize, members: &[T]) -> Option<usize>
    // What is left can be pointed to by a number of 32 bits.
    requires { left < 2 ^ 32 }
    // It is what is left after all members with their records, or none where they take more.
    ensures { MatchOption result (left < list_room N T.room (map T.plain members.now))
        (λ rest. rest + list_room N T.room (map T.plain members.now) ≡ left) }
{
    let mut rest = left;
    for member in members {
        rest = member.take_room(rest)?;
    }
    Some(rest)
}

/// What the records of a list point to; returns the records.
pub fn gather<const N: usize, T: Entry<N>>(
    alloc: Global,
    out: &mut Vec<u8>,
    members: &[T],
) -> Result<SmallVec<u32, SHORT_LIST>, OutOfMemory>
    // The bytes stay within what a number of 32 bits can point to.
    requires fits { length out.old.items + sum_by T.room (map T.plain members.now) < 2 ^ 32 }
    // The header has its place.
    requires begun { 40 ≤ length out.old.items }
    // The bytes grow by what the members take beside their records, and what was there stays.
    ensures grew { OnOk result (Grew out.old.items out.new.items (sum_by T.room (map T.plain members.now))) }
    // There is one record after another, in the order of the members.
    ensures gathered { IfOk result (λ records.
        RecordsIn (IsRow T.IsRecord N out.new.items) records.items (map T.plain members.now)) }
{
    let mut records = SmallVec::with_capacity(alloc, members.len().saturating_mul(N))?;
    for member in members {
        let record = member.write(alloc, out)?;
        records.extend_from_slice(&record)?;
    }
    Ok(records)
}

/// What the records of a list point to, then the count and the records; returns the offset of the count.
pub fn write_list<const N: usize, T: Entry<N>>(
    alloc: Global,
    out: &mut Vec<u8>,
    members: &[T],
) -> Result<u32, OutOfMemory>
    // The bytes stay within what a number of 32 bits can point to.
    requires room { length out.old.items + (4 + list_room N T.room (map T.plain members.now)) < 2 ^ 32 }
    // The header has its place.
    requires begun { 40 ≤ length out.old.items }
    // The bytes grow by the count and by what the members take with their records, and what was there stays.
    ensures grew { OnOk result (Grew out.old.items out.new.items (4 + list_room N T.room (map T.plain members.now))) }
    // The list stands at the offset that is returned: the count, and a record for each member in its order.
    ensures stands { IfOk result (λ at.
        ListAt (Written out.new.items) (4 * N) (T.IsRecord (Written out.new.items)) at (map T.plain members.now)) }
{
    let records = gather(alloc, out, members)?;
    let at = append_list(out, members.len() as u32, records.as_slice())?;
    Ok(at)
}
