//! What the checking order asks of a database. This project's own.
//!
//! Whoever answers it says which database that is: `lists` tries every rule, line and pair of one, `indexed` looks
//! where an index says. The order itself is in `checking`, and what a content is sniffed as in `sniff`.

ghost use Rattle.std.specs.Prelude.{◌≡◌, ◌+◌, ◌<◌, ◌≤◌, ℕ, List, length, IfOk};
ghost use Rattle.std.specs.List.{All};
ghost use Rattle.mime_base.specs.Database.{PlainDatabase, pairs_of};
ghost use Rattle.mime_base.specs.Database.Subclass.{resolved};
ghost use Rattle.mime_base.specs.Kept.{FitsRank};
ghost use Rattle.mime_base.specs.Magic.Holds.{first_magic};
ghost use Rattle.mime_lookup.specs.Ancestry.{kinds_of};
ghost use Rattle.mime_lookup.specs.CheckingOrder.{read_limit};
ghost use Rattle.mime_lookup.specs.Choice.{IsFirst, candidates, kept};
ghost use Rattle.mime_lookup.specs.IndexBytes.{content_bytes, search_bytes};
ghost use Rattle.mime_lookup.specs.ShortTypes.{HasShortTypes};
ghost use Rattle.mime_view.specs.Magic.{plain_found};

use mime_base::{Host, Meter, OutOfMemory};
use mime_names::RankedKinds;
use std::alloc::Global;

/// A database that the checking order asks.
pub trait Asked<'a> {
    // The database.
    ghost plain: { Self → PlainDatabase };

    // The nodes of an index that the types of the kept rules of a name cost at most.
    ghost kept_nodes: { Self → List ℕ → ℕ };

    // And those of all rules that match it.
    ghost all_nodes: { Self → List ℕ → ℕ };

    // The bytes that the types of the kept rules of a name compare at most.
    ghost kept_bytes: { Self → List ℕ → ℕ };

    // And those of all rules that match it.
    ghost all_bytes: { Self → List ℕ → ℕ };

    /// The types of the rules that are kept of a name, each after one alias step.
    fn kept_kinds(
        &self,
        alloc: Global,
        name: &[u8],
        meter: &mut Meter,
    ) -> Result<Vec<&'a [u8]>, OutOfMemory>
        // These are the types of the rules that are kept of the name, each after one alias step.
        ensures kept { IfOk result (λ kinds. kinds_of kinds.items
            ≡ kept (pairs_of (plain self.now)) (plain self.now).rules name.now) }
        // No more nodes are counted, and no record of a cache is visited.
        ensures nodes { meter.new.nodes ≤ meter.old.nodes + kept_nodes self.now name.now }
        // No more bytes are compared.
        ensures bytes { meter.new.bytes ≤ meter.old.bytes + kept_bytes self.now name.now };

    /// The types of all rules that match a name, by falling rank, each after one alias step, and how many of these are kept.
    fn candidate_kinds(
        &self,
        alloc: Global,
        name: &[u8],
        meter: &mut Meter,
    ) -> Result<RankedKinds<'a>, OutOfMemory>
        // These are the types of all rules that match the name, each after one alias step.
        ensures candidates { IfOk result (λ found. kinds_of found.kinds.items
            ≡ candidates (pairs_of (plain self.now)) (plain self.now).rules name.now) }
        // As many of the first are kept as the types of the rules that are.
        ensures count { IfOk result (λ found. found.kept
            ≡ length (kept (pairs_of (plain self.now)) (plain self.now).rules name.now)) }
        // No more nodes are counted, and no record of a cache is visited.
        ensures nodes { meter.new.nodes ≤ meter.old.nodes + all_nodes self.now name.now }
        // No more bytes are compared.
        ensures bytes { meter.new.bytes ≤ meter.old.bytes + all_bytes self.now name.now };

    /// The type and the priority of the first section with a line of indent 0 that holds for a content.
    fn first_section(
        &self,
        content: &[u8],
        host: Host,
        meter: &mut Meter,
    ) -> Option<(&'a [u8], u32)>
        // They are those of the first section that holds.
        ensures first { plain_found result ≡ first_magic (plain self.now).sections content.now host }
        // No record of a cache is visited.
        ensures nodes { meter.new.nodes ≡ meter.old.nodes }
        // No more bytes are compared than each line allows for the content's length.
        ensures bytes { meter.new.bytes ≤ meter.old.bytes + content_bytes (plain self.now) (length content.now) };

    /// A type after one alias step.
    fn unalias(&self, kind: &'a [u8]) -> &'a [u8]
        // It is the type after one alias step.
        ensures { result.now ≡ resolved (plain self.now).aliases kind.entry.now };

    /// The first of the types that is the base or a subclass of it, else the default.
    fn first_of(
        &self,
        alloc: Global,
        kinds: &[&'a [u8]],
        default: &'a [u8],
        base: &[u8],
        meter: &mut Meter,
    ) -> Result<&'a [u8], OutOfMemory>
        // No record of a cache is visited.
        ensures nodes { meter.new.nodes ≡ meter.old.nodes }
        // Each type that is met is compared with the base once, and no more bytes are.
        ensures bytes { meter.new.bytes ≤ meter.old.bytes
            + search_bytes (length kinds.now) (length (plain self.now).parents) (length base.now) }
        // It is the first of the types that is the base or a subclass of it, else the default.
        ensures first { IfOk result (λ kind. IsFirst (pairs_of (plain self.now))
            base.now default.entry.now (kinds_of kinds.now) kind.now) };

    /// How much of a content is read at most.
    fn front_limit(&self) -> usize
        // It is the greater of 128 bytes and the database's extent.
        ensures limit { result ≡ read_limit (plain self.now) }
        // Something is read.
        ensures some { 0 < result };

    /// The rules and the types keep their limits, as those of every database do.
    fn keeps_limits(&self)
        // Each rule fits a rank.
        ensures ranks { All FitsRank (plain self.now).rules }
        // Each type that a content may be sniffed as has at most 255 bytes.
        ensures types { HasShortTypes (plain self.now) };
}
