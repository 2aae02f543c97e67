//! Lookup by trying every rule, line and pair of a database.

ghost use Rattle.std.specs.Prelude.{◌≡◌, ◌+◌, ◌<◌, ◌≤◌, length, max, IfErr, IfOk, IfSome};
ghost use Rattle.mime_base.specs.Database.{plain_database};
ghost use Rattle.mime_base.specs.Magic.Holds.{first_magic};
ghost use Rattle.mime_base.specs.Magic.{plain_sections};
ghost use Rattle.mime_lookup.specs.CheckingOrder.{globs_suffice, read_limit};
ghost use Rattle.mime_lookup.specs.Content.{known_content};
ghost use Rattle.mime_lookup.specs.IndexBytes.{choice_bytes, content_bytes, order_bytes, tried_bytes};
ghost use Rattle.mime_lookup.specs.LineBytes.{index_bytes};
ghost use Rattle.mime_lookup.specs.LookUps.{ChoosesSome, IsPlainAnswer, cause_in, meter_in, name_too_long, read_in};
ghost use Rattle.mime_lookup.specs.Reads.{AsksUnless, IsReadOrMemory, Reads};
ghost use Rattle.mime_lookup.specs.TopLines.{top_lines};
ghost use Rattle.mime_view.specs.Magic.{plain_found};

pub mod icons;
pub mod subclass;

use crate::ancestry::first_of;
use crate::answer::Answer;
use crate::asked::Asked;
use crate::candidates::candidate_rules;
use crate::checking::look_up_over;
use crate::content::Content;
use crate::kept::kept_rules;
use crate::order::Order;
use crate::pairs::{kinds_of_rules, unalias};
use crate::short_types::types_are_short;
use crate::stopped::Stopped;
use mime_base::{
    Database, Host, Meter, OutOfMemory, Section, TEXTUAL_FRONT, database_keeps_limits, extent,
    some_line_matches,
};
use mime_names::RankedKinds;
use std::alloc::Global;

/// The type that the checking order gives to a name and a content ("Recommended checking order").
///
/// `None` is content that is not available; a reader is still there after the call. Of a content at
/// most the greater of 128 bytes and the database's extent is read; under [`Order::GlobsFirst`]
/// nothing where the globs give one type, under [`Order::AllGlobs`] nothing where all rules that
/// match give one type.
///
/// A name of more than 4,096 bytes is [`Cause::NameTooLong`], before anything else. [`Cause::Read`]
/// comes with a failed read and with the 1,001st interruption. The meter counts what matching
/// compares, and no record.
pub fn look_up_plain<'a, R: Content>(
    alloc: Global,
    database: &'a Database,
    name: &[u8],
    content: &mut Option<R>,
    host: Host,
    order: Order,
) -> Result<Answer<'a>, Stopped>
    // The type is the one that the checking order gives to the name and the whole content, of which it reads as much as it says.
    ensures answers { IfOk result (λ answer. IfSome (known_content R.remaining content.old)
        (λ known. IsPlainAnswer (plain_database database.entry.now) name.now known host order answer)) }
    // Whatever is known of the content, the order gives the type to the name and to some content.
    ensures some { IfOk result (λ answer.
        ChoosesSome (plain_database database.entry.now) name.now content.old host order answer.kind.now) }
    // A name of more than 4,096 bytes is too long, before anything else.
    ensures too_long { 4096 < length name.now → (content.new ≡ content.old) × (result ≡ name_too_long) }
    // For another name it stops only for a read or for memory, so never for a cache.
    ensures otherwise { length name.now ≤ 4096 → IfErr result (λ stopped. IsReadOrMemory stopped.cause) }
    // It takes no more of its reader than magic and the test for text can look at, and gives up only where a read failed.
    ensures reader { Reads R.remaining R.tally R.health (read_limit (plain_database database.entry.now))
        content.old content.new (read_in result) (cause_in result) }
    // It asks its reader only where the globs do not suffice.
    ensures asks { AsksUnless R.health (globs_suffice (plain_database database.entry.now) name.now order)
        content.old content.new (cause_in result) }
    // No record of a cache is visited.
    ensures nodes { (meter_in result).nodes ≡ 0 }
    // Each rule is tried once for the name, each line for what is read of the content, and each type that is met for what was sniffed.
    ensures bytes { (meter_in result).bytes ≤ order_bytes order (globs_suffice (plain_database database.entry.now) name.now order)
        (tried_bytes database.entry.now.rules.items name.now) (tried_bytes database.entry.now.rules.items name.now)
        (content_bytes (plain_database database.entry.now) (read_in result)) (choice_bytes (plain_database database.entry.now) name.now) }
{
    look_up_over(alloc, &Lists { database }, name, content, host, order)
}

/// A database that answers by trying all of its lists.
#[derive(Clone, Copy)]
pub struct Lists<'a> {
    /// The database.
    pub database: &'a Database,
}

impl<'a> Asked<'a> for Lists<'a> {
    ghost plain = { λ lists. plain_database lists.database.now };

    ghost kept_nodes = { λ lists name. 0 };

    ghost all_nodes = { λ lists name. 0 };

    ghost kept_bytes = { λ lists. tried_bytes lists.database.now.rules.items };

    ghost all_bytes = { λ lists. tried_bytes lists.database.now.rules.items };

    #[tactic(auto, unfolding(crate::specs::Choice::kept))]
    fn kept_kinds(
        &self,
        alloc: Global,
        name: &[u8],
        meter: &mut Meter,
    ) -> Result<Vec<&'a [u8]>, OutOfMemory> {
        let rules = kept_rules(alloc, &self.database.rules, name, meter)?;
        let kinds = kinds_of_rules(alloc, &self.database.aliases, &rules)?;
        Ok(kinds)
    }

    fn candidate_kinds(
        &self,
        alloc: Global,
        name: &[u8],
        meter: &mut Meter,
    ) -> Result<RankedKinds<'a>, OutOfMemory> {
        self.keeps_limits();
        let found = candidate_rules(alloc, &self.database.rules, name, meter)?;
        let kinds = kinds_of_rules(alloc, &self.database.aliases, &found.rules)?;
        Ok(RankedKinds {
            kinds,
            kept: found.kept,
        })
    }

    fn first_section(
        &self,
        content: &[u8],
        host: Host,
        meter: &mut Meter,
    ) -> Option<(&'a [u8], u32)> {
        first_section(&self.database.sections, content, host, meter)
    }

    fn unalias(&self, kind: &'a [u8]) -> &'a [u8] {
        unalias(&self.database.aliases, kind)
    }

    fn first_of(
        &self,
        alloc: Global,
        kinds: &[&'a [u8]],
        default: &'a [u8],
        base: &[u8],
        meter: &mut Meter,
    ) -> Result<&'a [u8], OutOfMemory> {
        first_of(alloc, self.database, kinds, default, base, meter)
    }

    fn front_limit(&self) -> usize {
        front_limit(self.database)
    }

    fn keeps_limits(&self) {
        database_keeps_limits(self.database);
        types_are_short(self.database);
    }
}

/// The type and the priority of the first section with a line of indent 0 that holds.
fn first_section<'a>(
    sections: &'a [Section],
    content: &[u8],
    host: Host,
    meter: &mut Meter,
) -> Option<(&'a [u8], u32)>
    ensures first { plain_found result ≡ first_magic (plain_sections sections.entry.now) content.now host }
    ensures nodes { meter.new.nodes ≡ meter.old.nodes }
    ensures bytes { meter.new.bytes ≤ meter.old.bytes + index_bytes (length content.now) (top_lines (plain_sections sections.entry.now)) }
{
    for section in sections {
        if some_line_matches(&section.lines, content, host, meter) {
            return Some((section.kind.bytes(), section.priority));
        }
    }
    None
}

/// How much of a content is read at most.
#[tactic(auto, unfolding(crate::specs::CheckingOrder::read_limit))]
pub fn front_limit(database: &Database) -> usize
    // It is the greater of 128 bytes and the database's extent.
    ensures limit { result ≡ read_limit (plain_database database.now) }
    // Something is read.
    ensures some { 0 < result }
{
    limit_of(extent(database))
}

/// How much of a content is read at most, where lines look so far.
pub fn limit_of(extent: u64) -> usize
    // It is the greater of 128 bytes and the extent.
    ensures { result ≡ max 128 extent }
{
    u64::from(TEXTUAL_FRONT).max(extent) as usize
}
