//! The lookup over an index.

ghost use Rattle.std.specs.Prelude.{◌≡◌, ◌<◌, ◌≤◌, length, IfErr, IfOk, IfSome};
ghost use Rattle.mime_base.specs.Database.{plain_database};
ghost use Rattle.mime_lookup.specs.CheckingOrder.{globs_suffice, read_limit};
ghost use Rattle.mime_lookup.specs.Content.{known_content};
ghost use Rattle.mime_lookup.specs.IndexBytes.{all_bytes, choice_bytes, content_bytes, kept_bytes, order_bytes};
ghost use Rattle.mime_lookup.specs.IndexNodes.{all_nodes, kept_nodes, order_nodes};
ghost use Rattle.mime_lookup.specs.LookUps.{ChoosesSome, IsPlainAnswer, cause_in, meter_in, name_too_long, read_in};
ghost use Rattle.mime_lookup.specs.Reads.{AsksUnless, IsReadOrMemory, Reads};

use crate::ancestry::first_at;
use crate::answer::Answer;
use crate::asked::Asked;
use crate::checking::look_up_over;
use crate::content::Content;
use crate::indexed::IndexedDatabase;
use crate::indexed::candidates::candidate_kinds;
use crate::indexed::kept::kept_kinds;
use crate::indexed::sniff::first_section;
use crate::order::Order;
use crate::places::unalias_at;
use crate::short_types::types_are_short;
use crate::stopped::Stopped;
use mime_base::{Host, Meter, OutOfMemory, database_keeps_limits};
use mime_names::RankedKinds;
use std::alloc::Global;

/// The type that the checking order gives to a name and a content, over an index: as [`crate::look_up_plain`]
/// answers over its database, and with no other reads.
///
/// `None` is content that is not available; a reader is still there after the call. Of a content at
/// most the greater of 128 bytes and the database's extent is read; under [`Order::GlobsFirst`]
/// nothing where the globs give one type, under [`Order::AllGlobs`] nothing where all rules that
/// match give one type.
///
/// A name of more than 4,096 bytes is [`Cause::NameTooLong`], before anything else. [`Cause::Read`]
/// comes with a failed read and with the 1,001st interruption. The meter counts each step in the index of
/// names as a node, and no record of a cache: at most three for each byte of the name, six, and one for each
/// rule near it, however many rules there are. Where most rules are
/// general patterns each is tried in place of that, and no node is counted. As bytes the meter counts what
/// matching compares, and each part of the index of magic: where the globs suffice no more than the name's length, the
/// longest pattern and the rules near the name allow, however many rules there are; else no more than that, the lines
/// and what is read of the content, and the rules that match and the subclass pairs.
pub fn look_up_indexed<'a, R: Content>(
    alloc: Global,
    index: &IndexedDatabase<'a>,
    name: &[u8],
    content: &mut Option<R>,
    host: Host,
    order: Order,
) -> Result<Answer<'a>, Stopped>
    // The type is the one that the checking order gives to the name and the whole content, of which it reads as much as it says.
    ensures answers { IfOk result (λ answer. IfSome (known_content R.remaining content.old)
        (λ known. IsPlainAnswer (plain_database index.now) name.now known host order answer)) }
    // Whatever is known of the content, the order gives the type to the name and to some content.
    ensures some { IfOk result (λ answer.
        ChoosesSome (plain_database index.now) name.now content.old host order answer.kind.now) }
    // A name of more than 4,096 bytes is too long, before anything else.
    ensures too_long { 4096 < length name.now → (content.new ≡ content.old) × (result ≡ name_too_long) }
    // For another name it stops only for a read or for memory, so never for a cache.
    ensures otherwise { length name.now ≤ 4096 → IfErr result (λ stopped. IsReadOrMemory stopped.cause) }
    // It takes no more of its reader than magic and the test for text can look at, and gives up only where a read failed.
    ensures reader { Reads R.remaining R.tally R.health (read_limit (plain_database index.now))
        content.old content.new (read_in result) (cause_in result) }
    // It asks its reader only where the globs do not suffice.
    ensures asks { AsksUnless R.health (globs_suffice (plain_database index.now) name.now order)
        content.old content.new (cause_in result) }
    // Of the index no more nodes are counted than a name's length and the rules near it allow, and no record of a cache is visited.
    ensures nodes { (meter_in result).nodes ≤ order_nodes order
        (kept_nodes index.now.rules.items name.now) (all_nodes index.now.rules.items name.now) }
    // Where the globs suffice no more bytes are compared than the name's length, the longest pattern and the rules near the name
    // allow; else no more than that, the lines and what is read of the content, and the rules that match and the subclass pairs.
    ensures bytes { (meter_in result).bytes ≤ order_bytes order (globs_suffice (plain_database index.now) name.now order)
        (kept_bytes index.now.rules.items name.now) (all_bytes index.now.rules.items name.now)
        (content_bytes (plain_database index.now) (read_in result)) (choice_bytes (plain_database index.now) name.now) }
{
    look_up_over(alloc, index, name, content, host, order)
}

impl<'a> Asked<'a> for IndexedDatabase<'a> {
    ghost plain = { plain_database };

    ghost kept_nodes = { λ database. kept_nodes database.rules.items };

    ghost all_nodes = { λ database. all_nodes database.rules.items };

    ghost kept_bytes = { λ database. kept_bytes database.rules.items };

    ghost all_bytes = { λ database. all_bytes database.rules.items };

    // Always inlined, so that the types are not moved.
    #[inline(always)]
    fn kept_kinds(
        &self,
        alloc: Global,
        name: &[u8],
        meter: &mut Meter,
    ) -> Result<Vec<&'a [u8]>, OutOfMemory> {
        kept_kinds(alloc, self, name, meter)
    }

    // Always inlined, so that the types are not moved.
    #[inline(always)]
    fn candidate_kinds(
        &self,
        alloc: Global,
        name: &[u8],
        meter: &mut Meter,
    ) -> Result<RankedKinds<'a>, OutOfMemory> {
        candidate_kinds(alloc, self, name, meter)
    }

    fn first_section(
        &self,
        content: &[u8],
        host: Host,
        meter: &mut Meter,
    ) -> Option<(&'a [u8], u32)> {
        match &self.magic {
            Some(magic) => first_section(&magic.heads, content, host, meter),
            None => self.lists().first_section(content, host, meter),
        }
    }

    fn unalias(&self, kind: &'a [u8]) -> &'a [u8] {
        unalias_at(&self.pairs.aliases, kind)
    }

    fn first_of(
        &self,
        alloc: Global,
        kinds: &[&'a [u8]],
        default: &'a [u8],
        base: &[u8],
        meter: &mut Meter,
    ) -> Result<&'a [u8], OutOfMemory> {
        first_at(alloc, &self.pairs, kinds, default, base, meter)
    }

    fn front_limit(&self) -> usize {
        match &self.magic {
            Some(magic) => magic.limit,
            None => self.lists().front_limit(),
        }
    }

    fn keeps_limits(&self) {
        database_keeps_limits(self.database);
        types_are_short(self.database);
    }
}
