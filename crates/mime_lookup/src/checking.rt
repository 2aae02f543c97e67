//! The checking order: what is asked of a name and a content and in which order, what suffices, and what is chosen
//! ("Recommended checking order").
//!
//! It is the same whoever answers what is asked, by trying all of a database or by an index of it.

ghost use Rattle.std.specs.Prelude.{◌≡◌, ℕ, ◌+◌, ◌<◌, ◌≤◌, true, if◌then◌else◌, length, List, Option, None, Some};
ghost use Rattle.std.specs.Prelude.{All, IfErr, IfOk, IfSome};
ghost use Rattle.mime_base.specs.Database.{PlainDatabase, pairs_of};
ghost use Rattle.mime_base.specs.Kept.{FitsRank};
ghost use Rattle.mime_base.specs.declared.magic.host.Host.{Host};
ghost use Rattle.mime_lookup.specs.Ancestry.{kinds_of};
ghost use Rattle.mime_lookup.specs.CheckingOrder.{IsSniffed, are_one_type, asked_types, before_globs, globs_suffice};
ghost use Rattle.mime_lookup.specs.CheckingOrder.{has_magic, read_limit, types_before};
ghost use Rattle.mime_lookup.specs.Choice.{ChoosesAmong, kept};
ghost use Rattle.mime_lookup.specs.Content.{known_content};
ghost use Rattle.mime_lookup.specs.IndexBytes.{choice_bytes, content_bytes, order_bytes, search_bytes};
ghost use Rattle.mime_lookup.specs.IndexNodes.{nodes_after, nodes_before, order_nodes};
ghost use Rattle.mime_lookup.specs.LookUps.{ChoosesSome, IsPlainAnswer, cause_in, meter_in, name_too_long, read_in};
ghost use Rattle.mime_lookup.specs.Question.{ChoosesFor, ReadsFor};
ghost use Rattle.mime_lookup.specs.declared.order.Order.TheVariants.{AllGlobs, ContentOnly};
ghost use Rattle.mime_lookup.specs.Reads.{AsksUnless, IsReadOrMemory, Reads, UsesReader};

use crate::answer::Answer;
use crate::asked::Asked;
use crate::content::Content;
use crate::limits::LONGEST_NAME;
use crate::order::Order;
use crate::pairs::is_same;
use crate::question::Question;
use crate::sniff::{Sniffed, sniff_content};
use crate::stopped::{Cause, Stopped};
use mime_base::{Host, Meter, OutOfMemory};
use mime_names::RankedKinds;
use std::alloc::Global;

/// The type that the checking order gives to a name and a content.
pub fn look_up_over<'a, A: Asked<'a>, R: Content>(
    alloc: Global,
    database: &A,
    name: &[u8],
    content: &mut Option<R>,
    host: Host,
    order: Order,
) -> Result<Answer<'a>, Stopped>
    // The type is the one that the checking order gives to the name and the whole content, of which it reads as much as it says.
    ensures answers { IfOk result (λ answer. IfSome (known_content R.remaining content.old)
        (λ known. IsPlainAnswer (A.plain database.now) name.now known host order answer)) }
    // Whatever is known of the content, the order gives the type to the name and to some content.
    ensures some { IfOk result (λ answer.
        ChoosesSome (A.plain database.now) name.now content.old host order answer.kind.now) }
    // A name of more than 4,096 bytes is too long, before anything else.
    ensures too_long { 4096 < length name.now → (content.new ≡ content.old) × (result ≡ name_too_long) }
    // For another name it stops only for a read or for memory, so never for a cache.
    ensures otherwise { length name.now ≤ 4096 → IfErr result (λ stopped. IsReadOrMemory stopped.cause) }
    // It takes no more of its reader than magic and the test for text can look at, and gives up only where a read failed.
    ensures reader { Reads R.remaining R.tally R.health (read_limit (A.plain database.now))
        content.old content.new (read_in result) (cause_in result) }
    // It asks its reader only where the globs do not suffice.
    ensures asks { AsksUnless R.health (globs_suffice (A.plain database.now) name.now order)
        content.old content.new (cause_in result) }
    // Of an index no more nodes are counted than the order allows, and no record of a cache is visited.
    ensures nodes { (meter_in result).nodes ≤ order_nodes order
        (A.kept_nodes database.now name.now) (A.all_nodes database.now name.now) }
    // No more bytes are compared than the order allows, by what was read of the content.
    ensures bytes { (meter_in result).bytes
        ≤ order_bytes order (globs_suffice (A.plain database.now) name.now order)
        (A.kept_bytes database.now name.now) (A.all_bytes database.now name.now)
        (content_bytes (A.plain database.now) (read_in result)) (choice_bytes (A.plain database.now) name.now) }
{
    let mut read = 0;
    let mut meter = Meter::new();
    if name.len() > LONGEST_NAME {
        let cause = Cause::NameTooLong;
        return Err(Stopped { cause, read, meter });
    }
    let question = Question { name, host, order };
    match kind_of(alloc, database, &question, content, &mut read, &mut meter) {
        Ok(kind) => Ok(Answer { kind, read, meter }),
        Err(cause) => Err(Stopped { cause, read, meter }),
    }
}

/// The type of a name and a content, and how many bytes of the content were read.
fn kind_of<'a, A: Asked<'a>, R: Content>(
    alloc: Global,
    database: &A,
    question: &Question<'_>,
    content: &mut Option<R>,
    read: &mut u64,
    meter: &mut Meter,
) -> Result<&'a [u8], Cause>
    // Nothing was read.
    requires none { read.old ≡ 0 }
    // The type is the one that the checking order gives to the name and the whole content, where that is known.
    ensures answers { ChoosesFor R.remaining (A.plain database.now) question.now content.old result }
    // It reads as much of it as the order says.
    ensures read { ReadsFor R.remaining (A.plain database.now) question.now content.old read.new result }
    // It stops only for a read or for memory.
    ensures causes { IfErr result IsReadOrMemory }
    // It takes no more of its reader than magic and the test for text can look at, and asks it only where the globs do not suffice.
    ensures uses { UsesReader R.remaining R.tally R.health (read_limit (A.plain database.now))
        (globs_suffice (A.plain database.now) question.now.name.now question.now.order) content.old content.new read.new result }
    // Of an index no more nodes are counted than the order allows.
    ensures nodes { meter.new.nodes ≤ meter.old.nodes + order_nodes question.now.order
        (A.kept_nodes database.now question.now.name.now) (A.all_nodes database.now question.now.name.now) }
    // No more bytes are compared than the order allows.
    ensures bytes { meter.new.bytes ≤ meter.old.bytes
        + order_bytes question.now.order (globs_suffice (A.plain database.now) question.now.name.now question.now.order)
        (A.kept_bytes database.now question.now.name.now) (A.all_bytes database.now question.now.name.now)
        (content_bytes (A.plain database.now) read.new) (choice_bytes (A.plain database.now) question.now.name.now) }
{
    database.keeps_limits();
    let named = named_kinds(alloc, database, question, meter)?;
    if are_one_type(&named.kinds) {
        return Ok(named.kinds[0]);
    }
    let sniffed = sniff_content(alloc, database, content, question.host, read, meter)?;
    if precedes_globs(question.order, &sniffed) {
        return Ok(sniffed.kind);
    }
    let asked = asked_kinds(alloc, database, named, question, sniffed.by_magic, meter)?;
    let kind = choose(alloc, database, &asked, sniffed.kind, meter)?;
    Ok(kind)
}

/// The types of a name that are asked before a content is: those of the kept rules or of all that match, and none
/// where the content is asked first. It is said how many of these are kept.
fn named_kinds<'a, A: Asked<'a>>(
    alloc: Global,
    database: &A,
    question: &Question<'_>,
    meter: &mut Meter,
) -> Result<RankedKinds<'a>, OutOfMemory>
    // These are the types that the order asks first.
    ensures named { IfOk result (λ named. kinds_of named.kinds.items
        ≡ types_before (A.plain database.now) question.now.name.now question.now.order) }
    // Of all that match the first are kept, as many as the types of the rules that are.
    ensures count { question.now.order ≡ AllGlobs → IfOk result (λ named. named.kept
        ≡ length (kept (pairs_of (A.plain database.now)) (A.plain database.now).rules question.now.name.now)) }
    // Of an index no more nodes are counted than for these.
    ensures nodes { meter.new.nodes ≤ meter.old.nodes + nodes_before question.now.order
        (A.kept_nodes database.now question.now.name.now) (A.all_nodes database.now question.now.name.now) }
    // No more bytes are compared than for these.
    ensures bytes { meter.new.bytes ≤ meter.old.bytes + nodes_before question.now.order
        (A.kept_bytes database.now question.now.name.now) (A.all_bytes database.now question.now.name.now) }
{
    match question.order {
        Order::GlobsFirst => {
            let kinds = database.kept_kinds(alloc, question.name, meter)?;
            let kept = kinds.len();
            Ok(RankedKinds { kinds, kept })
        }
        Order::AllGlobs => database.candidate_kinds(alloc, question.name, meter),
        Order::MagicFirst | Order::ContentOnly => {
            let kinds = Vec::new(alloc);
            Ok(RankedKinds { kinds, kept: 0 })
        }
    }
}

/// Whether there are types, and all are one type.
fn are_one_type(kinds: &[&[u8]]) -> bool
    // It says whether the first type is there, and each other is the same.
    ensures { result ≡ are_one_type (kinds_of kinds.now) }
{
    let Some((first, more)) = kinds.split_first() else {
        return false;
    };
    for kind in more {
        if !is_same(*first, *kind) {
            return false;
        }
    }
    true
}

/// Whether what was sniffed is the answer whatever the globs give: a high priority where magic is asked first, and
/// anything where the content alone is asked.
#[tactic(auto, unfolding(crate::specs::CheckingOrder::before_globs))]
fn precedes_globs(order: Order, sniffed: &Sniffed<'_>) -> bool
    // Where it says so what was sniffed comes before the globs, and else nothing does, whichever database it was sniffed by.
    ensures before { (b : PlainDatabase) (content : Option (List ℕ)) (host : Host) → IsSniffed b content host sniffed.now
        → before_globs b content host order ≡ (if result then Some sniffed.now.kind.now else None) }
    // Where the content alone is asked it always says so.
    ensures alone { order ≡ ContentOnly → result ≡ true }
{
    match order {
        Order::GlobsFirst | Order::AllGlobs => false,
        Order::MagicFirst => sniffed.is_high,
        Order::ContentOnly => true,
    }
}

/// The types that are asked for what was sniffed: those of all rules that match where they were asked first and magic
/// sniffed it, else those of the kept rules.
fn asked_kinds<'a, A: Asked<'a>>(
    alloc: Global,
    database: &A,
    named: RankedKinds<'a>,
    question: &Question<'_>,
    by_magic: bool,
    meter: &mut Meter,
) -> Result<Vec<&'a [u8]>, OutOfMemory>
    // These are the types that the order asks first.
    requires named { kinds_of named.kinds.items
        ≡ types_before (A.plain database.now) question.now.name.now question.now.order }
    // Of all that match the first are kept, as many as the types of the rules that are.
    requires count { question.now.order ≡ AllGlobs → named.kept
        ≡ length (kept (pairs_of (A.plain database.now)) (A.plain database.now).rules question.now.name.now) }
    // The rules keep the limits of ranks.
    requires limits { All FitsRank (A.plain database.now).rules }
    // These are the types that are asked for a content that magic sniffed, or didn't.
    ensures asked { (content : Option (List ℕ)) → by_magic ≡ has_magic (A.plain database.now) content question.now.host
        → IfOk result (λ asked. kinds_of asked.items
        ≡ asked_types (A.plain database.now) question.now.name.now content question.now.host question.now.order) }
    // Of an index no more nodes are counted than for the kept rules, and none where types were asked first.
    ensures nodes { meter.new.nodes ≤ meter.old.nodes
        + nodes_after question.now.order (A.kept_nodes database.now question.now.name.now) }
    // No more bytes are compared than for the kept rules, and none where types were asked first.
    ensures bytes { meter.new.bytes ≤ meter.old.bytes
        + nodes_after question.now.order (A.kept_bytes database.now question.now.name.now) }
{
    match question.order {
        Order::GlobsFirst => Ok(named.kinds),
        Order::AllGlobs => {
            let RankedKinds { mut kinds, kept } = named;
            if !by_magic {
                kinds.truncate(kept);
            }
            Ok(kinds)
        }
        Order::MagicFirst | Order::ContentOnly => {
            database.kept_kinds(alloc, question.name, meter)
        }
    }
}

/// What was sniffed where there is no type, else the first of these that is it or a subclass of it,
/// else the first.
fn choose<'a, A: Asked<'a>>(
    alloc: Global,
    database: &A,
    kinds: &[&'a [u8]],
    sniffed: &'a [u8],
    meter: &mut Meter,
) -> Result<&'a [u8], OutOfMemory>
    // No record of a cache is visited.
    ensures nodes { meter.new.nodes ≡ meter.old.nodes }
    // Each type that is met is compared with what was sniffed once, and no more bytes are.
    ensures bytes { meter.new.bytes ≤ meter.old.bytes
        + search_bytes (length kinds.now) (length (A.plain database.now).parents) (length sniffed.entry.now) }
    // It is the one that is chosen among them.
    ensures chosen { IfOk result (λ kind. ChoosesAmong (pairs_of (A.plain database.now))
        (kinds_of kinds.now) sniffed.entry.now kind.now) }
{
    if kinds.is_empty() {
        return Ok(sniffed);
    }
    database.first_of(alloc, kinds, kinds[0], sniffed, meter)
}
