//! Which type a name and a content come to, and what decided it.

ghost use Rattle.std.specs.Prelude.{◌≡◌, ◌↔◌, ◌≤◌, ℕ, IfOk, IsTrue, List, Option, bytes_eq, if◌then◌else◌, is_some, length, option_map};
ghost use Rattle.std.specs.List.{list_all};
ghost use Rattle.mime_base.specs.Database.{pairs_of};
ghost use Rattle.mime_base.specs.Database.Subclass.{IsA};
ghost use Rattle.mime_lookup.specs.Choice.{ChoosesAmong};
ghost use Rattle.mime_tool.specs.Explain.{IsByTypes};
ghost use Rattle.mime_tool.specs.ExplainSteps.{IsDecision, IsFirstBelow, IsReady, IsSeen, database_of, is_content_first, is_every, kinds_of};
ghost use Rattle.mime_tool.specs.ExplainSteps.{preferred};

use super::Explaining;
use super::aliases::is_same;
use super::content::opened;
use mime_base::OutOfMemory;
use mime_lookup::{HIGH_PRIORITY, Order, is_below};
use std::alloc::Global;

/// What decided a type.
#[derive(Clone, Copy)]
pub(crate) enum DecidedBy {
    /// The globs gave one type.
    Name,
    /// The content gave it.
    Content,
    /// One of the types of the globs is that of the content, or a subclass of it.
    Both,
    /// It is the first of the globs, or the default.
    Default,
}

/// A type, and what decided it.
#[derive(Clone, Copy)]
pub(crate) struct Decision<'a> {
    pub(crate) kind: &'a [u8],
    pub(crate) by: DecidedBy,
}

/// What is seen of a name and a content.
#[derive(Clone, Copy)]
pub(crate) struct Seen<'s, 'a> {
    /// The types of the rules that are kept, each after one alias step.
    pub(crate) kept: &'s [&'a [u8]],
    /// Those of all rules that match.
    pub(crate) candidates: &'s [&'a [u8]],
    /// The priority of the first section of magic that holds.
    pub(crate) priority: Option<u32>,
    /// What the content is sniffed as.
    pub(crate) sniffed: &'a [u8],
    /// Whether there is a content.
    pub(crate) is_read: bool,
}

/// The type that the checking order gives, and what decides it.
pub(super) fn decide<'a>(
    alloc: Global,
    explaining: Explaining<'_, 'a, '_>,
    seen: Seen<'_, 'a>,
) -> Result<Decision<'a>, OutOfMemory>
    // The lists were read back of the bytes.
    requires ready { IsReady explaining }
    // The type of the content is no longer than a text of a cache.
    requires short { length seen.sniffed.now ≤ 255 }
    // It is that of the name and the content of which this is seen.
    ensures { (name : List ℕ) (content : Option (List ℕ)) → IsSeen (database_of explaining.entry) name content seen.entry
        → IfOk result (IsDecision (database_of explaining.entry) name content explaining.entry.order) }
{
    if is_content_first(explaining.order, seen.priority) {
        return Ok(Decision {
            kind: seen.sniffed,
            by: DecidedBy::Content,
        });
    }
    let kinds = asked_kinds(explaining.order, seen);
    choose(alloc, explaining, kinds, seen.sniffed, seen.is_read)
}

// Whether the content decides before the globs are asked.
fn is_content_first(order: Order, priority: Option<u32>) -> bool
    ensures { result ≡ is_content_first order priority }
{
    match (order, priority) {
        (Order::ContentOnly, _) => true,
        (Order::MagicFirst, Some(priority)) => HIGH_PRIORITY <= priority,
        (Order::MagicFirst, None) | (Order::GlobsFirst, _) | (Order::AllGlobs, _) => false,
    }
}

// The types of the globs that are asked for what the content is sniffed as.
fn asked_kinds<'s, 'a>(order: Order, seen: Seen<'s, 'a>) -> &'s [&'a [u8]]
    ensures { result.now ≡ (if is_every order (is_some seen.entry.priority) then seen.entry.candidates.now else seen.entry.kept.now) }
{
    match order {
        Order::AllGlobs => {
            if seen.priority.is_some() {
                seen.candidates
            } else {
                seen.kept
            }
        }
        Order::GlobsFirst | Order::MagicFirst | Order::ContentOnly => seen.kept,
    }
}

// The choice among the types that are asked.
fn choose<'a>(
    alloc: Global,
    explaining: Explaining<'_, 'a, '_>,
    kinds: &[&'a [u8]],
    sniffed: &'a [u8],
    is_read: bool,
) -> Result<Decision<'a>, OutOfMemory>
    requires ready { IsReady explaining }
    requires short { length sniffed.now ≤ 255 }
    ensures chosen { IfOk result (λ decision. ChoosesAmong (pairs_of (database_of explaining.entry)) (kinds_of kinds.now)
        sniffed.entry.now decision.kind.now) }
    ensures by { IfOk result (λ decision. IsByTypes is_read
        (IsA (pairs_of (database_of explaining.entry)) decision.kind.now sniffed.entry.now) (kinds_of kinds.now) decision.by) }
{
    let Some((first, more)) = kinds.split_first() else {
        let kind = sniffed;
        let by = without_types(is_read);
        return Ok(Decision { kind, by });
    };
    if are_all(more, *first) {
        let kind = *first;
        let by = DecidedBy::Name;
        return Ok(Decision { kind, by });
    }
    let below = first_below(alloc, explaining, kinds, sniffed)?;
    Ok(preferred(below, *first, is_read))
}

// What decides where the globs give no type.
fn without_types(is_read: bool) -> DecidedBy
    ensures { result ≡ (if is_read then DecidedBy.Content else DecidedBy.Default) }
{
    if is_read {
        DecidedBy::Content
    } else {
        DecidedBy::Default
    }
}

// The type that is what the content was sniffed as, if one is, else the first.
fn preferred<'a>(below: Option<&'a [u8]>, first: &'a [u8], is_read: bool) -> Decision<'a>
    ensures { result ≡ preferred below.entry first.entry is_read }
{
    match below {
        Some(kind) if is_read => Decision {
            kind,
            by: DecidedBy::Both,
        },
        Some(kind) => Decision {
            kind,
            by: DecidedBy::Default,
        },
        None => Decision {
            kind: first,
            by: DecidedBy::Default,
        },
    }
}

// Whether all types are this one.
fn are_all(kinds: &[&[u8]], kind: &[u8]) -> bool
    ensures { result ≡ list_all (bytes_eq kind.now) (kinds_of kinds.now) }
{
    for other in kinds {
        if !is_same(kind, *other) {
            return false;
        }
    }
    true
}

// The first of the types that is the base or a subclass of it.
fn first_below<'a>(
    alloc: Global,
    explaining: Explaining<'_, 'a, '_>,
    kinds: &[&'a [u8]],
    base: &[u8],
) -> Result<Option<&'a [u8]>, OutOfMemory>
    requires ready { IsReady explaining }
    requires short { length base.now ≤ 255 }
    ensures { IfOk result (λ found. IsFirstBelow (pairs_of (database_of explaining.entry)) base.now (kinds_of kinds.now)
        (option_map (λ kind. kind.now) found)) }
{
    for kind in kinds {
        if is_kind_below(alloc, explaining, *kind, base)? {
            return Ok(Some(*kind));
        }
    }
    Ok(None)
}

fn is_kind_below<'a>(
    alloc: Global,
    explaining: Explaining<'_, 'a, '_>,
    kind: &'a [u8],
    base: &[u8],
) -> Result<bool, OutOfMemory>
    requires ready { IsReady explaining }
    requires short { length base.now ≤ 255 }
    ensures { IfOk result (λ is. IsTrue is ↔ IsA (pairs_of (database_of explaining.entry)) kind.entry.now base.now) }
{
    let indexed = opened(explaining.bytes, explaining.lists);
    match is_below(alloc, &indexed, kind, base) {
        Ok(is) => Ok(is),
        // Over a cache that was read back only memory is refused.
        Err(_) => Err(OutOfMemory),
    }
}
