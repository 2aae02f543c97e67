//! The second half of a lookup: what a front of the content gives, after the name ("Recommended checking order").

ghost use Rattle.std.specs.Prelude.{◌≡◌, ◌+◌, ◌<◌, ◌≤◌, if◌then◌else◌, All, IfErr, IfOk, None, OnOk, length, take, ⊤};
ghost use Rattle.mime_base.specs.Database.{PlainDatabase, pairs_of};
ghost use Rattle.mime_lookup.specs.Affords.{rule_records};
ghost use Rattle.mime_lookup.specs.Ancestry.{kinds_of};
ghost use Rattle.mime_lookup.specs.Cached.{IsCacheText, IsFinding, IsKind, plain_finding};
ghost use Rattle.mime_lookup.specs.CheckingOrder.{Chooses, GlobsDecide};
ghost use Rattle.mime_lookup.specs.Choice.{kept};
ghost use Rattle.mime_lookup.specs.Choosing.{ChoosesKind, CostsChoice, CostsGlobs};
ghost use Rattle.mime_lookup.specs.Costs.{Costs, record_cost};
ghost use Rattle.mime_lookup.specs.Finding.{is_by_magic};
ghost use Rattle.mime_lookup.specs.Halves.{AffordsRest, AreCandidateTexts, Leaves, bytes_of, front_length, order_left, owed_near, owed_nodes};
ghost use Rattle.mime_lookup.specs.Spelling.{SpellsGlobs};
ghost use Rattle.mime_lookup.specs.StepFaults.{IsChoiceFault, IsRestFault, IsSearchFault};
ghost use Rattle.mime_lookup.specs.Steps.{StopsUnread, Suffices, SufficesForChoice};
ghost use Rattle.mime_lookup.specs.declared.order.Order.TheVariants.{GlobsFirst};

use crate::cached::by_name::Candidates;
use crate::cached::indexed_cache::IndexedCache;
use crate::cached::name_types::NameTypes;
use crate::cached::sniff::{Finding, is_high, unalias};
use crate::question::Question;
use mime_view::{CacheFault, Spending, Which};
use std::alloc::Global;

/// The type that a front of a content gives, after the name; `None` is content that is not available.
// Always inlined, so that the candidates are not moved.
#[inline(always)]
pub fn by_content<'a>(
    alloc: Global,
    indexed: &IndexedCache<'a>,
    question: &Question<'_>,
    candidates: Candidates<'a>,
    front: Option<&[u8]>,
    spending: &mut Spending,
) -> Result<&'a [u8], CacheFault>
    // The types are texts of the cache.
    requires texts { AreCandidateTexts indexed.now candidates }
    // Where enough of a database stands that leaves these candidates, the order gives this type to the name and the front.
    ensures chosen { (b : PlainDatabase)
        → Suffices indexed.now question.now.name.now (order_left candidates.entry) (bytes_of front.entry ≡ None) b
        → Leaves b question.now.name.now candidates.entry → IfOk result (λ kind. Chooses b question.now.name.now
        (bytes_of front.entry) question.now.host (order_left candidates.entry) kind.now) }
    // It is a text of the cache, or fixed.
    ensures kind { IfOk result (λ kind. IsKind indexed.now kind.now) }
    // Where enough stands and what is left to be taken is there, only memory is refused.
    ensures stops { StopsUnread indexed.now (bytes_of front.entry ≡ None) spending.old spending.new
        (λ b. Suffices indexed.now question.now.name.now (order_left candidates.entry) (bytes_of front.entry ≡ None) b
        × Leaves b question.now.name.now candidates.entry × AffordsRest b candidates.entry spending.old.budget) result }
    // The front, the types of the name or the choice among them shows the fault.
    ensures fault { IfErr result (IsRestFault indexed.now question.now.name.now (bytes_of front.entry)
        question.now.host spending.new.budget) }
    // Where the glob rules stand and decide, the nodes are fewer than the name left.
    ensures near { (b : PlainDatabase) → SpellsGlobs indexed.now b → Leaves b question.now.name.now candidates.entry
        → GlobsDecide b question.now.name.now (order_left candidates.entry) (bytes_of front.entry ≡ None) → OnOk result
        (spending.new.meter.nodes < spending.old.meter.nodes + owed_near b question.now.name.now candidates.entry) }
    // Whatever the bytes are, it costs what the name left, and 30 nodes for magic and an alias step.
    ensures cost { Costs (record_cost (length question.now.name.now)) (front_length (bytes_of front.entry) + 1)
        (30 + owed_nodes (length question.now.name.now) candidates.entry) spending.old spending.new }
{
    let is_last = leaves_no_search(&candidates, indexed.has_names())
        || indexed.has_room_for_search(spending);
    let finding = indexed.sniff_front(front, question.host, is_last, spending)?;
    match candidates {
        Candidates::Kept(kinds) => {
            let kind = choose(alloc, indexed, kinds.as_slice(), finding, spending)?;
            Ok(kind)
        }
        Candidates::Every(kinds, asked) => {
            let kinds = asked_of(kinds.as_slice(), asked, finding);
            let kind = choose(alloc, indexed, kinds, finding, spending)?;
            Ok(kind)
        }
        Candidates::Unasked => {
            if is_high(finding) {
                let kind = unalias(indexed, finding, spending)?;
                return Ok(kind);
            }
            let kind = by_globs(alloc, indexed, question.name, finding, spending)?;
            Ok(kind)
        }
        Candidates::Ignored => {
            let kind = unalias(indexed, finding, spending)?;
            Ok(kind)
        }
    }
}

/// Whether nothing is taken of the budget once a content was sniffed: what is left to choose among has no types, and none are walked
/// for.
fn leaves_no_search(candidates: &Candidates<'_>, has_names: bool) -> bool {
    match candidates {
        Candidates::Kept(kinds) | Candidates::Every(kinds, _) => kinds.as_slice().is_empty(),
        Candidates::Unasked => has_names,
        Candidates::Ignored => true,
    }
}

/// Of the types of all rules that match those that are asked for what was found: all where magic found it, else the first.
fn asked_of<'k, 'a>(kinds: &'k [&'a [u8]], asked: usize, finding: Finding<'_>) -> &'k [&'a [u8]]
    requires front { asked ≤ length kinds.now }
    ensures { kinds_of result.now ≡ (if is_by_magic (plain_finding finding.entry)
        then kinds_of kinds.now else take asked (kinds_of kinds.now)) }
{
    match finding {
        Finding::Magic(..) => kinds,
        Finding::Fixed(_) => &kinds[..asked],
    }
}

/// What the globs give, and where they conflict or are silent the choice by what was found.
fn by_globs<'a>(
    alloc: Global,
    indexed: &IndexedCache<'a>,
    name: &[u8],
    finding: Finding<'a>,
    spending: &mut Spending,
) -> Result<&'a [u8], CacheFault>
    requires finding { IsFinding indexed.now finding }
    requires short { length name.now ≤ 4096 }
    ensures answers { ChoosesKind indexed.now (Suffices indexed.now name.now GlobsFirst ⊤)
        (λ b. kept (pairs_of b) b.rules name.now) finding.entry result }
    ensures stops { StopsUnread indexed.now ⊤ spending.old spending.new (λ b. Suffices indexed.now name.now GlobsFirst ⊤ b
        × (rule_records b + length b.parents ≤ spending.old.budget.records)) result }
    ensures fault { IfErr result (IsChoiceFault indexed.now name.now spending.new.budget) }
    ensures costs { CostsGlobs indexed.now name.now spending.old spending.new result }
{
    let types = indexed.types_of(alloc, name, Which::Kept, true, spending)?;
    match types {
        NameTypes::One(kind) => Ok(kind),
        NameTypes::Others(kinds, _) => {
            let kind = choose(alloc, indexed, kinds.as_slice(), finding, spending)?;
            Ok(kind)
        }
    }
}

/// What was found where no type is asked, else the first of these that is it or a subclass of it, else the first.
fn choose<'a>(
    alloc: Global,
    indexed: &IndexedCache<'a>,
    kinds: &[&'a [u8]],
    finding: Finding<'a>,
    spending: &mut Spending,
) -> Result<&'a [u8], CacheFault>
    requires finding { IsFinding indexed.now finding }
    requires texts { All (IsCacheText indexed.now) (kinds_of kinds.now) }
    ensures answers { ChoosesKind indexed.now (SufficesForChoice indexed.now (kinds_of kinds.now))
        (λ _. kinds_of kinds.now) finding.entry result }
    ensures stops { StopsUnread indexed.now ⊤ spending.old spending.new (λ b. SufficesForChoice indexed.now (kinds_of kinds.now) b
        × (length b.parents ≤ spending.old.budget.records)) result }
    ensures fault { IfErr result (IsSearchFault indexed.now spending.new.budget) }
    ensures costs { CostsChoice (length (kinds_of kinds.now)) spending.old spending.new }
{
    let base = unalias(indexed, finding, spending)?;
    if kinds.is_empty() {
        return Ok(base);
    }
    if kinds.len() == 1 {
        return Ok(kinds[0]);
    }
    let kind = indexed.first_of(alloc, kinds, kinds[0], base, spending)?;
    Ok(kind)
}
