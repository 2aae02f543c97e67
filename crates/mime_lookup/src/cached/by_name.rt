//! The first half of a lookup: what a name gives without its content ("Recommended checking order").

ghost use Rattle.std.specs.Prelude.{◌≤◌, IfErr, IfOk, ⊤};
ghost use Rattle.mime_base.specs.Database.{PlainDatabase};
ghost use Rattle.mime_lookup.specs.Affords.{rule_records};
ghost use Rattle.mime_lookup.specs.Halves.{AreTextsByName, CostsByName, Decides};
ghost use Rattle.mime_lookup.specs.Spelling.{SpellsGlobs};
ghost use Rattle.mime_lookup.specs.StepFaults.{IsGlobsFault};
ghost use Rattle.mime_lookup.specs.Steps.{StopsUnread};

use crate::cached::indexed_cache::IndexedCache;
use crate::cached::name_types::NameTypes;
use crate::order::Order;
use crate::question::Question;
use mime_view::{CacheFault, Spending, Texts, Which};
use std::alloc::Global;

/// What a name gives without its content.
#[derive(Drop)]
pub enum NameDecision<'a> {
    /// The type, whatever the content is.
    Decided(&'a [u8]),
    /// The content is wanted, to choose among these.
    Left(Candidates<'a>),
}

/// What a name leaves to choose among.
#[derive(Drop)]
pub enum Candidates<'a> {
    /// The types that are kept of it: none, or several.
    Kept(Texts<'a>),
    /// The types of all rules that match it, and how many of the first are asked where no magic holds.
    Every(Texts<'a>, usize),
    /// What its globs give, which are asked only where magic of high priority gives no type.
    Unasked,
    /// Nothing: its globs are not asked at all.
    Ignored,
}

/// What a name gives without its content, if there is one, under an order.
// Always inlined, so that the candidates are not moved.
#[inline(always)]
pub fn by_name<'a>(
    alloc: Global,
    indexed: &IndexedCache<'a>,
    question: &Question<'_>,
    has_content: bool,
    spending: &mut Spending,
) -> Result<NameDecision<'a>, CacheFault>
    // Where the glob rules of a database stand, it is what the name gives.
    ensures gives { (b : PlainDatabase) → SpellsGlobs indexed.now b → IfOk result
        (Decides b question.now.name.now question.now.order) }
    // Its types are texts of the cache.
    ensures texts { IfOk result (AreTextsByName indexed.now) }
    // Where the glob rules stand and each record that they may take is left, only memory is refused.
    ensures stops { StopsUnread indexed.now ⊤ spending.old spending.new
        (λ b. SpellsGlobs indexed.now b × (rule_records b ≤ spending.old.budget.records)) result }
    // The glob rules or an alias step show the fault.
    ensures fault { IfErr result (IsGlobsFault indexed.now question.now.name.now spending.new.budget) }
    // It costs a search for the types of the name, and what the candidates owe.
    ensures costs { CostsByName indexed.now question.now.name.now spending.old spending.new result }
{
    match question.order {
        Order::GlobsFirst => {
            let types = indexed.types_of(
                alloc,
                question.name,
                Which::Kept,
                !has_content,
                spending,
            )?;
            match types {
                NameTypes::One(kind) => Ok(NameDecision::Decided(kind)),
                NameTypes::Others(kinds, _) => Ok(NameDecision::Left(Candidates::Kept(kinds))),
            }
        }
        Order::AllGlobs => {
            let types = indexed.types_of(
                alloc,
                question.name,
                Which::Candidates,
                !has_content,
                spending,
            )?;
            match types {
                NameTypes::One(kind) => Ok(NameDecision::Decided(kind)),
                NameTypes::Others(kinds, asked) => {
                    Ok(NameDecision::Left(Candidates::Every(kinds, asked)))
                }
            }
        }
        Order::MagicFirst => Ok(NameDecision::Left(Candidates::Unasked)),
        Order::ContentOnly => Ok(NameDecision::Left(Candidates::Ignored)),
    }
}
