//! The types that the glob rules of a cache give to a name ("Recommended checking order").
//!
//! The literal list and the suffix tree are searched twice: by the name for case-sensitive rules, and by
//! the folded name for the others. Where folding leaves the name alone, one search serves both.

ghost use Rattle.std.specs.Prelude.{◌≡◌, false, ◌+◌, ◌*◌, ◌<◌, ◌≤◌, List, [], length};
ghost use Rattle.std.specs.Prelude.{All, IfErr, IfOk, OnOk};
ghost use Rattle.mime_base.specs.Format.Rules.{LiteralsAt};
ghost use Rattle.mime_base.specs.Format.SuffixTree.{SuffixTreeAt};
ghost use Rattle.mime_base.specs.Kept.{FitsRank};
ghost use Rattle.mime_base.specs.Matching.Folding.{compared};
ghost use Rattle.mime_base.specs.declared.database.rule.GlobRule.{GlobRule};
ghost use Rattle.mime_view.specs.Gathered.{HoldsRules};
ghost use Rattle.mime_view.specs.Hits.{hit_visits, literal_visits_twice, literals_twice, offered_once, offered_twice};
ghost use Rattle.mime_view.specs.Hits.{tree_twice, tree_visits_twice};
ghost use Rattle.mime_view.specs.Lists.{LiesList};
ghost use Rattle.mime_view.specs.SuffixTree.{LiesTree};
ghost use Rattle.mime_view.specs.NameHits.{AreHits, FindsInLists, GivesTexts, IsHitsFault, LieLists, RulesAt, SearchesLists};
ghost use Rattle.mime_view.specs.NameHits.{lists_part, walks_part};
ghost use Rattle.mime_view.specs.RuleHits.{AreRuleHits, gives_types};
ghost use Rattle.mime_view.specs.Spending.{SpendsOnName};
ghost use Rattle.mime_view.specs.Steps.{FindsAt, FindsRules, FindsStanding, Searches, list_part};

use crate::capitals::has_capitals;
use crate::fault::CacheFault;
use crate::globs::glob_list_hits;
use crate::hits::{Case, Hits};
use crate::literals::literal_hits;
use crate::name_hits::{NameHits, Which};
use crate::query::{Progress, Query};
use crate::rule_hits::RuleHits;
use crate::spending::Spending;
use crate::suffixes::tree_hits;
use mime_base::fold;
use std::alloc::Global;

/// Where the three lists of glob rules stand.
#[derive(Clone, Copy)]
pub struct RuleLists {
    /// The literal list.
    pub literals: u32,
    /// The suffix tree.
    pub tree: u32,
    /// The glob list.
    pub globs: u32,
}

/// The types of the rules of a name that are asked for.
pub fn glob_hits<'a>(
    alloc: Global,
    query: &Query<'_, 'a>,
    which: Which,
    lists: RuleLists,
    spending: &mut Spending,
) -> Result<NameHits<'a>, CacheFault>
    // Of the rules that stand in the lists, it gives the types of those that are asked for.
    ensures found { FindsInLists (AreHits which) query.now lists spending.old spending.new result }
    // Whatever the bytes are, it gives texts of the cache.
    ensures gives { GivesTexts query.now.counted.now spending.old spending.new result }
    // For an answer the three lists lie in the cache.
    ensures inside { OnOk result (LieLists query.now.counted.now lists query.now.key.now) }
    // Why it gives none.
    ensures fault { IfErr result (IsHitsFault query.now.counted.now lists query.now.key.now spending.new.budget) }
    // A record costs as in the glob list, and the text of a type; the halving comes besides, for both cases.
    ensures cost { SpendsOnName query.now.key.now 3 spending.old spending.new }
{
    let hits = hits_of(alloc, query, which, lists, spending)?;
    hits.read(alloc, query.counted, &mut spending.meter)
}

/// All rules that match a name, by falling rank.
pub fn rule_hits<'a>(
    alloc: Global,
    query: &Query<'_, 'a>,
    lists: RuleLists,
    spending: &mut Spending,
) -> Result<RuleHits<'a>, CacheFault>
    // Of the rules that stand in the lists, it gives those that match, and how many are kept.
    ensures found { FindsInLists AreRuleHits query.now lists spending.old spending.new result }
    // Whatever the bytes are, their types are texts of the cache.
    ensures gives { GivesTexts query.now.counted.now spending.old spending.new (gives_types result) }
    // For an answer the three lists lie in the cache.
    ensures inside { OnOk result (LieLists query.now.counted.now lists query.now.key.now) }
    // Why it gives none.
    ensures fault { IfErr result (IsHitsFault query.now.counted.now lists query.now.key.now spending.new.budget) }
    // A record costs as in the glob list, and the text of a type; the halving comes besides, for both cases.
    ensures cost { SpendsOnName query.now.key.now 3 spending.old spending.new }
{
    let hits = hits_of(alloc, query, Which::Candidates, lists, spending)?;
    hits.read_rules(alloc, query.counted, &mut spending.meter)
}

/// The hits of the rules of a name that are asked for.
// Always inlined, so that what is asked for is known.
#[inline(always)]
fn hits_of(
    alloc: Global,
    query: &Query<'_, '_>,
    which: Which,
    lists: RuleLists,
    spending: &mut Spending,
) -> Result<Hits, CacheFault>
    // Of the rules that stand in the lists, it holds those that are asked for.
    ensures found { FindsInLists (HoldsRules query.now.counted.now which) query.now lists spending.old spending.new result }
    // Whatever the bytes are, those that are asked for are held.
    ensures asked { IfOk result (λ hits. hits.which ≡ which) }
    // Their types stand where the lists say.
    ensures named { IfOk result (λ hits. All (λ hit. (lists_part query.now.counted.now lists query.now.key.now).Kind hit.1) hits.offers) }
    // Each was paid for by a record.
    ensures paid { IfOk result (λ hits. length hits.offers + spending.new.budget.records ≤ spending.old.budget.records) }
    // For an answer the three lists lie in the cache.
    ensures inside { OnOk result (LieLists query.now.counted.now lists query.now.key.now) }
    // Why there are none.
    ensures fault { IfErr result (IsHitsFault query.now.counted.now lists query.now.key.now spending.new.budget) }
    // A record costs as in the glob list; the halving comes besides, for both cases.
    ensures cost { SpendsOnName query.now.key.now 2 spending.old spending.new }
{
    let mut progress = Progress {
        hits: Hits::new(alloc, which),
        spending: *spending,
    };
    let gathered = gather_hits(alloc, query, lists, &mut progress);
    *spending = progress.spending;
    gathered?;
    Ok(progress.hits)
}

/// Offers the rules that match a name.
fn gather_hits(
    alloc: Global,
    query: &Query<'_, '_>,
    lists: RuleLists,
    progress: &mut Progress,
) -> Result<(), CacheFault>
    // Nothing was offered before.
    requires none { progress.now.hits.offers ≡ [] }
    // The hits are of the rules that are asked for.
    ensures answer { (rules : List GlobRule) → All FitsRank rules → RulesAt query.now.counted.now lists rules →
        OnOk result (HoldsRules query.now.counted.now progress.old.hits.which query.now.key.now rules progress.new.hits) }
    // It takes no more records than the rules' visits.
    ensures finds { (rules : List GlobRule) → RulesAt query.now.counted.now lists rules →
        FindsRules query.now.counted.now ⊥ [] (hit_visits query.now.key.now rules) progress.old progress.new result }
    // For an answer the three lists lie in the cache.
    ensures inside { OnOk result (LieLists query.now.counted.now lists query.now.key.now) }
    // A record costs as in the glob list; the halving comes besides, for both cases.
    ensures searches { SearchesLists query.now lists progress.old progress.new result }
{
    let name = query.key;
    if !has_capitals(name) {
        return offer_once(query, lists, progress);
    }
    let folded = fold(alloc, name)?;
    offer_twice(query, &folded, lists, progress)
}

/// Offers the rules that match a name which folding leaves alone.
fn offer_once(
    query: &Query<'_, '_>,
    lists: RuleLists,
    progress: &mut Progress,
) -> Result<(), CacheFault>
    // The name is its own folded name.
    requires alone { compared false query.now.key.now ≡ query.now.key.now }
    // Of the rules that stand in the lists, it offers those that match, each once.
    ensures finds { FindsStanding query.now (RulesAt query.now.counted.now lists) (offered_once query.now.key.now)
        (hit_visits query.now.key.now) progress.old progress.new result }
    // For an answer the three lists lie in the cache.
    ensures inside { OnOk result (LieLists query.now.counted.now lists query.now.key.now) }
    // A record costs as in the glob list; the halving comes besides.
    ensures searches { SearchesLists query.now lists progress.old progress.new result }
{
    let both = Query {
        counted: query.counted,
        key: query.key,
        case: Case::Both,
    };
    literal_hits(&both, lists.literals, progress)?;
    tree_hits(&both, lists.tree, progress)?;
    glob_list_hits(query, lists.globs, progress)
}

/// Offers the rules that match a name, with a search each by the name and by the folded name.
fn offer_twice(
    query: &Query<'_, '_>,
    folded: &[u8],
    lists: RuleLists,
    progress: &mut Progress,
) -> Result<(), CacheFault>
    // The other text is the folded name.
    requires folded { folded.now ≡ compared false query.now.key.now }
    // Of the rules that stand in the lists, it offers those that match.
    ensures finds { FindsStanding query.now (RulesAt query.now.counted.now lists) (offered_twice query.now.key.now)
        (hit_visits query.now.key.now) progress.old progress.new result }
    // For an answer the three lists lie in the cache.
    ensures inside { OnOk result (LieLists query.now.counted.now lists query.now.key.now) }
    // A record costs as in the glob list; the halving comes besides, for both cases.
    ensures searches { SearchesLists query.now lists progress.old progress.new result }
{
    search_twice(query, folded, lists.literals, progress)?;
    walk_twice(query, folded, lists.tree, progress)?;
    glob_list_hits(query, lists.globs, progress)
}

/// Offers the case-sensitive literal rules of a name, and the others of the folded name.
fn search_twice(
    query: &Query<'_, '_>,
    folded: &[u8],
    at: u32,
    progress: &mut Progress,
) -> Result<(), CacheFault>
    // The other text is the folded name.
    requires folded { folded.now ≡ compared false query.now.key.now }
    // Of the rules that stand in the list, it offers those of either text.
    ensures finds { FindsAt query.now LiteralsAt at (literals_twice query.now.key.now)
        (literal_visits_twice query.now.key.now) progress.old progress.new result }
    // For an answer the list lies in the cache.
    ensures inside { OnOk result (LiesList query.now.counted.now at 12) }
    // It costs two searches.
    ensures searches { Searches (list_part query.now.counted.now at) 256 56 progress.old progress.new result }
{
    let exact = Query {
        counted: query.counted,
        key: query.key,
        case: Case::Exact,
    };
    let other = Query {
        counted: query.counted,
        key: folded,
        case: Case::Folded,
    };
    literal_hits(&exact, at, progress)?;
    literal_hits(&other, at, progress)
}

/// Offers the case-sensitive rules of the tree along a name, and the others along the folded name.
fn walk_twice(
    query: &Query<'_, '_>,
    folded: &[u8],
    at: u32,
    progress: &mut Progress,
) -> Result<(), CacheFault>
    // The other text is the folded name.
    requires folded { folded.now ≡ compared false query.now.key.now }
    // Of the rules that stand in the tree, it offers those with an ending of either text.
    ensures finds { FindsAt query.now SuffixTreeAt at (tree_twice query.now.key.now)
        (tree_visits_twice query.now.key.now) progress.old progress.new result }
    // For an answer the tree lies in the cache as far as a walk along the name begins there.
    ensures inside { OnOk result (LiesTree query.now.counted.now at query.now.key.now) }
    // It costs two walks.
    ensures searches { Searches (walks_part query.now.counted.now at query.now.key.now) 256 (58 * length query.now.key.now + 2)
        progress.old progress.new result }
{
    let exact = Query {
        counted: query.counted,
        key: query.key,
        case: Case::Exact,
    };
    let other = Query {
        counted: query.counted,
        key: folded,
        case: Case::Folded,
    };
    tree_hits(&exact, at, progress)?;
    tree_hits(&other, at, progress)
}
