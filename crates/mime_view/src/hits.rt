//! The hits that are held of those that the lists of a cache offer: the best, or all.

ghost use Rattle.std.specs.Prelude.{◌≡◌, ℕ, ◌+◌, ◌*◌, ◌≤◌, List, [], ◌∷◌, length, map, All, Ok, OnOk, OnErr, IfOk, IfErr};
ghost use Rattle.mime_base.specs.Cache.Texts.{text_at};
ghost use Rattle.mime_base.specs.Falling.{falling};
ghost use Rattle.mime_base.specs.Kept.{best, rank_of_rule};
ghost use Rattle.mime_base.specs.declared.database.rule.GlobRule.{GlobRule};
ghost use Rattle.mime_view.specs.Gathered.{AreGiven, Offers, TakesHit, in_order, places_of, plain_hits, wants_rank};
ghost use Rattle.mime_view.specs.Hits.{CandidatesAreNear, takes_rule, IsVisit, KeptAreNear, extra_visits, visits};
ghost use Rattle.mime_view.specs.RuleHits.{AreRulesAt, types_alone};
ghost use Rattle.mime_view.specs.Spending.{Looks, Spends, per_record};
ghost use Rattle.mime_view.specs.Texts.{IsTextsStop, NeedsMemory};

use crate::best_hits::{BestHits, FEW};
use crate::fault::CacheFault;
use crate::kinds::read_kinds;
use crate::name_hits::{NameHits, Which};
use crate::rule_hits::{RuleHits, read_rules};
use crate::spending::Spending;
use mime_base::{Counted, Meter};
use smallvec::SmallVec;
use std::alloc::Global;
use std::marker::Model;

/// Which rules a search takes.
#[derive(Clone, Copy, Debug, PartialEq, Eq)]
pub enum Case {
    /// Those with the case-sensitive flag, by the name as it is.
    Exact,
    /// Those without it, by the folded name.
    Folded,
    /// All rules, by a name that folding leaves alone: one search for both.
    Both,
}

impl Case {
    /// Whether a rule with this flag is taken.
    pub fn takes_rule(self, cased: bool) -> bool
        // Whether the case is that of the flag.
        ensures { result ≡ takes_rule self cased }
    {
        match self {
            Case::Exact => cased,
            Case::Folded => !cased,
            Case::Both => true,
        }
    }

    /// Takes the records of a visit, or those that are left where they are too few, and counts here what the
    /// other search would visit.
    pub fn take_records(self, spending: &mut Spending) -> Result<(), CacheFault>
        // With enough records left, the visit is paid for.
        ensures taken { OnOk result (IsVisit self spending.old spending.new) }
        // Else what is left is taken.
        ensures spent { IfErr result (λ e. (e ≡ CacheFault.Spent) × (spending.new.budget.records ≡ 0)
            × (spending.old.budget.records + 1 ≤ visits self)) }
        // Then too each record is counted.
        ensures cost { OnErr result (Spends (per_record 0) 0 0 spending.old spending.new) }
    {
        let extra = self.extra_visits();
        let records = spending.budget.records;
        if records <= extra {
            spending.meter.nodes = spending.meter.nodes.saturating_add(records);
            spending.budget.records = 0;
            return Err(CacheFault::Spent);
        }
        spending.budget.records = records - (1 + extra);
        spending.meter.nodes = spending.meter.nodes.saturating_add(extra);
        Ok(())
    }

    /// How many visits of the other search a visit stands for.
    fn extra_visits(self) -> u64
        // One where one search serves both cases, else none.
        ensures extra { result ≡ extra_visits self }
        // At most one.
        ensures limit { result ≤ 1 }
    {
        match self {
            Case::Exact | Case::Folded => 0,
            Case::Both => 1,
        }
    }
}

/// What is gathered of the hits.
#[derive(Drop)]
pub enum Gathered {
    /// Those of the greatest rank.
    Best(BestHits),
    /// All, each its rank and the offset of its type.
    Every(SmallVec<(u32, u32), FEW>),
}

/// The hits that are held of those that the lists of a cache offer.
#[derive(Drop)]
pub struct Hits {
    gathered: Gathered,
}

impl Model for Hits {
    ghost use Rattle.mime_view.specs.Gathered.{PlainHits, plain_hits};

    ghost Value = { PlainHits };

    ghost view = { λ hits. plain_hits hits.gathered };
}

impl Hits {
    /// No hits. It never allocates.
    pub fn new(alloc: Global, which: Which) -> Hits
        // Those that are asked for will be held.
        ensures which { result.which ≡ which }
        // There are none.
        ensures none { result.offers ≡ [] }
    {
        let gathered = match which {
            Which::Kept => Gathered::Best(BestHits::new(alloc)),
            Which::Candidates => Gathered::Every(SmallVec::new(alloc)),
        };
        Hits { gathered }
    }

    /// Whether a hit of this rank would be held: of kept rules unless one that is held has a greater rank.
    // Always inlined: asked for each entry of the glob list.
    #[inline(always)]
    pub fn wants(&self, rank: u32) -> bool
        // Whether it is one of those that are asked for, as far as is known.
        ensures { result ≡ wants_rank self.now.which self.now.offers rank }
    {
        match &self.gathered {
            Gathered::Best(hits) => hits.wants(rank),
            Gathered::Every(_) => true,
        }
    }

    /// Offers a hit.
    // Always inlined: a choice and a write, for each rule that matches.
    #[inline(always)]
    pub fn offer(&mut self, rank: u32, kind: u32) -> Result<(), CacheFault>
        // What is gathered of the rules before becomes what is gathered of them and this one.
        ensures offered { (c : List ℕ) → (rule : GlobRule) → rank ≡ rank_of_rule rule → text_at c kind ≡ Ok rule.kind →
            OnOk result (Offers c (rule ∷ []) self.old self.new) }
        // What is asked for stays.
        ensures asked { self.new.which ≡ self.old.which }
        // At most one hit is added, and it is this one.
        ensures takes { TakesHit kind self.old.offers self.new.offers }
        // Only memory can be short.
        ensures fault { IfErr result (λ e. e ≡ CacheFault.OutOfMemory) }
    {
        match &mut self.gathered {
            Gathered::Best(hits) => hits.offer(rank, kind)?,
            Gathered::Every(hits) => hits.push((rank, kind))?,
        }
        Ok(())
    }

    /// Reads the types of the hits.
    // Always inlined: a choice, once for a name.
    #[inline(always)]
    pub fn read<'a>(
        self,
        alloc: Global,
        counted: &Counted<'a>,
        meter: &mut Meter,
    ) -> Result<NameHits<'a>, CacheFault>
        // They are those at the hits' offsets, in the order that is asked for, and it is said how many are kept.
        ensures answer { IfOk result (AreGiven counted.now self) }
        // Where texts stand there, only memory can be short.
        ensures need { NeedsMemory counted.now (map (λ hit. hit.1) (in_order self.which self.offers)) result }
        // Else one of them does not.
        ensures fault { IfErr result (IsTextsStop counted.now (places_of (in_order self.which self.offers))) }
        // It costs their texts.
        ensures looks { Looks 0 (256 * length self.offers) meter.old meter.new }
    {
        match self.gathered {
            Gathered::Best(hits) => read_best(alloc, &hits, counted, meter),
            Gathered::Every(hits) => read_every(alloc, hits, counted, meter),
        }
    }

    /// Reads the rules of the hits, all of which are held.
    pub fn read_rules<'a>(
        self,
        alloc: Global,
        counted: &Counted<'a>,
        meter: &mut Meter,
    ) -> Result<RuleHits<'a>, CacheFault>
        // All were asked for.
        requires all { self.which ≡ Which.Candidates }
        // Their types stand at the hits' offsets, and it is said how many are kept.
        ensures answer { IfOk result (λ found. AreGiven counted.now self (types_alone found)) }
        // Weights and flags are those of the ranks.
        ensures rules { IfOk result (λ found. AreRulesAt counted.now (in_order self.which self.offers) found.rules.items) }
        // Where texts stand there, only memory can be short.
        ensures need { NeedsMemory counted.now (map (λ hit. hit.1) (in_order self.which self.offers)) result }
        // Else one of them does not.
        ensures fault { IfErr result (IsTextsStop counted.now (places_of (in_order self.which self.offers))) }
        // It costs their texts.
        ensures looks { Looks 0 (256 * length self.offers) meter.old meter.new }
    {
        match self.gathered {
            Gathered::Best(_) => unreachable!(),
            Gathered::Every(hits) => read_every_rule(alloc, hits, counted, meter),
        }
    }
}

/// Reads the types of the hits of one rank.
fn read_best<'a>(
    alloc: Global,
    hits: &BestHits,
    counted: &Counted<'a>,
    meter: &mut Meter,
) -> Result<NameHits<'a>, CacheFault>
    // They are those at the hits' offsets, and all are kept.
    ensures answer { IfOk result (AreGiven counted.now (plain_hits (Gathered.Best hits.now))) }
    // Where texts stand there, only memory can be short.
    ensures need { NeedsMemory counted.now (map (λ hit. hit.1) hits.now) result }
    // Else one of them does not.
    ensures fault { IfErr result (IsTextsStop counted.now (places_of hits.now)) }
    // It costs their texts.
    ensures looks { Looks 0 (256 * length hits.now) meter.old meter.new }
{
    let places = hits.kinds();
    let kinds = read_kinds(alloc, counted, places, meter)?;
    Ok(NameHits {
        kinds,
        kept: places.len(),
    })
}

/// Reads the types of all hits, by falling rank.
fn read_every<'a>(
    alloc: Global,
    hits: SmallVec<(u32, u32), FEW>,
    counted: &Counted<'a>,
    meter: &mut Meter,
) -> Result<NameHits<'a>, CacheFault>
    // They are those at the hits' offsets, by falling rank, and as many are kept as have the greatest.
    ensures answer { IfOk result (AreGiven counted.now (plain_hits (Gathered.Every hits))) }
    // Where texts stand there, only memory can be short.
    ensures need { NeedsMemory counted.now (map (λ hit. hit.1) (falling (λ hit. hit.0) hits.items)) result }
    // Else one of them does not.
    ensures fault { IfErr result (IsTextsStop counted.now (places_of (falling (λ hit. hit.0) hits.items))) }
    // It costs their texts.
    ensures looks { Looks 0 (256 * length hits.items) meter.old meter.new }
{
    // One hit is in order.
    if hits.len() == 1 {
        let place = [hits[0].1];
        let only = read_kinds(alloc, counted, &place, meter)?;
        return Ok(NameHits {
            kinds: only,
            kept: 1,
        });
    }
    let mut sorted = hits;
    sort_by_rank(alloc, &mut sorted)?;
    let kept = count_best(&sorted);
    let places = places_of(alloc, &sorted)?;
    let kinds = read_kinds(alloc, counted, &places, meter)?;
    Ok(NameHits { kinds, kept })
}

/// Reads the rules of all hits, by falling rank.
fn read_every_rule<'a>(
    alloc: Global,
    hits: SmallVec<(u32, u32), FEW>,
    counted: &Counted<'a>,
    meter: &mut Meter,
) -> Result<RuleHits<'a>, CacheFault>
    // Their types stand at the hits' offsets, and as many are kept as have the greatest rank.
    ensures answer { IfOk result (λ found. AreGiven counted.now (plain_hits (Gathered.Every hits)) (types_alone found)) }
    // Weights and flags are those of the ranks.
    ensures rules { IfOk result (λ found. AreRulesAt counted.now (falling (λ hit. hit.0) hits.items) found.rules.items) }
    // Where texts stand there, only memory can be short.
    ensures need { NeedsMemory counted.now (map (λ hit. hit.1) (falling (λ hit. hit.0) hits.items)) result }
    // Else one of them does not.
    ensures fault { IfErr result (IsTextsStop counted.now (places_of (falling (λ hit. hit.0) hits.items))) }
    // It costs their texts.
    ensures looks { Looks 0 (256 * length hits.items) meter.old meter.new }
{
    let mut sorted = hits;
    sort_by_rank(alloc, &mut sorted)?;
    let kept = count_best(&sorted);
    let rules = read_rules(alloc, &sorted, counted, meter)?;
    Ok(RuleHits { rules, kept })
}

/// Puts the hits of the greatest rank first; those of one rank stay in their order. Up to 20 need no allocation.
// Always inlined: most names have one hit at most.
#[inline(always)]
fn sort_by_rank(alloc: Global, hits: &mut SmallVec<(u32, u32), FEW>) -> Result<(), CacheFault>
    // The hits are by falling rank then.
    ensures sorted { OnOk result (hits.new.items ≡ falling (λ hit. hit.0) hits.old.items) }
    // Only memory can be short.
    ensures fault { IfErr result (λ e. e ≡ CacheFault.OutOfMemory) }
{
    if hits.len() > 1 {
        hits.sort_by(alloc, |left, right| right.0.cmp(&left.0))?;
    }
    Ok(())
}

/// How many of the first hits have the rank of the first.
fn count_best(hits: &[(u32, u32)]) -> usize
    // Where they are by falling rank, those have the greatest.
    ensures { (offers : List (ℕ × ℕ)) → hits.now ≡ falling (λ offer. offer.0) offers → result ≡ length (best offers) }
{
    let Some(first) = hits.first() else {
        return 0;
    };
    let mut count = 0;
    for hit in hits {
        if hit.0 == first.0 {
            count += 1;
        }
    }
    count
}

/// The offsets of the types of the hits.
fn places_of(alloc: Global, hits: &[(u32, u32)]) -> Result<SmallVec<u32, FEW>, CacheFault>
    // The second of each hit.
    ensures places { IfOk result (λ places. places.items ≡ map (λ hit. hit.1) hits.now) }
    // Only memory can be short.
    ensures fault { IfErr result (λ e. e ≡ CacheFault.OutOfMemory) }
{
    let mut places = SmallVec::new(alloc);
    for hit in hits {
        places.push(hit.1)?;
    }
    Ok(places)
}

/// The law of kept rules: no more are kept for a name than are near it.
pub fn kept_are_near()
    // The law.
    ensures { KeptAreNear }
{}

/// The law of candidates: there are no more for a name than are near it.
pub fn candidates_are_near()
    // The law.
    ensures { CandidatesAreNear }
{}
