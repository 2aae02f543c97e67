//! Which of the rules that match a name are kept: the one number for the four preferences among them,
//! and the hits of the greatest number so far. Read [`class`] first, then [`rank_of`], then [`Best`].
//!
//! Of the rules that match a name, those are kept that come first by class, then by weight, by the
//! length of the pattern and by case ("Recommended checking order"; the order of the classes and
//! the preference for case-sensitive rules are this project's own). The rank of a hit makes one
//! comparison of the four, and a [`Best`] keeps what is preferred in one pass.

pub mod class;
pub mod hidden;
pub mod twins;

ghost use Rattle.std.specs.Prelude.{◌≡◌, ℕ, ◌+◌, ◌≤◌, nat_le, List, [], ◌∷◌, ◌++◌, length, map, OnOk, OnErr};
ghost use Rattle.std.specs.List.{list_all};
ghost use Rattle.mime_base.specs.Kept.{best, rank, rank_of_rule, FitsRank, GreatestRankIsPreferred, KeptComeFirst};

use crate::database::rule::GlobRule;
use crate::kept::class::{Class, class_of_bytes};
use crate::memory::OutOfMemory;
use std::alloc::Global;
use std::marker::Model;

/// The rank of a hit: of two hits, the one that is preferred has the greater rank.
///
/// The length is that of the pattern, in bytes.
#[tactic(auto, unfolding(crate::specs::Kept::rank))]
pub fn rank_of(class: Class, weight: u8, length: u16, cased: bool) -> u32
    // The rank orders by class, then by weight, then by length, then case-sensitive rules first, as one number.
    ensures { result ≡ rank class weight length cased }
{
    // A weight is below 256, a length below 65,536 and the flag below 2.
    let earliness = match class {
        Class::Literal => 2,
        Class::Suffix => 1,
        Class::Full => 0,
    };
    ((earliness * 256 + u32::from(weight)) * 65536 + u32::from(length)) * 2 + u32::from(cased)
}

/// The rank of a rule that matches.
pub fn rank_of_rule(rule: &GlobRule) -> u32
    // It is the rank of the rule's class, weight, length of pattern and case.
    ensures rank { result ≡ rank_of_rule rule.now }
    // Weight and length have room in a rank, for every rule.
    ensures limits { FitsRank rule.now }
{
    let pattern = rule.pattern.bytes();
    rank_of(
        class_of_bytes(pattern),
        rule.weight,
        pattern.len() as u16,
        rule.cased,
    )
}

/// The law of ranks: the hits of the greatest rank are those that are preferred.
pub fn greatest_rank_is_preferred()
    // Of any rules that match, those of the greatest rank are those that the four preferences keep, one after another.
    ensures { GreatestRankIsPreferred }
{}

/// The law of candidates: the rules that are kept for a name are the first of all that match it, by
/// falling rank.
pub fn kept_come_first()
    // Whatever the name, as many of the first candidates as are kept are the kept rules, in their order.
    ensures { KeptComeFirst }
{}

/// What was offered with the greatest rank so far, in the order in which it came.
///
/// ```
/// let mut best = Best::new(rt.alloc());
/// best.offer(rank_of(Class::Suffix, 50, 5, false), 'a')?;
/// best.offer(rank_of(Class::Literal, 50, 5, false), 'b')?;
/// assert_eq!(rt; best.into_items().as_slice(), &['b']);
/// ```
#[derive(Debug, Drop)]
pub struct Best<T> {
    rank: u32,
    items: Vec<T>,
}

impl<T> Model for Best<T> {
    ghost use Rattle.std.specs.Prelude.{◌≡◌, ℕ, List, [], map};

    ghost Value = { List (ℕ × T) };

    ghost view = { λ best. map (λ item. (best.rank, item)) best.items.items };

    ghost invariant = { λ best. best.items.items ≡ [] → best.rank ≡ 0 };
}

impl<T: Drop> Best<T> {
    /// Nothing yet.
    pub fn new(alloc: Global) -> Best<T>
        // Nothing was offered.
        ensures { result ≡ [] }
    {
        Best {
            rank: 0,
            items: Vec::new(alloc),
        }
    }

    /// Whether an item of this rank would be kept: unless something kept has a greater rank. Where
    /// nothing is kept, any would.
    pub fn wants(&self, rank: u32) -> bool
        // It is true exactly where no kept item has a greater rank.
        ensures { result ≡ list_all (λ offer. nat_le offer.0 rank) self.now }
    {
        self.rank <= rank
    }

    /// Keeps the item unless something kept has a greater rank, and drops what has a lesser one.
    pub fn offer(&mut self, rank: u32, item: T) -> Result<(), OutOfMemory>
        // What is kept are the offers of the greatest rank so far, in the order in which they came.
        ensures kept { (offers : List (ℕ × T)) → self.old ≡ best offers →
            OnOk result (self.new ≡ best (offers ++ (rank, item) ∷ [])) }
        // Where memory runs out, all is as it was.
        ensures unchanged { OnErr result (self.new ≡ self.old) }
        // At most one item more is kept.
        ensures one_more { length self.new ≤ length self.old + 1 }
    {
        if rank < self.rank {
            return Ok(());
        }
        if rank > self.rank {
            self.items.clear();
        }
        self.items.push(item)?;
        self.rank = rank;
        Ok(())
    }

    /// The items that were kept.
    pub fn into_items(self) -> Vec<T>
        // They are all that was kept, in the order in which it came.
        ensures { result.items ≡ map (λ offer. offer.1) self }
    {
        let Best { rank: _, items } = self;
        items
    }
}
