//! The hits of the greatest rank, of those that the lists of a cache offer.

ghost use Rattle.std.specs.Prelude.{◌≡◌, ℕ, nat_le, List, [], ◌∷◌, ◌++◌, map, OnOk, IfErr};
ghost use Rattle.std.specs.List.{list_all};
ghost use Rattle.mime_base.specs.Kept.{best};
ghost use Rattle.mime_view.specs.Gathered.{TakesHit};

use crate::fault::CacheFault;
use smallvec::SmallVec;
use std::alloc::Global;
use std::marker::Model;

/// How many hits are held with no allocation.
pub const FEW: usize = 4;

/// The hits that are kept, each the offset of its type, and their rank.
#[derive(Drop)]
pub struct BestHits {
    rank: u32,
    kinds: SmallVec<u32, FEW>,
}

impl Model for BestHits {
    ghost use Rattle.std.specs.Prelude.{◌≡◌, ℕ, List, [], map};

    ghost Value = { List (ℕ × ℕ) };

    ghost view = { λ hits. map (λ kind. (hits.rank, kind)) hits.kinds.items };

    ghost invariant = { λ hits. hits.kinds.items ≡ [] → hits.rank ≡ 0 };
}

impl BestHits {
    /// No hits. It never allocates.
    pub fn new(alloc: Global) -> BestHits
        // There are none.
        ensures { result ≡ [] }
    {
        BestHits {
            rank: 0,
            kinds: SmallVec::new(alloc),
        }
    }

    /// Whether a hit of this rank would be kept: unless one that is kept has a greater rank.
    // Always inlined: a comparison, for each entry of the glob list.
    #[inline(always)]
    pub fn wants(&self, rank: u32) -> bool
        // Whether no hit has a greater rank.
        ensures { result ≡ list_all (λ hit. nat_le hit.0 rank) self.now }
    {
        self.rank <= rank
    }

    /// Keeps a hit unless one that is kept has a greater rank, and drops those of a lesser one.
    // Always inlined: two comparisons and a write, for each rule that matches.
    #[inline(always)]
    pub fn offer(&mut self, rank: u32, kind: u32) -> Result<(), CacheFault>
        // What is the best of the offers before becomes the best of them and this one.
        ensures kept { (offers : List (ℕ × ℕ)) → self.old ≡ best offers →
            OnOk result (self.new ≡ best (offers ++ (rank, kind) ∷ [])) }
        // At most one hit is added, and it is this one.
        ensures takes { TakesHit kind self.old self.new }
        // Only memory can be short.
        ensures fault { IfErr result (λ e. e ≡ CacheFault.OutOfMemory) }
    {
        if rank < self.rank {
            return Ok(());
        }
        if rank > self.rank {
            self.kinds.clear();
            self.rank = 0;
        }
        self.kinds.push(kind)?;
        self.rank = rank;
        Ok(())
    }

    /// The offsets of the types of the hits, in their order.
    pub fn kinds(&self) -> &[u32]
        // The second of each hit.
        ensures places { result.now ≡ map (λ hit. hit.1) self.now }
        // They are all of one rank.
        ensures best { best self.now ≡ self.now }
    {
        self.kinds.as_slice()
    }
}
