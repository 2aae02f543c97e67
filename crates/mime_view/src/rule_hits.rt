//! The rules that match a name, each with its type, its weight and its flag ("Recommended checking order").

ghost use Rattle.std.specs.Prelude.{◌≡◌, ◌*◌, length, map, IfErr, IfOk};
ghost use Rattle.mime_view.specs.Gathered.{places_of};
ghost use Rattle.mime_view.specs.RuleHits.{AreRulesAt, parts_of_rank};
ghost use Rattle.mime_view.specs.Spending.{Looks};
ghost use Rattle.mime_view.specs.Texts.{IsTextsStop, NeedsMemory};

use crate::fault::CacheFault;
use mime_base::{Counted, Meter};
use std::alloc::Global;

/// A rule that matches a name.
#[derive(Clone, Copy)]
pub struct RuleHit<'a> {
    /// Its type as the cache has it: an alias is not resolved.
    pub kind: &'a [u8],
    /// Its weight, from 0 to 255.
    pub weight: u8,
    /// Whether it is case-sensitive.
    pub cased: bool,
}

/// The rules that match a name, and how many of these are kept.
#[derive(Drop)]
pub struct RuleHits<'a> {
    /// The rules by falling rank; those of one rank are in merged order.
    pub rules: Vec<RuleHit<'a>>,
    /// How many of the first are kept.
    pub kept: usize,
}

/// The rules of these hits, each the rank of a rule and the offset of its type.
pub fn read_rules<'a>(
    alloc: Global,
    hits: &[(u32, u32)],
    counted: &Counted<'a>,
    meter: &mut Meter,
) -> Result<Vec<RuleHit<'a>>, CacheFault>
    // Their types stand at the offsets; their weights and flags are those of the ranks.
    ensures answer { IfOk result (λ rules. AreRulesAt counted.now hits.now rules.items) }
    // Where texts stand there, only memory can be short.
    ensures need { NeedsMemory counted.now (map (λ hit. hit.1) hits.now) result }
    // Else one of them does not.
    ensures fault { IfErr result (IsTextsStop counted.now (places_of hits.now)) }
    // It costs their texts.
    ensures looks { Looks 0 (256 * length hits.now) meter.old meter.new }
{
    let mut rules = Vec::with_capacity(alloc, hits.len())?;
    for hit in hits {
        let kind = counted.text_at(u64::from(hit.1), meter)?;
        let (weight, cased) = parts_of_rank(hit.0);
        rules.push(RuleHit {
            kind,
            weight,
            cased,
        })?;
    }
    Ok(rules)
}

/// The weight and the flag that a rank has.
fn parts_of_rank(rank: u32) -> (u8, bool)
    // They are those of the rank.
    ensures { result ≡ parts_of_rank rank }
{
    // Below the weight there is room for a length of 16 bits and the flag.
    let weight = (rank / 131_072 % 256) as u8;
    (weight, rank % 2 == 1)
}
