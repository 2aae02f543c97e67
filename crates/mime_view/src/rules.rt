//! All glob rules of a cache, for a program that lists them ("The mime.cache files").
//!
//! First the entries of the literal list, then the leaves of the suffix tree depth first, then the
//! entries of the glob list. What a lookup can't reach is skipped: leaves among the roots, and what
//! is below a character above 255.

mod ending;
mod entries;
mod listing;
mod row;
mod source;
mod tree;

ghost use Rattle.std.specs.Prelude.{◌≡◌, ◌+◌, ◌^◌, ◌<◌, List, ◌++◌, All, length, map, IfOk, MatchResult};
ghost use Rattle.mime_base.specs.Format.Tree.{Tree, node_count, rules_in};
ghost use Rattle.mime_base.specs.declared.database.rule.GlobRule.{GlobRule};
ghost use Rattle.mime_view.specs.Listing.{IsListed, listed_rule, plain_listed};
ghost use Rattle.mime_view.specs.Listing.Faults.{IsListsFault};
ghost use Rattle.mime_view.specs.Listing.Reads.{ReadsListedRules, ReadsSuffixTree};
ghost use Rattle.mime_view.specs.Listing.Walks.{ListsRules};
ghost use Rattle.mime_view.specs.Spending.{Gives, Spends, per_record};

use crate::fault::CacheFault;
use crate::rules::entries::add_entries;
use crate::rules::listing::Listing;
use crate::rules::tree::add_tree;
use crate::spending::Spending;
pub use listing::Listed;
pub use source::ListingSource;

/// All rules: by the literal list, the suffix tree and the glob list at these offsets.
pub fn list_rules<'a>(
    source: &ListingSource<'_, 'a>,
    literals: u64,
    tree: u64,
    globs: u64,
    spending: &mut Spending,
) -> Result<Vec<Listed<'a>>, CacheFault>
    // The literal list's offset is a number of 32 bits.
    requires literals { literals < 2 ^ 32 }
    // So is the tree's.
    requires tree { tree < 2 ^ 32 }
    // And the glob list's.
    requires globs { globs < 2 ^ 32 }
    // It lists the rules of three lists that stand; an entry and a node take a record each.
    ensures answer { (first last : List GlobRule) (roots : Tree) → ReadsListedRules source.now.counted.now literals first →
        ReadsSuffixTree source.now.counted.now tree roots → ReadsListedRules source.now.counted.now globs last →
        Gives (λ rules. map plain_listed rules.items
        ≡ map listed_rule first ++ (map listed_rule (rules_in roots) ++ map listed_rule last))
        (length first + node_count roots + length last) spending.old spending.new result }
    // On any bytes each rule is one that an entry of the two lists or a leaf of the tree states, and all three lie in the cache.
    ensures lists { IfOk result (λ rules. ListsRules source.now.counted.now literals tree globs (map plain_listed rules.items)) }
    // On any bytes each rule has a text of the cache as its type and a short pattern, or one of the lists stops it.
    ensures listed { MatchResult result (λ rules. All (IsListed source.now.counted.now) (map plain_listed rules.items))
        (IsListsFault source.now.counted.now literals tree globs spending.new.budget.records) }
    // Each record adds one node and at most 512 bytes, each list one node.
    ensures cost { Spends (per_record 512) 3 0 spending.old spending.new }
{
    let mut listing = Listing::none(source.alloc);
    add_entries(source, literals, &mut listing, spending)?;
    add_tree(source, tree, &mut listing, spending)?;
    add_entries(source, globs, &mut listing, spending)?;
    Ok(listing.into_vec())
}
