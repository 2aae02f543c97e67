//! What a search for a name's hits is asked, and how far it has come. This project's own.

ghost use Rattle.std.specs.Prelude.{◌^◌, ◌≤◌, length};

use crate::hits::{Case, Hits};
use crate::spending::Spending;
use mime_base::Counted;

/// What a search is asked.
#[derive(Clone, Copy)]
pub struct Query<'q, 'a> {
    /// The bytes of the cache.
    pub counted: &'q Counted<'a>,
    /// What the rules are compared with: the name, or the folded name.
    pub key: &'q [u8],
    /// Which rules the search takes.
    pub case: Case,
    /// The cache is small enough for its lists' offsets and counts.
    pub ghost limit: { length counted.now ≤ 2 ^ 28 },
    /// The name is no longer than a name may be.
    pub ghost short: { length key.now ≤ 4096 },
}

/// How far a search has come.
#[derive(Drop)]
pub struct Progress {
    /// The hits that are kept.
    pub hits: Hits,
    /// What was looked at, and what may still be taken.
    pub spending: Spending,
}
