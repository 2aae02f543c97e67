//! What a content is sniffed as over a cache ("Recommended checking order").

ghost use Rattle.std.specs.Prelude.{◌≡◌, ℕ, ◌+◌, ◌≤◌, List, IfErr, IfOk, IfSome, IsOkAnd, None};
ghost use Rattle.mime_base.specs.Cache.Bytes.{Stands};
ghost use Rattle.mime_base.specs.Database.{PlainDatabase};
ghost use Rattle.mime_base.specs.Format.Header.{HeaderAt, Offsets};
ghost use Rattle.mime_base.specs.Format.Pairs.{PairsAt};
ghost use Rattle.mime_lookup.specs.Affords.{magic_records};
ghost use Rattle.mime_lookup.specs.Cached.{IsCacheText, IsFinding, IsKind, plain_finding};
ghost use Rattle.mime_lookup.specs.Costs.{Costs, LooksAt};
ghost use Rattle.mime_lookup.specs.Finding.{found_by, found_in, is_high, resolved_finding};
ghost use Rattle.mime_lookup.specs.Halves.{bytes_of, front_length};
ghost use Rattle.mime_lookup.specs.MagicOf.{IsMagicOf};
ghost use Rattle.mime_lookup.specs.StepFaults.{IsAliasFault, IsFrontFault};
ghost use Rattle.mime_lookup.specs.Steps.{StopsSniffing, SufficesForContent};
ghost use Rattle.mime_view.specs.Magic.{plain_found};

use crate::cached::indexed_cache::IndexedCache;
use crate::fixed::OCTET_STREAM;
use crate::indexed::magic_index::MagicIndex;
use crate::sniff::{HIGH_PRIORITY, by_bytes};
use mime_base::{Host, Meter};
use mime_view::{Cache, CacheFault, Spending};

/// What was found in a content, before its alias step.
#[derive(Clone, Copy)]
pub enum Finding<'a> {
    /// The type and the priority of the first section of magic that holds.
    Magic(&'a [u8], u32),
    /// One of the types that are fixed by the checking order.
    Fixed(&'static [u8]),
}

/// Whether a section of a priority of 80 or more gave it.
pub fn is_high(finding: Finding<'_>) -> bool
    // So it is where the first section that holds has a priority of 80 or more.
    ensures { result ≡ is_high (plain_finding finding.entry) }
{
    match finding {
        Finding::Magic(_, priority) => priority >= HIGH_PRIORITY,
        Finding::Fixed(_) => false,
    }
}

/// Its type, after one alias step. A fixed type is not resolved.
pub fn unalias<'a>(
    indexed: &IndexedCache<'a>,
    finding: Finding<'a>,
    spending: &mut Spending,
) -> Result<&'a [u8], CacheFault>
    // It was found in the cache.
    requires finding { IsFinding indexed.now finding }
    // Where the aliases stand, there is an answer: the type after one alias step.
    ensures answer { (b : PlainDatabase) (offsets : Offsets) → HeaderAt (Stands indexed.now) offsets →
        PairsAt (Stands indexed.now) offsets.aliases b.aliases → IsOkAnd result
        (λ kind. kind.now ≡ resolved_finding b.aliases (plain_finding finding.entry)) }
    // It is a text of the cache, or fixed.
    ensures kind { IfOk result (λ kind. IsKind indexed.now kind.now) }
    // The list of aliases or a text shows the fault.
    ensures fault { IfErr result (IsAliasFault indexed.now) }
    // It visits at most 29 records, and takes nothing of the budget.
    ensures cost { LooksAt 29 spending.old spending.new }
{
    match finding {
        Finding::Magic(kind, _) => indexed.unalias(kind, &mut spending.meter, &mut spending.budget),
        Finding::Fixed(kind) => Ok(kind),
    }
}

/// What is found in a front of a content, as if it were the whole.
pub fn sniff_front<'a>(
    cache: &Cache<'a>,
    front: Option<&[u8]>,
    host: Host,
    spending: &mut Spending,
) -> Result<Finding<'a>, CacheFault>
    // Where the magic of a database stands, or there is no front, it is what the front has as a content.
    ensures found { (b : PlainDatabase) → SufficesForContent cache.now (bytes_of front.entry ≡ None) b → IfOk result
        (λ finding. plain_finding finding ≡ found_in b (bytes_of front.entry) host) }
    // Its type is a text of the cache, or fixed.
    ensures finding { IfOk result (IsFinding cache.now) }
    // Where enough stands and is afforded, it doesn't stop.
    ensures stops { StopsSniffing cache.now (bytes_of front.entry ≡ None)
        (SufficesForContent cache.now (bytes_of front.entry ≡ None)) spending.old spending.new result }
    // The magic list shows the fault.
    ensures fault { IfErr result (IsFrontFault cache.now (bytes_of front.entry) host spending.new.budget) }
    // Without a front nothing is looked at.
    ensures nothing { bytes_of front.entry ≡ None → spending.new ≡ spending.old }
    // Where the magic stands, no more records are taken than it has.
    ensures takes { (b : PlainDatabase) → SufficesForContent cache.now (bytes_of front.entry ≡ None) b →
        spending.old.budget.records ≤ spending.new.budget.records + magic_records b }
    // Whatever the bytes are, a value byte costs as many bytes as the front has, and one.
    ensures cost { Costs 256 (front_length (bytes_of front.entry) + 1) 1 spending.old spending.new }
{
    let Some(front) = front else {
        return Ok(Finding::Fixed(OCTET_STREAM));
    };
    let section = cache.sniff(front, host, &mut spending.meter, &mut spending.budget)?;
    Ok(finding_of(section, front))
}

/// What is found in a front of a content by an index of the magic list of a cache, as if it were the whole.
pub fn sniff_indexed<'a>(index: &MagicIndex<'a>, front: Option<&[u8]>, host: Host) -> Finding<'a>
    // Where the magic of a database stands, or there is no front, it is what the front has as a content.
    ensures found { (c : List ℕ) (b : PlainDatabase) → IsMagicOf c index.now → SufficesForContent c (bytes_of front.entry ≡ None) b
        → plain_finding result ≡ found_in b (bytes_of front.entry) host }
    // Its type is a text of the cache, or fixed.
    ensures finding { (c : List ℕ) → IsMagicOf c index.now → IsFinding c result }
{
    let Some(front) = front else {
        return Finding::Fixed(OCTET_STREAM);
    };
    let section = index.first_section(front, host, &mut Meter::new());
    finding_of(section, front)
}

/// What the first section that holds makes of a content, or its bytes alone.
fn finding_of<'a>(section: Option<(&'a [u8], u32)>, content: &[u8]) -> Finding<'a>
    ensures found { plain_finding result ≡ found_by (plain_found section.entry) content.now }
    ensures finding { (c : List ℕ) → IfSome section.entry (λ pair. IsCacheText c pair.0.now) → IsFinding c result }
{
    match section {
        Some((kind, priority)) => Finding::Magic(kind, priority),
        None => Finding::Fixed(by_bytes(content)),
    }
}
