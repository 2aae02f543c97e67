//! What the answers of a run pay for what is prepared.

ghost use Rattle.std.specs.Prelude.{◌≡◌, ◌*◌, ◌≤◌, None, IfSome, length};
ghost use Rattle.mime_lookup.specs.declared.order.Order.TheVariants.{ContentOnly};
ghost use Rattle.mime_tool.specs.Preparing.{AreOwed, TakesDue, content_payment, is_due, owed_for, paid_by, pays};
ghost use Rattle.mime_tool.specs.LineSteps.{bytes_in, tells_cost};

use crate::line::{Data, Lookup, Outcome};
use crate::prepaid::Prepaid;
use mime_base::{Counted, Meter};
use mime_lookup::Order;
use mime_view::Cache;

/// How many records take as long to visit as it takes to open a content and to read it.
const OPENING: u64 = 256;

/// What of a cache is read back at once.
#[derive(Clone, Copy)]
pub(crate) enum Part {
    /// The aliases and the rules.
    Names,
    /// The sections of magic.
    Magic,
}

/// What is made or read back now.
#[derive(Clone, Copy)]
pub(crate) enum Due {
    /// The index of a database.
    Index,
    /// The magic of a database.
    Lines,
    /// A part of a cache.
    Part(Part),
}

/// What was paid for each of what is still to be made or read back.
#[derive(Clone, Copy)]
pub(crate) struct Payments {
    index: Option<Prepaid>,
    lines: Option<Prepaid>,
    names: Option<Prepaid>,
    magic: Option<Prepaid>,
    /// How many records of the glob list a name visits.
    listed: u64,
}

impl Payments {
    /// Nothing is paid yet. Of a database there is the index, and of a cache what FILEs are asked for.
    pub(crate) fn new(lookup: Lookup<'_, '_>) -> Payments
        // What is owed follows from what is looked up in, and how.
        ensures { AreOwed lookup.entry result }
    {
        match lookup.by {
            Data::Cache { bytes, cost, .. } => Payments::for_parts(lookup, bytes, cost),
            Data::Database(_) => Payments {
                index: index_of(lookup.order),
                lines: Some(Prepaid::new(1)),
                names: None,
                magic: None,
                listed: 0,
            },
            Data::Indexed(_) | Data::Magic(_) | Data::Opened { .. } => Payments {
                index: None,
                lines: None,
                names: None,
                magic: None,
                listed: 0,
            },
        }
    }

    // What is owed for the parts of a cache of these bytes. Where costs are told, nothing is read back.
    fn for_parts(lookup: Lookup<'_, '_>, bytes: &[u8], cost: bool) -> Payments
        requires bytes { bytes.now ≡ bytes_in lookup.by }
        requires told { cost ≡ tells_cost lookup.by }
        ensures owed { AreOwed lookup.entry result }
    {
        let names = match lookup.order {
            Order::ContentOnly => None,
            Order::GlobsFirst | Order::MagicFirst | Order::AllGlobs => {
                owed_for(Part::Names, bytes, cost)
            }
        };
        let magic = if lookup.name_only {
            None
        } else {
            owed_for(Part::Magic, bytes, cost)
        };
        let listed = match names {
            Some(_) => glob_count(bytes),
            None => 0,
        };
        Payments {
            index: None,
            lines: None,
            names,
            magic,
            listed,
        }
    }

    /// Counts what a FILE visited: that pays for what names need, and for the magic list too, less the entries of the glob list, if its
    /// content was asked for bytes, which it pays for besides. What was compared pays for an index, and a content that was asked for bytes,
    /// whether it has any, pays for the magic of it.
    #[inline]
    pub(crate) fn count(&mut self, outcome: &Outcome<'_>, asked: bool)
        // It pays what follows from what it came to, and whether its content was asked.
        ensures { self.new ≡ paid_by outcome.now asked self.old }
    {
        let Outcome::Typed(_, cost) = outcome else {
            return;
        };
        pay(&mut self.index, cost.meter.bytes);
        pay(&mut self.names, cost.meter.nodes);
        if asked {
            pay(&mut self.lines, 1);
            let visited = cost.meter.nodes.saturating_sub(self.listed);
            pay(&mut self.magic, content_payment(visited));
        }
    }

    /// The next of what is paid, which is never due again.
    // Always inlined: before most FILEs there is none.
    #[inline(always)]
    pub(super) fn take_due(&mut self) -> Option<Due>
        // What is paid is given once, and nothing only where nothing is paid.
        ensures { TakesDue self.old self.new result }
    {
        if is_due(self.lines) {
            self.lines = None;
            return Some(Due::Lines);
        }
        if is_due(self.index) {
            self.index = None;
            return Some(Due::Index);
        }
        if is_due(self.names) {
            self.names = None;
            return Some(Due::Part(Part::Names));
        }
        if is_due(self.magic) {
            self.magic = None;
            return Some(Due::Part(Part::Magic));
        }
        None
    }
}

/// What is paid for the index of a database, which contents alone don't need.
fn index_of(order: Order) -> Option<Prepaid>
    ensures owed { IfSome result (λ it. it ≡ record { paid = 0; cost = 1 }) }
    ensures unnamed { order ≡ ContentOnly → result ≡ None }
{
    match order {
        Order::ContentOnly => None,
        Order::GlobsFirst | Order::MagicFirst | Order::AllGlobs => Some(Prepaid::new(1)),
    }
}

/// What is paid for a part of a cache of these bytes, whatever it has, unless costs are told.
fn owed_for(part: Part, bytes: &[u8], cost: bool) -> Option<Prepaid>
    ensures { result ≡ owed_for part bytes.now cost }
{
    if cost {
        return None;
    }
    let length = bytes.len() as u64;
    let price = match part {
        Part::Names => 5 + length / 4 + length / 8,
        Part::Magic => 2 + length / 8 + length / 40,
    };
    Some(Prepaid::new(price))
}

/// Pays so much for what is still to be made or read back.
// Always inlined, as its caller is.
#[inline(always)]
fn pay(owed: &mut Option<Prepaid>, visited: u64)
    ensures { owed.new ≡ pays visited owed.old }
{
    if let Some(prepaid) = owed {
        prepaid.pay(visited);
    }
}

/// What a content pays that visited so many records.
// Always inlined: it is two steps.
#[inline(always)]
fn content_payment(visited: u64) -> u64
    // For being opened and read it pays some more, but no more than it visited.
    ensures { result ≡ content_payment visited }
{
    visited.saturating_add(visited.min(OPENING))
}

/// How many entries the glob list of a cache of these bytes has, where there is one.
fn glob_count(bytes: &[u8]) -> u64
    ensures { 12 * result ≤ length bytes.now }
{
    let mut meter = Meter::new();
    let Ok(cache) = Cache::open(Counted::new(bytes), &mut meter) else {
        return 0;
    };
    match cache.glob_count(&mut meter) {
        Some(count) => count,
        None => 0,
    }
}

// Always inlined, as its caller is.
#[inline(always)]
fn is_due(owed: Option<Prepaid>) -> bool
    ensures { result ≡ is_due owed }
{
    match owed {
        Some(prepaid) => prepaid.is_paid(),
        None => false,
    }
}
