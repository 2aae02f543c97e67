//! A cache that is read back once its answers have paid for that. This project's own.
//!
//! What names need is read back once answers have visited as many records as that may visit; so are the aliases and the parents once
//! answers whether a type is another have, and the aliases and the icons once the icons of types have. The magic list is read back once
//! twice as many were visited by those whose content was read, since one of its records takes as long as two that a walk visits; the
//! entries of the glob list aren't counted there, which a walk passes quickly. So what answers take stays within a stated multiple of
//! what walks take, whatever the cache is, and few questions read nothing back. Each part is read back once at most: where memory is
//! refused, or the cache spells no such list, the walk goes on.

ghost use Rattle.std.specs.Prelude.{◌≡◌, ◌+◌, ◌≤◌, length, IfOk, MatchResult, OnOk};
ghost use Rattle.mime_base.specs.Meter.{raised};
ghost use Rattle.mime_lookup.specs.Paid.{OwesAll, after_reading, is_due, less, magic_due, names_price, paid_by_content, paid_by_name};
ghost use Rattle.mime_lookup.specs.Paid.{icons_price, paid_by_icons, paid_by_types, pairs_price, reading_price};
ghost use Rattle.mime_view.specs.Opening.{IsOpenFault, Opens};

use crate::cached::indexed_cache::IndexedCache;
use mime_base::{Counted, Meter};
use mime_view::CacheFault;
use std::alloc::Global;
use std::marker::Model;

/// An opened cache, with what is still to be paid before more of it is read back.
#[derive(Drop)]
pub struct PaidCache<'a> {
    indexed: IndexedCache<'a>,
    /// What is owed for the names, none where they were read back or can't be.
    names: Option<u64>,
    /// What is owed for the magic list.
    magic: Option<u64>,
    /// What is owed for the aliases and the parents.
    pairs: Option<u64>,
    /// What is owed for the aliases and the icons.
    icons: Option<u64>,
    /// How many entries the glob list has.
    listed: u64,
}

impl<'a> Model for PaidCache<'a> {
    ghost use Rattle.mime_lookup.specs.Paid.{PlainPaidCache};

    ghost Value = { PlainPaidCache };

    ghost view = { λ paid. record {
      cache = paid.indexed;
      listed = paid.listed;
      names = paid.names;
      magic = paid.magic;
      pairs = paid.pairs;
      icons = paid.icons;
    } };
}

impl<'a> PaidCache<'a> {
    /// Opens a cache, of which nothing is read back and nothing is paid, as [`IndexedCache::open`] does.
    pub fn open(counted: Counted<'a>, meter: &mut Meter) -> Result<PaidCache<'a>, CacheFault>
        // It opens a cache of version 1.2 that is neither too short nor too long; else the first thing that is wrong is the fault.
        ensures opened { MatchResult result
            (λ paid. (paid.cache ≡ counted.entry) × Opens counted.entry) (IsOpenFault counted.entry) }
        // Nothing is paid of what it owes.
        ensures owes { IfOk result OwesAll }
        // For an answer the header is counted as one record.
        ensures counted { OnOk result (meter.new.nodes ≡ raised meter.old.nodes 1) }
        // Before a fault it is counted at most once.
        ensures nodes { meter.new.nodes ≤ meter.old.nodes + 1 }
        // It compares nothing.
        ensures bytes { meter.new.bytes ≡ meter.old.bytes }
    {
        let length = counted.length();
        let indexed = IndexedCache::open(counted, meter)?;
        let listed = indexed.cache().glob_count(&mut Meter::new()).unwrap_or(0);
        Ok(PaidCache {
            indexed,
            names: Some(names_price(length)),
            magic: Some(magic_price(length)),
            pairs: Some(pairs_price(length)),
            icons: Some(icons_price(length)),
            listed,
        })
    }

    /// The cache, with what was read back of it.
    pub fn indexed(&self) -> &IndexedCache<'a>
        // It is the cache.
        ensures { result.now ≡ self.now.cache }
    {
        &self.indexed
    }

    /// Reads back what is paid: what names need, else the magic list, else the aliases and the parents, else the aliases and the icons.
    #[inline]
    pub fn read_paid(&mut self, alloc: Global, meter: &mut Meter)
        // Of what is paid the first that wasn't tried is tried, and is never due again; where nothing is paid all stays.
        ensures reads { self.new ≡ after_reading self.old }
        // That visits no more records than were paid for it.
        ensures cost { meter.new.nodes ≤ meter.old.nodes + reading_price self.old }
        // Where nothing is paid nothing is counted.
        ensures nothing { reading_price self.old ≡ 0 → meter.new ≡ meter.old }
    {
        if is_due(self.names) {
            self.names = None;
            self.read_names(alloc, meter);
        } else if is_due(self.magic) {
            self.magic = None;
            self.read_magic(alloc, meter);
        } else if is_due(self.pairs) {
            self.pairs = None;
            self.read_pairs(alloc, meter);
        } else if is_due(self.icons) {
            self.icons = None;
            self.read_icons(alloc, meter);
        }
    }

    /// Counts what the answer to a name visited, and whether its content was read.
    #[inline]
    pub fn pay(&mut self, visited: u64, is_read: bool)
        // Less is owed for names; for the magic list too, if the content was read, but for the entries of the glob list.
        ensures { self.new ≡ paid_by_name visited is_read self.old }
    {
        self.names = less(self.names, visited);
        if is_read {
            self.magic = less(self.magic, visited.saturating_sub(self.listed));
        }
    }

    /// Counts what the answer to a content alone visited.
    #[inline]
    pub fn pay_sniffed(&mut self, visited: u64)
        // Less is owed for the magic list.
        ensures { self.new ≡ paid_by_content visited self.old }
    {
        self.magic = less(self.magic, visited);
    }

    /// Counts what the answer whether a type is another visited.
    #[inline]
    pub fn pay_types(&mut self, visited: u64)
        // Less is owed for the aliases and the parents.
        ensures { self.new ≡ paid_by_types visited self.old }
    {
        self.pairs = less(self.pairs, visited);
    }

    /// Counts what the icons of a type visited.
    #[inline]
    pub fn pay_icons(&mut self, visited: u64)
        // Less is owed for the aliases and the icons.
        ensures { self.new ≡ paid_by_icons visited self.old }
    {
        self.icons = less(self.icons, visited);
    }

    // Never inlined: it is done once.
    #[inline(never)]
    fn read_names(&mut self, alloc: Global, meter: &mut Meter)
        ensures same { self.new ≡ self.old }
        // It visits no more records than were paid for it.
        ensures cost { meter.new.nodes ≤ meter.old.nodes + names_price (length self.old.cache) }
    {
        // Where nothing was read back, the walk goes on.
        let _ = self.indexed.read_names(alloc, meter);
    }

    // Never inlined: it is done once.
    #[inline(never)]
    fn read_magic(&mut self, alloc: Global, meter: &mut Meter)
        ensures same { self.new ≡ self.old }
        // It visits no more records than were paid for it.
        ensures cost { meter.new.nodes ≤ meter.old.nodes + magic_due (length self.old.cache) }
    {
        // Where nothing was read back, the walk goes on.
        let _ = self.indexed.read_magic(alloc, meter);
    }

    // Never inlined: it is done once.
    #[inline(never)]
    fn read_pairs(&mut self, alloc: Global, meter: &mut Meter)
        ensures same { self.new ≡ self.old }
        // It visits no more records than were paid for it.
        ensures cost { meter.new.nodes ≤ meter.old.nodes + pairs_price (length self.old.cache) }
    {
        // Where nothing was read back, the walk goes on.
        let _ = self.indexed.read_pairs(alloc, meter);
    }

    // Never inlined: it is done once.
    #[inline(never)]
    fn read_icons(&mut self, alloc: Global, meter: &mut Meter)
        ensures same { self.new ≡ self.old }
        // It visits no more records than were paid for it.
        ensures cost { meter.new.nodes ≤ meter.old.nodes + icons_price (length self.old.cache) }
    {
        // Where nothing was read back, the walk goes on.
        let _ = self.indexed.read_icons(alloc, meter);
    }
}

/// What is paid before the names of a cache of this length are read back: as many records as that may visit.
fn names_price(length: u64) -> u64
    requires small { length ≤ 268435456 }
    ensures { result ≡ names_price length }
{
    5 + length / 4 + length / 8
}

/// What is paid before its magic list is: twice as many.
fn magic_price(length: u64) -> u64
    requires small { length ≤ 268435456 }
    ensures { result ≡ magic_due length }
{
    2 + length / 8
}

/// What is paid before its aliases and its parents are: as many records as that may visit.
fn pairs_price(length: u64) -> u64
    requires small { length ≤ 268435456 }
    ensures { result ≡ pairs_price length }
{
    3 + length / 2 + length / 8
}

/// What is paid before its aliases and its icons are: as many records as that may visit.
fn icons_price(length: u64) -> u64
    requires small { length ≤ 268435456 }
    ensures { result ≡ icons_price length }
{
    4 + 3 * (length / 8)
}

/// What is owed after that many records were visited.
#[inline]
fn less(owed: Option<u64>, visited: u64) -> Option<u64>
    ensures { result ≡ less owed visited }
{
    match owed {
        Some(owed) => Some(owed.saturating_sub(visited)),
        None => None,
    }
}

/// Whether something wasn't tried yet, and owes nothing.
#[inline]
fn is_due(owed: Option<u64>) -> bool
    ensures { result ≡ is_due owed }
{
    match owed {
        Some(owed) => owed == 0,
        None => false,
    }
}
