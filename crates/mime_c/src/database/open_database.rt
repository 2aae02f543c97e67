//! What is open.

ghost use Rattle.std.specs.Prelude.{◌≡◌, ◌+◌, ◌≤◌, MatchResult};
ghost use Rattle.mime_view.specs.Opening.{IsOpenFault, Opens};

use mime_base::{Counted, Meter};
use mime_lookup::{IndexedCache, PaidCache};
use mime_view::{Cache, CacheFault};
use std::alloc::Global;
use std::marker::Model;

/// A cache that is open.
#[derive(Drop)]
pub struct OpenDatabase {
    paid: PaidCache<'static>,
    /// The memory that closing gives back.
    memory: &'static [u8],
}

impl Model for OpenDatabase {
    ghost use Rattle.mime_c.specs.Opened.{Opened};

    ghost Value = { Opened };

    ghost view = { λ it. record { cache = it.paid.cache; memory = it.memory.now } };
}

impl OpenDatabase {
    /// Opens the bytes of a cache, with the memory that closing gives back.
    pub(super) fn new(
        bytes: &'static [u8],
        memory: &'static [u8],
        meter: &mut Meter,
    ) -> Result<OpenDatabase, CacheFault>
        // It opens the bytes that are a cache; else the first thing that is wrong with their header is the fault.
        ensures opened { MatchResult result
            (λ opened. (opened ≡ record { cache = bytes.entry.now; memory = memory.entry.now }) × Opens bytes.entry.now)
            (IsOpenFault bytes.entry.now) }
        // At most the header is visited.
        ensures nodes { meter.new.nodes ≤ meter.old.nodes + 1 }
        // Nothing is compared.
        ensures bytes { meter.new.bytes ≡ meter.old.bytes }
    {
        let paid = PaidCache::open(Counted::new(bytes), meter)?;
        Ok(OpenDatabase { paid, memory })
    }

    /// The memory that closing gives back.
    pub(super) fn memory(&self) -> &'static [u8]
        // It is what this was opened with.
        ensures { result.now ≡ self.now.memory }
    {
        self.memory
    }

    /// The cache with what was read back of it.
    pub(super) fn indexed(&self) -> &IndexedCache<'static>
        // It is the cache.
        ensures { result.now ≡ self.now.cache }
    {
        self.paid.indexed()
    }

    /// The cache, for what there is no index of.
    pub(super) fn cache(&self) -> &Cache<'static>
        // It is the cache.
        ensures cache { result.now ≡ self.now.cache }
        // It did open.
        ensures opens { Opens self.now.cache }
    {
        self.indexed().cache()
    }

    /// Reads back what was paid.
    pub(super) fn read_paid(&mut self, alloc: Global)
        // It is the same cache.
        ensures same { self.new ≡ self.old }
    {
        self.paid.read_paid(alloc, &mut Meter::new());
    }

    /// Counts what the answer to a name visited, and whether its content was read.
    pub(super) fn pay(&mut self, visited: u64, is_read: bool)
        // It is the same cache.
        ensures same { self.new ≡ self.old }
    {
        self.paid.pay(visited, is_read);
    }

    /// Counts what the answer to a content alone visited.
    pub(super) fn pay_sniffed(&mut self, visited: u64)
        // It is the same cache.
        ensures same { self.new ≡ self.old }
    {
        self.paid.pay_sniffed(visited);
    }

    /// Counts what the answer whether a type is another visited.
    pub(super) fn pay_types(&mut self, visited: u64)
        // It is the same cache.
        ensures same { self.new ≡ self.old }
    {
        self.paid.pay_types(visited);
    }

    /// Counts what the icons of a type visited.
    pub(super) fn pay_icons(&mut self, visited: u64)
        // It is the same cache.
        ensures same { self.new ≡ self.old }
    {
        self.paid.pay_icons(visited);
    }
}
