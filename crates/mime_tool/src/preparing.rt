//! What is prepared in a run that looks up many FILEs.
//!
//! Of a database there is an index, which is made once an answer has compared something, and its magic is prepared once one has asked a
//! content for bytes: so neither for one FILE alone, nor for what is refused, no magic for names alone, and no index of names for contents
//! alone.
//!
//! Of a cache what names need is read back, and the magic list, into an index of each. That is done once the answers of the run have
//! visited as many records as reading back may visit: for names all answers. For magic they have paid some 2.4 times as many: those whose
//! content was asked for bytes, also an empty one, less the entries of the glob list; and each pays 256 more for being opened and read, but
//! no more than it visited. So a run over few FILEs reads nothing back, nor does any that its cache answers at once. Each is read back
//! once at most. Where memory is refused, or the cache spells no such list, FILEs are looked up by a walk as before. So they are where
//! the cost of an answer is told, which is that of a walk.

ghost use Rattle.std.specs.Prelude.{◌≡◌, ◌+◌, ◌≤◌, IfSome};
ghost use Rattle.mime_tool.specs.LineSteps.{IsOfSource, LooksAlike, bytes_in, source_of, whole};
ghost use Rattle.mime_tool.specs.Preparing.{IsUnpaid, price};

mod payments;

use crate::line::{Data, Lookup};
use mime_base::{Counted, Database, Meter};
use mime_lookup::{DatabaseMagic, IndexedCache, IndexedDatabase, Order};
pub(crate) use payments::Payments;
use payments::{Due, Part};
use std::alloc::Global;

/// How the FILEs of a run are looked up, with what was prepared meanwhile.
#[derive(Drop)]
pub(crate) struct Prepared<'i, 'a> {
    lookup: Lookup<'i, 'a>,
    cache: Option<IndexedCache<'a>>,
    index: Option<IndexedDatabase<'a>>,
    magic: Option<DatabaseMagic<'a>>,
}

impl<'i, 'a> Prepared<'i, 'a> {
    /// Nothing is prepared yet.
    pub(crate) fn new(lookup: Lookup<'i, 'a>) -> Prepared<'i, 'a>
        // FILEs are looked up so.
        ensures lookup { result.lookup ≡ lookup.entry }
        // Of nothing there is no index of another cache.
        ensures prepared { IsOfSource result }
    {
        Prepared {
            lookup,
            cache: None,
            index: None,
            magic: None,
        }
    }

    /// Prepares what is paid for.
    // Always inlined: before most FILEs nothing is.
    #[inline(always)]
    pub(crate) fn prepare_due(&mut self, alloc: Global, payments: &mut Payments)
        // What was prepared is of the cache or the database that is looked up in.
        requires { IsOfSource self.old }
        // FILEs are looked up as before.
        ensures lookup { self.new.lookup ≡ self.old.lookup }
        // What is prepared then is of it too.
        ensures prepared { IsOfSource self.new }
        // Nothing is prepared that isn't paid.
        ensures unpaid { IsUnpaid payments.old → (self.new.cache ≡ self.old.cache)
            × (self.new.index ≡ self.old.index) × (self.new.magic ≡ self.old.magic) }
    {
        if let Some(due) = payments.take_due() {
            self.prepare(alloc, due);
        }
    }

    // Prepares what is due.
    // Never inlined: a run comes here twice at most.
    #[inline(never)]
    fn prepare(&mut self, alloc: Global, due: Due)
        requires { IsOfSource self.old }
        ensures lookup { self.new.lookup ≡ self.old.lookup }
        ensures prepared { IsOfSource self.new }
    {
        match due {
            Due::Part(part) => {
                let known = self.cache.take();
                self.cache = read_back(alloc, self.lookup.by, part, known, &mut Meter::new());
            }
            Due::Index => self.make_index(alloc),
            Due::Lines => self.prepare_lines(alloc),
        }
    }

    // Prepares the magic of a database in which FILEs are looked up: for contents alone without an index of names.
    fn prepare_lines(&mut self, alloc: Global)
        requires { IsOfSource self.old }
        ensures lookup { self.new.lookup ≡ self.old.lookup }
        ensures prepared { IsOfSource self.new }
    {
        match self.lookup.order {
            Order::ContentOnly => self.make_magic(alloc),
            Order::GlobsFirst | Order::MagicFirst | Order::AllGlobs => {
                self.make_index(alloc);
                self.prepare_magic(alloc);
            }
        }
    }

    // Prepares the magic of a database in which FILEs are looked up.
    fn make_magic(&mut self, alloc: Global)
        requires { IsOfSource self.old }
        ensures lookup { self.new.lookup ≡ self.old.lookup }
        ensures prepared { IsOfSource self.new }
    {
        if let Data::Database(database) = self.lookup.by {
            self.magic_over(alloc, database);
        }
    }

    // Prepares the magic of the database in which FILEs are looked up, if there is memory for it.
    fn magic_over(&mut self, alloc: Global, database: &'a Database)
        requires prepared { IsOfSource self.old }
        requires database { whole database.now ≡ source_of self.old.lookup.by }
        ensures lookup { self.new.lookup ≡ self.old.lookup }
        ensures prepared { IsOfSource self.new }
    {
        if let Ok(magic) = DatabaseMagic::new(alloc, database) {
            self.magic = Some(magic);
        }
    }

    // Makes the index of a database in which FILEs are looked up, unless it is made.
    fn make_index(&mut self, alloc: Global)
        requires { IsOfSource self.old }
        ensures lookup { self.new.lookup ≡ self.old.lookup }
        ensures prepared { IsOfSource self.new }
    {
        if self.index.is_some() {
            return;
        }
        if let Data::Database(database) = self.lookup.by {
            self.index_over(alloc, database);
        }
    }

    // Prepares the magic of the index, if it is made and there is memory for that.
    fn prepare_magic(&mut self, alloc: Global)
        requires { IsOfSource self.old }
        ensures lookup { self.new.lookup ≡ self.old.lookup }
        ensures prepared { IsOfSource self.new }
    {
        if let Some(index) = &mut self.index {
            // Where memory is refused, all lines are tried as before.
            let _ = index.prepare_magic(alloc);
        }
    }

    // Makes the index of the database in which FILEs are looked up, if there is memory for it.
    fn index_over(&mut self, alloc: Global, database: &'a Database)
        requires prepared { IsOfSource self.old }
        requires database { whole database.now ≡ source_of self.old.lookup.by }
        ensures lookup { self.new.lookup ≡ self.old.lookup }
        ensures prepared { IsOfSource self.new }
    {
        if let Ok(index) = IndexedDatabase::new(alloc, database) {
            self.index = Some(index);
        }
    }

    /// How a FILE is looked up.
    pub(crate) fn lookup(&self) -> Lookup<'_, 'a>
        // What was prepared is of the cache or the database that is looked up in.
        requires { IsOfSource self.now }
        // As without what was prepared.
        ensures { LooksAlike result self.now.lookup }
    {
        let Lookup {
            by,
            name_only,
            inode,
            order,
            output,
        } = self.lookup;
        Lookup {
            by: data_with(
                by,
                self.cache.as_ref(),
                self.index.as_ref(),
                self.magic.as_ref(),
            ),
            name_only,
            inode,
            order,
            output,
        }
    }
}

/// The cache, with this part read back if there is memory for it and the cache spells it, beside what is known of the other.
fn read_back<'a>(
    alloc: Global,
    by: Data<'_, 'a>,
    part: Part,
    known: Option<IndexedCache<'a>>,
    meter: &mut Meter,
) -> Option<IndexedCache<'a>>
    requires known { IfSome known (λ cache. cache ≡ bytes_in by) }
    ensures cache { IfSome result (λ cache. cache ≡ bytes_in by.entry) }
    // It visits no more records than are paid for it, and the header.
    ensures cost { meter.new.nodes ≤ meter.old.nodes + 1 + price part (bytes_in by.entry) }
{
    let mut cache = opened(by, known, meter)?;
    let read = match part {
        Part::Names => cache.read_names(alloc, meter),
        Part::Magic => cache.read_magic(alloc, meter),
    };
    // Where nothing was read back, the walk goes on.
    let _ = read;
    Some(cache)
}

/// The cache that is known, else it is opened.
fn opened<'a>(
    by: Data<'_, 'a>,
    known: Option<IndexedCache<'a>>,
    meter: &mut Meter,
) -> Option<IndexedCache<'a>>
    requires known { IfSome known (λ cache. cache ≡ bytes_in by) }
    ensures cache { IfSome result (λ cache. cache ≡ bytes_in by.entry) }
    ensures cost { meter.new.nodes ≤ meter.old.nodes + 1 }
{
    if known.is_some() {
        return known;
    }
    let Data::Cache { bytes, .. } = by else {
        return None;
    };
    IndexedCache::open(Counted::new(bytes), meter).ok()
}

/// The data with what was prepared of it.
fn data_with<'i, 'a>(
    by: Data<'i, 'a>,
    cache: Option<&'i IndexedCache<'a>>,
    index: Option<&'i IndexedDatabase<'a>>,
    magic: Option<&'i DatabaseMagic<'a>>,
) -> Data<'i, 'a>
    requires cache { IfSome cache (λ it. it.now ≡ bytes_in by) }
    requires index { IfSome index (λ it. whole it.now ≡ source_of by) }
    requires magic { IfSome magic (λ it. whole it.now ≡ source_of by) }
    // It is looked up in as without.
    ensures { source_of result ≡ source_of by.entry }
{
    match by {
        Data::Database(_) => match (index, magic) {
            (Some(index), _) => Data::Indexed(index),
            (None, Some(magic)) => Data::Magic(magic),
            (None, None) => by,
        },
        Data::Cache { path, cost, .. } => match cache {
            Some(cache) => Data::Opened { path, cache, cost },
            None => by,
        },
        Data::Indexed(_) | Data::Magic(_) | Data::Opened { .. } => by,
    }
}
