//! How a FILE is looked up: in a database, by its index, or by the bytes of a cache.

ghost use Rattle.std.specs.Prelude.{◌≡◌, Bool};
ghost use Rattle.mime_base.specs.Database.{plain_database};
ghost use Rattle.mime_tool.specs.Files.{Stored};
ghost use Rattle.mime_tool.specs.Line.{asked_order, name_for};
ghost use Rattle.mime_tool.specs.LineSteps.{IsContent, LooksUpFile, plain_lookup, tail_of_cost};
ghost use Rattle.mime_tool.specs.Plain.{lookup_over};
ghost use Rattle.mime_tool.specs.Types.{cost_tail, lookup_by};

use super::again::find_again;
use super::{Outcome, base_name};
use crate::cache::faulty;
use crate::stop::Stop;
use mime_base::{Counted, Database, Host, Meter};
use mime_lookup::{
    Cause, Content, DatabaseMagic, IndexedCache, IndexedDatabase, Order, look_up, look_up_by_magic,
    look_up_indexed, look_up_plain,
};
use mime_request::{Options, Output};
use std::alloc::Global;

/// What FILEs are looked up in.
#[derive(Clone, Copy)]
pub(crate) enum Data<'i, 'a> {
    Database(&'a Database),
    /// A database of which the index was made.
    Indexed(&'i IndexedDatabase<'a>),
    /// A database of which the magic alone was prepared.
    Magic(&'i DatabaseMagic<'a>),
    Cache {
        path: &'a str,
        bytes: &'a [u8],
        /// Whether the cost of each answer is told.
        cost: bool,
    },
    /// A cache that was opened once for many FILEs.
    Opened {
        path: &'a str,
        cache: &'i IndexedCache<'a>,
        cost: bool,
    },
}

/// How FILEs are looked up.
#[derive(Clone, Copy)]
pub(crate) struct Lookup<'i, 'a> {
    pub(crate) by: Data<'i, 'a>,
    /// Whether by their names alone: then none is opened.
    pub(crate) name_only: bool,
    /// Whether what is no regular file has a type of its own.
    pub(crate) inode: bool,
    pub(crate) order: Order,
    /// How their answers are printed.
    pub(crate) output: Output,
}

/// What an answer cost: what was looked at, and how many bytes of the content were read.
#[derive(Clone, Copy)]
pub(crate) struct Cost {
    /// Whether it is told.
    pub(crate) is_told: bool,
    pub(crate) meter: Meter,
    pub(crate) read: u64,
}

/// The order that `--content-only` asks for, else `--magic-first`, else `--all-globs`, or the absence of all.
pub(crate) fn asked_order(options: Options) -> Order
    // The options give it.
    ensures { result ≡ asked_order options }
{
    if options.content_only {
        Order::ContentOnly
    } else if options.magic_first {
        Order::MagicFirst
    } else if options.all_globs {
        Order::AllGlobs
    } else {
        Order::GlobsFirst
    }
}

/// What a file comes to by its name and its content, which is read as far as it is needed.
// Always inlined, as its caller is: the outcome is not moved.
#[inline(always)]
pub(crate) fn find<'i, R: Content + Drop>(
    alloc: Global,
    lookup: Lookup<'i, '_>,
    file: &[u8],
    content: &mut Option<R>,
) -> Result<Outcome<'i>, Stop>
    // It is what the lookup of the stored file comes to.
    ensures { (stored : Stored) → IsContent R.remaining R.health lookup.entry.name_only stored content.old
        → LooksUpFile (plain_lookup lookup.entry) stored file.now result }
{
    let Lookup {
        by,
        name_only: _,
        inode: _,
        order,
        output: _,
    } = lookup;
    match by {
        Data::Database(database) => find_in_database(alloc, database, order, file, content),
        Data::Indexed(index) => find_in_index(alloc, index, order, file, content),
        Data::Magic(magic) => find_by_magic(alloc, magic, order, file, content),
        Data::Cache { path, bytes, cost } => {
            find_in_cache(alloc, path, bytes, cost, order, file, content)
        }
        Data::Opened { path, cache, cost } => {
            find_again(alloc, path, cache, cost, order, file, content)
        }
    }
}

fn find_in_database<'a, R: Content + Drop>(
    alloc: Global,
    database: &'a Database,
    order: Order,
    file: &[u8],
    content: &mut Option<R>,
) -> Result<Outcome<'a>, Stop>
    ensures { (stored : Stored) (name_only : Bool) (output : Output) → IsContent R.remaining R.health name_only stored content.old
        → LooksUpFile (lookup_over name_only output order (plain_database database.entry.now)) stored file.now result }
{
    let name = name_for(order, file);
    match look_up_plain(alloc, database, name, content, Host::Little, order) {
        Ok(answer) => Ok(Outcome::Typed(answer.kind, cost_of(false, answer.meter, answer.read))),
        Err(stopped) => match stopped.cause {
            Cause::NameTooLong => Ok(Outcome::NameTooLong),
            Cause::Read => Ok(Outcome::CannotRead),
            Cause::OutOfMemory => Err(Stop::OutOfMemory),
            Cause::Cache(_) => unreachable!(),
        },
    }
}

fn find_in_index<'a, R: Content + Drop>(
    alloc: Global,
    index: &IndexedDatabase<'a>,
    order: Order,
    file: &[u8],
    content: &mut Option<R>,
) -> Result<Outcome<'a>, Stop>
    ensures { (stored : Stored) (name_only : Bool) (output : Output) → IsContent R.remaining R.health name_only stored content.old
        → LooksUpFile (lookup_over name_only output order (plain_database index.now)) stored file.now result }
{
    let name = name_for(order, file);
    match look_up_indexed(alloc, index, name, content, Host::Little, order) {
        Ok(answer) => Ok(Outcome::Typed(answer.kind, cost_of(false, answer.meter, answer.read))),
        Err(stopped) => match stopped.cause {
            Cause::NameTooLong => Ok(Outcome::NameTooLong),
            Cause::Read => Ok(Outcome::CannotRead),
            Cause::OutOfMemory => Err(Stop::OutOfMemory),
            Cause::Cache(_) => unreachable!(),
        },
    }
}

fn find_by_magic<'a, R: Content + Drop>(
    alloc: Global,
    magic: &DatabaseMagic<'a>,
    order: Order,
    file: &[u8],
    content: &mut Option<R>,
) -> Result<Outcome<'a>, Stop>
    ensures { (stored : Stored) (name_only : Bool) (output : Output) → IsContent R.remaining R.health name_only stored content.old
        → LooksUpFile (lookup_over name_only output order (plain_database magic.now)) stored file.now result }
{
    let name = name_for(order, file);
    match look_up_by_magic(alloc, magic, name, content, Host::Little, order) {
        Ok(answer) => Ok(Outcome::Typed(answer.kind, cost_of(false, answer.meter, answer.read))),
        Err(stopped) => match stopped.cause {
            Cause::NameTooLong => Ok(Outcome::NameTooLong),
            Cause::Read => Ok(Outcome::CannotRead),
            Cause::OutOfMemory => Err(Stop::OutOfMemory),
            Cause::Cache(_) => unreachable!(),
        },
    }
}

fn find_in_cache<'a, R: Content + Drop>(
    alloc: Global,
    path: &str,
    bytes: &'a [u8],
    cost: bool,
    order: Order,
    file: &[u8],
    content: &mut Option<R>,
) -> Result<Outcome<'a>, Stop>
    ensures { (stored : Stored) (name_only : Bool) (output : Output) → IsContent R.remaining R.health name_only stored content.old
        → LooksUpFile (lookup_by path.now name_only cost output order bytes.entry.now) stored file.now result }
{
    let name = name_for(order, file);
    let cache = Counted::new(bytes);
    match look_up(alloc, cache, name, content, Host::Little, order) {
        Ok(answer) => Ok(Outcome::Typed(answer.kind, cost_of(cost, answer.meter, answer.read))),
        Err(stopped) => match stopped.cause {
            Cause::NameTooLong => Ok(Outcome::NameTooLong),
            Cause::Read => Ok(Outcome::CannotRead),
            Cause::Cache(fault) => Err(faulty(alloc, path, fault)),
            Cause::OutOfMemory => Err(Stop::OutOfMemory),
        },
    }
}

/// What an answer cost for which nothing was looked at.
pub(super) fn free(lookup: Lookup<'_, '_>) -> Cost
    // Its text is that of no node, no byte compared and no byte read, if costs are told.
    ensures { tail_of_cost result ≡ (plain_lookup lookup.entry).free }
{
    match lookup.by {
        Data::Database(_) | Data::Indexed(_) | Data::Magic(_) => cost_of(
            false,
            Meter { nodes: 0, bytes: 0 },
            0,
        ),
        Data::Cache { cost, .. } => cost_of(cost, Meter { nodes: 0, bytes: 0 }, 0),
        Data::Opened { cost, .. } => cost_of(cost, Meter { nodes: 0, bytes: 0 }, 0),
    }
}

// What an answer cost, and whether that is told.
pub(super) fn cost_of(is_told: bool, meter: Meter, read: u64) -> Cost
    // Its text has these numbers, if costs are told.
    ensures { tail_of_cost result ≡ cost_tail is_told meter read }
{
    Cost {
        is_told,
        meter,
        read,
    }
}

/// What is looked up of a file: its name, but nothing where the content alone is asked.
pub(crate) fn name_for(order: Order, file: &[u8]) -> &[u8]
    // The order says whether the name is looked up.
    ensures { result.now ≡ name_for order file.entry.now }
{
    match order {
        Order::ContentOnly => b"",
        Order::GlobsFirst | Order::MagicFirst | Order::AllGlobs => base_name(file),
    }
}
