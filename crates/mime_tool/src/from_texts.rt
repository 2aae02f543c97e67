//! From the bytes of data directories to the type of a file, with nothing stored between.

ghost use Rattle.std.specs.Prelude.{◌≡◌, ◌≢◌, ◌≤◌, ℕ, IfOk, IfErr, OnOk, ⊤};
ghost use Rattle.mime_base.specs.Database.{PlainDatabase, plain_database};
ghost use Rattle.mime_base.specs.Database.Limits.{IsWithinLimits};
ghost use Rattle.mime_base.specs.Format.Room.{room};
ghost use Rattle.mime_base.specs.Format.Spells.{cache_limit};
ghost use Rattle.mime_lookup.specs.CheckingOrder.{globs_suffice};
ghost use Rattle.mime_lookup.specs.Content.{Advances, GivesUp, OfReader, Retries, known_content, sound};
ghost use Rattle.mime_text.specs.DirTexts.{FirstRefused, SayDatabase};
ghost use Rattle.mime_text.specs.declared.magic.fault.MagicFault.{MagicFault};
ghost use Rattle.mime_tool.specs.Build.{IsCacheOf};
ghost use Rattle.mime_tool.specs.FromTexts.{AsksOnly, AsksReader, ComesOver, IfStopped, IsMagicRefusal, IsReadFault, IsStoreFault};
ghost use Rattle.mime_tool.specs.FromTexts.{TookBytes, VisibleChoosesAlike, VisibleReadsAlike, VisibleSufficesAlike};
ghost use Rattle.mime_tool.specs.FromTexts.{of_dirs, of_stopped, of_store};
ghost use Rattle.mime_tool.specs.declared.from_texts.AnswerFault.TheVariants as faults;

use mime_base::{
    Counted, Database, Host, LARGEST_CACHE, Meter, OutOfMemory, database_keeps_limits,
};
use mime_lookup::{Answer, Cause, Content, Order, Stopped, look_up};
use mime_store::{StoreFault, write_cache};
use mime_text::{DirTexts, DirsFault, MagicFault, merge_visible, read_dirs};
use std::alloc::{AllocError, Global};
use thiserror::Error;

/// The type of a file, and what it took to find it.
#[derive(Debug, Drop)]
pub struct OwnedAnswer {
    /// The type.
    pub kind: Vec<u8>,
    /// How many bytes of the content were read.
    pub read: u64,
    /// What was looked at.
    pub meter: Meter,
}

/// Why there is no answer.
#[derive(Clone, Copy, Debug, PartialEq, Eq, Error)]
pub enum AnswerFault {
    /// The first directory whose `magic` is refused, counted from 0, and the first fault of that.
    #[error("directory {0}: {1}")]
    Magic(usize, MagicFault),
    /// The database takes more bytes than a cache may have.
    #[error("{0}")]
    Store(StoreFault),
    /// The name is too long, or the content can't be read.
    #[error("{0}")]
    Lookup(Stopped),
    /// An allocation was refused.
    #[error("out of memory")]
    OutOfMemory,
}

impl From<OutOfMemory> for AnswerFault {
    ghost from_gives = { λ _ fault. fault ≡ faults.OutOfMemory };

    fn from(_error: OutOfMemory) -> AnswerFault {
        AnswerFault::OutOfMemory
    }
}

impl From<AllocError> for AnswerFault {
    ghost from_gives = { λ _ fault. fault ≡ faults.OutOfMemory };

    fn from(_error: AllocError) -> AnswerFault {
        AnswerFault::OutOfMemory
    }
}

impl From<DirsFault> for AnswerFault {
    ghost from_gives = { λ dirs fault. fault ≡ of_dirs dirs };

    fn from(fault: DirsFault) -> AnswerFault {
        match fault {
            DirsFault::Magic {
                directory,
                kind,
                offset,
            } => AnswerFault::Magic(directory, MagicFault::Malformed { kind, offset }),
            DirsFault::OutOfMemory => AnswerFault::OutOfMemory,
        }
    }
}

impl From<StoreFault> for AnswerFault {
    ghost from_gives = { λ store fault. fault ≡ of_store store };

    fn from(fault: StoreFault) -> AnswerFault {
        match fault {
            StoreFault::TooLarge => AnswerFault::Store(StoreFault::TooLarge),
            StoreFault::OutOfMemory => AnswerFault::OutOfMemory,
        }
    }
}

impl From<Stopped> for AnswerFault {
    ghost from_gives = { λ stopped fault. fault ≡ of_stopped stopped };

    fn from(stopped: Stopped) -> AnswerFault {
        match stopped.cause {
            Cause::NameTooLong | Cause::Cache(_) | Cause::Read => AnswerFault::Lookup(stopped),
            Cause::OutOfMemory => AnswerFault::OutOfMemory,
        }
    }
}

/// The type that the checking order gives to a name and a content, by the text files of directories.
///
/// ```text
/// let dirs = [own, system]; // the most preferred first
/// let mut content = Some(&b"#!/bin/sh\n"[..]);
/// let (host, order) = (Host::Little, Order::GlobsFirst);
/// let answer = answer(alloc, &dirs, b"install.sh", &mut content, host, order)?;
/// ```
///
/// The files are read and merged, less the rules that are never kept, a cache is written in memory, and the
/// lookup goes over its bytes: what it visits, compares and reads keeps to the bounds of a lookup. Malformed
/// lines are skipped.
///
/// Want of memory is [`AnswerFault::OutOfMemory`], wherever it arose. A lookup stops for the content only where
/// there is one and a read of it failed, or a 1,001st interruption came. This project's own.
pub fn answer<R: Content>(
    alloc: Global,
    dirs: &[DirTexts<'_>],
    name: &[u8],
    content: &mut Option<R>,
    host: Host,
    order: Order,
) -> Result<OwnedAnswer, AnswerFault>
    // Where all magic is accepted, an answer is that of the checking order over what the texts say, less the rules that are never
    // kept, within the bounds of a lookup.
    ensures accepted { (b : PlainDatabase) → SayDatabase dirs.now b →
        ComesOver b name.now (known_content R.remaining content.old) host order result }
    // Where some isn't, the first directory of which it isn't is named, with the first fault, unless memory ran out.
    ensures refused { (i : ℕ) (f : MagicFault) → FirstRefused dirs.now i f → IsMagicRefusal i f result }

    // A read stops it only after a read that failed or a 1,001st interruption, where the reader tells.
    ensures gives_up { IfErr result (λ fault. IfStopped fault (λ stopped. stopped.cause ≡ Cause.Read →
        OfReader (λ before after. GivesUp (R.tally before) (R.tally after) 1000) ⊥ content.old content.new)) }
    // An answer means that no read failed, and at most 1,000 were interrupted.
    ensures goes { OnOk result (OfReader
        (λ before after. Retries (R.tally before) (R.tally after) 1000) ⊤ content.old content.new) }
    // A reader that tells that each read gives bytes never stops it.
    ensures fails { IfErr result (λ fault. IfStopped fault (λ stopped. stopped.cause ≡ Cause.Read →
        OfReader (λ before _. R.health before ≢ sound) ⊥ content.old content.new)) }
    // Where each read fails, there is an answer exactly where the globs alone give it, memory aside.
    ensures asked { (b : PlainDatabase) → SayDatabase dirs.now b →
        AsksOnly R.health (globs_suffice b name.now order) content.old content.new result }
    // As many bytes were taken from the reader as are told.
    ensures advances { TookBytes (λ read. OfReader (λ before after. Advances (R.remaining before) (R.remaining after) read)
        (read ≡ 0) content.old content.new) result }
{
    let database = read_database(alloc, dirs)?;
    answer_over(alloc, &database, name, content, host, order)
}

/// The law of what is left out: over the visible rules of a database an order that asks the kept rules alone says what
/// it says over all.
///
/// So what [`answer`] gives over the database of the directories, whose rules are the visible ones, is also the
/// answer over all that their texts say. Under [`Order::AllGlobs`] a rule that is never kept is no candidate either.
pub fn visible_chooses_alike()
    // The same type is chosen for a name and a content, by any order but that which asks all rules.
    ensures chooses { VisibleChoosesAlike }
    // The globs alone decide over both or over neither.
    ensures suffices { VisibleSufficesAlike }
    // As much of the content is read.
    ensures reads { VisibleReadsAlike }
{}

// The database of the directories.
fn read_database(alloc: Global, dirs: &[DirTexts<'_>]) -> Result<Database, AnswerFault>
    ensures says { IfOk result (λ database. SayDatabase dirs.now (plain_database database)) }
    ensures fault { IfErr result (IsReadFault dirs.now) }
{
    let files = read_dirs(alloc, dirs)?;
    let database = merge_visible(alloc, files)?;
    Ok(database)
}

fn answer_over<R: Content>(
    alloc: Global,
    database: &Database,
    name: &[u8],
    content: &mut Option<R>,
    host: Host,
    order: Order,
) -> Result<OwnedAnswer, AnswerFault>
    ensures comes { ComesOver (plain_database database.now) name.now (known_content R.remaining content.old)
        host order result }
    ensures reader { AsksReader R.remaining R.tally R.health content.old content.new result }
    ensures asked { AsksOnly R.health (globs_suffice (plain_database database.now) name.now order)
        content.old content.new result }
{
    let cache = cache_of(alloc, database)?;
    database_keeps_limits(database);
    answer_by(alloc, cache.as_slice(), name, content, host, order)
}

fn cache_of(alloc: Global, database: &Database) -> Result<Vec<u8>, AnswerFault>
    ensures cache { IfOk result (λ cache. IsCacheOf (plain_database database.now) cache.items) }
    ensures fits { IfOk result (λ _. room (plain_database database.now) ≤ cache_limit) }
    ensures fault { IfErr result (IsStoreFault (plain_database database.now)) }
{
    let cache = write_cache(alloc, database, LARGEST_CACHE)?;
    Ok(cache)
}

// The type by a cache.
fn answer_by<R: Content>(
    alloc: Global,
    cache: &[u8],
    name: &[u8],
    content: &mut Option<R>,
    host: Host,
    order: Order,
) -> Result<OwnedAnswer, AnswerFault>
    ensures comes { (b : PlainDatabase) → IsWithinLimits b → IsCacheOf b cache.now → room b ≤ cache_limit →
        ComesOver b name.now (known_content R.remaining content.old) host order result }
    ensures reader { AsksReader R.remaining R.tally R.health content.old content.new result }
    ensures asked { (b : PlainDatabase) → IsWithinLimits b → IsCacheOf b cache.now →
        AsksOnly R.health (globs_suffice b name.now order) content.old content.new result }
{
    let answer = look_up(alloc, Counted::new(cache), name, content, host, order)?;
    let kind = answer.kind.to_vec(alloc)?;
    Ok(OwnedAnswer {
        kind,
        read: answer.read,
        meter: answer.meter,
    })
}
