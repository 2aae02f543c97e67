//! The magic of a database, for contents of which no name is asked.
//!
//! It answers all that [`crate::IndexedDatabase`] does, but has no index of names, which takes most of the time of making that one: each
//! rule is tried for a name.

ghost use Rattle.std.specs.Prelude.{◌≡◌, ◌<◌, ◌≤◌, length, IfErr, IfOk, IfSome};
ghost use Rattle.mime_base.specs.Database.{plain_database};
ghost use Rattle.mime_lookup.specs.CheckingOrder.{globs_suffice, read_limit};
ghost use Rattle.mime_lookup.specs.Content.{known_content};
ghost use Rattle.mime_lookup.specs.IndexBytes.{choice_bytes, content_bytes, order_bytes, tried_bytes};
ghost use Rattle.mime_lookup.specs.LookUps.{ChoosesSome, IsPlainAnswer, cause_in, meter_in, name_too_long, read_in};
ghost use Rattle.mime_lookup.specs.Reads.{AsksUnless, IsReadOrMemory, Reads};

use crate::answer::Answer;
use crate::asked::Asked;
use crate::checking::look_up_over;
use crate::content::Content;
use crate::indexed::prepared_magic::{PreparedMagic, magic_of};
use crate::indexed::sniff::first_section;
use crate::lists::Lists;
use crate::order::Order;
use crate::places::{Places, places_of, unalias_at};
use crate::short_types::types_are_short;
use crate::stopped::Stopped;
use mime_base::{Database, Host, Meter, OutOfMemory, database_keeps_limits};
use mime_names::RankedKinds;
use std::alloc::Global;
use std::marker::Model;

/// A database with what contents need of it, found once for many. This project's own.
///
/// ```
/// let magic = DatabaseMagic::new(alloc, &database)?;
/// let answer = look_up_by_magic(alloc, &magic, b"", &mut content, Host::Little, Order::ContentOnly)?;
/// ```
#[derive(Drop)]
pub struct DatabaseMagic<'a> {
    /// The database.
    database: &'a Database,
    /// The places of its aliases.
    aliases: Places<'a>,
    /// Its sections of magic.
    magic: PreparedMagic<'a>,
}

impl<'a> Model for DatabaseMagic<'a> {
    ghost use Rattle.mime_base.specs.declared.database.Database.{Database};
    ghost use Rattle.mime_base.specs.contracts.magic.matchlet.Matchlet as line;
    ghost use Rattle.mime_lookup.specs.Indexed.{IsMagicOf};
    ghost use Rattle.std.specs.Coded.{codes};

    ghost Value = { Database };

    ghost coded = { Prim.hlevel (codes, line.the_row.coded) };

    ghost view = { λ magic. magic.database.now };

    ghost invariant = { λ magic. IsMagicOf magic.database.now magic.aliases magic.magic };
}

impl<'a> DatabaseMagic<'a> {
    /// The magic and the aliases of a database; its other lists are not looked at. Its time and memory grow with these.
    pub fn new(alloc: Global, database: &'a Database) -> Result<DatabaseMagic<'a>, OutOfMemory>
        // It is that of this database.
        ensures { IfOk result (λ magic. magic ≡ database.entry.now) }
    {
        let aliases = places_of(alloc, &database.aliases)?;
        let magic = magic_of(alloc, database)?;
        Ok(DatabaseMagic {
            database,
            aliases,
            magic,
        })
    }

    /// The database, to be asked by trying all of it.
    fn lists(&self) -> Lists<'a>
        ensures { result.database.now ≡ self.now }
    {
        Lists {
            database: self.database,
        }
    }
}

/// The type that the checking order gives to a name and a content, over the magic of a database: as [`crate::look_up_plain`] answers over
/// the database, and with no other reads.
///
/// It is the way for many contents under [`Order::ContentOnly`]; [`crate::look_up_indexed`] is the one for names, of which each rule is
/// tried here.
///
/// `None` is content that is not available; a reader is still there after the call. Of a content at
/// most the greater of 128 bytes and the database's extent is read; under [`Order::GlobsFirst`]
/// nothing where the globs give one type, under [`Order::AllGlobs`] nothing where all rules that
/// match give one type.
///
/// A name of more than 4,096 bytes is [`Cause::NameTooLong`], before anything else. [`Cause::Read`]
/// comes with a failed read and with the 1,001st interruption. The meter counts what is
/// compared and each part of the index of magic, and no record.
pub fn look_up_by_magic<'a, R: Content>(
    alloc: Global,
    magic: &DatabaseMagic<'a>,
    name: &[u8],
    content: &mut Option<R>,
    host: Host,
    order: Order,
) -> Result<Answer<'a>, Stopped>
    // The type is the one that the checking order gives to the name and the whole content, of which it reads as much as it says.
    ensures answers { IfOk result (λ answer. IfSome (known_content R.remaining content.old)
        (λ known. IsPlainAnswer (plain_database magic.now) name.now known host order answer)) }
    // Whatever is known of the content, the order gives the type to the name and to some content.
    ensures some { IfOk result (λ answer.
        ChoosesSome (plain_database magic.now) name.now content.old host order answer.kind.now) }
    // A name of more than 4,096 bytes is too long, before anything else.
    ensures too_long { 4096 < length name.now → (content.new ≡ content.old) × (result ≡ name_too_long) }
    // For another name it stops only for a read or for memory, so never for a cache.
    ensures otherwise { length name.now ≤ 4096 → IfErr result (λ stopped. IsReadOrMemory stopped.cause) }
    // It takes no more of its reader than magic and the test for text can look at, and gives up only where a read failed.
    ensures reader { Reads R.remaining R.tally R.health (read_limit (plain_database magic.now))
        content.old content.new (read_in result) (cause_in result) }
    // It asks its reader only where the globs do not suffice.
    ensures asks { AsksUnless R.health (globs_suffice (plain_database magic.now) name.now order)
        content.old content.new (cause_in result) }
    // No record of a cache is visited.
    ensures nodes { (meter_in result).nodes ≡ 0 }
    // Each rule is tried once for the name, each line for what is read of the content, and each type that is met for what was sniffed.
    ensures bytes { (meter_in result).bytes ≤ order_bytes order (globs_suffice (plain_database magic.now) name.now order)
        (tried_bytes magic.now.rules.items name.now) (tried_bytes magic.now.rules.items name.now)
        (content_bytes (plain_database magic.now) (read_in result)) (choice_bytes (plain_database magic.now) name.now) }
{
    look_up_over(alloc, magic, name, content, host, order)
}

impl<'a> Asked<'a> for DatabaseMagic<'a> {
    ghost plain = { plain_database };

    ghost kept_nodes = { λ database name. 0 };

    ghost all_nodes = { λ database name. 0 };

    ghost kept_bytes = { λ database. tried_bytes database.rules.items };

    ghost all_bytes = { λ database. tried_bytes database.rules.items };

    fn kept_kinds(
        &self,
        alloc: Global,
        name: &[u8],
        meter: &mut Meter,
    ) -> Result<Vec<&'a [u8]>, OutOfMemory> {
        self.lists().kept_kinds(alloc, name, meter)
    }

    fn candidate_kinds(
        &self,
        alloc: Global,
        name: &[u8],
        meter: &mut Meter,
    ) -> Result<RankedKinds<'a>, OutOfMemory> {
        self.lists().candidate_kinds(alloc, name, meter)
    }

    fn first_section(
        &self,
        content: &[u8],
        host: Host,
        meter: &mut Meter,
    ) -> Option<(&'a [u8], u32)> {
        first_section(&self.magic.heads, content, host, meter)
    }

    fn unalias(&self, kind: &'a [u8]) -> &'a [u8] {
        unalias_at(&self.aliases, kind)
    }

    fn first_of(
        &self,
        alloc: Global,
        kinds: &[&'a [u8]],
        default: &'a [u8],
        base: &[u8],
        meter: &mut Meter,
    ) -> Result<&'a [u8], OutOfMemory> {
        self.lists().first_of(alloc, kinds, default, base, meter)
    }

    fn front_limit(&self) -> usize {
        self.magic.limit
    }

    fn keeps_limits(&self) {
        database_keeps_limits(self.database);
        types_are_short(self.database);
    }
}
