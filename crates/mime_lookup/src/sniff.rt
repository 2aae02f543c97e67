//! What a content is sniffed as ("Recommended checking order").

ghost use Rattle.std.specs.Prelude.{◌≡◌, ◌+◌, ◌≤◌, false, length, IfErr, IfOk, IfSome, OnOk, Some};
ghost use Rattle.mime_lookup.specs.CheckingOrder.{IsSniffed, IsSniffedFor, front_size, read_limit};
ghost use Rattle.mime_lookup.specs.Content.{known_content};
ghost use Rattle.mime_lookup.specs.IndexBytes.{content_bytes};
ghost use Rattle.mime_lookup.specs.Reads.{IsReadOrMemory, UsesReader};
ghost use Rattle.mime_lookup.specs.Sniffing.{FrontIsEnough, sniffed_by_bytes};

use crate::asked::Asked;
use crate::content::Content;
use crate::fixed::{OCTET_STREAM, TEXT_PLAIN, ZERO_SIZE};
use crate::order::Order;
use crate::reading::read_front;
use crate::stopped::Cause;
use mime_base::{Host, Meter, looks_textual};
use std::alloc::Global;

/// The least priority with which magic comes before the globs.
pub const HIGH_PRIORITY: u32 = 80;

/// What a content was sniffed as.
#[derive(Clone, Copy, Debug)]
pub struct Sniffed<'a> {
    /// The type.
    pub kind: &'a [u8],
    /// Whether a section of a priority of 80 or more gave it.
    pub is_high: bool,
    /// Whether a section gave it.
    pub by_magic: bool,
}

/// The law of fronts: one of at least 128 bytes and the database's extent, or the whole content, is
/// sniffed as the whole.
pub fn front_is_enough()
    // A front that is long enough, or the whole, is sniffed as the whole.
    ensures { FrontIsEnough }
{}

/// What a content is sniffed as, by its front: as much of it as magic can look at.
#[tactic(auto, unfolding(crate::specs::Sniffing::sniffed, crate::specs::CheckingOrder::before_globs))]
pub fn sniff_content<'a, A: Asked<'a>, R: Content>(
    alloc: Global,
    database: &A,
    content: &mut Option<R>,
    host: Host,
    read: &mut u64,
    meter: &mut Meter,
) -> Result<Sniffed<'a>, Cause>
    // Nothing was read.
    requires none { read.old ≡ 0 }
    // It is what the content is sniffed as, where that is known.
    ensures answers { IfOk result (IsSniffedFor R.remaining (A.plain database.now) content.old host) }
    // As much is read as magic can look at.
    ensures read { OnOk result (IfSome (known_content R.remaining content.old)
        (λ known. read.new ≡ front_size (A.plain database.now) known)) }
    // It stops only for a read or for memory.
    ensures causes { IfErr result IsReadOrMemory }
    // It takes no more of its reader than that, and asks it.
    ensures uses { UsesReader R.remaining R.tally R.health (read_limit (A.plain database.now)) false
        content.old content.new read.new result }
    // No record of a cache is visited.
    ensures nodes { meter.new.nodes ≡ meter.old.nodes }
    // No more bytes are compared than what was read allows.
    ensures bytes { meter.new.bytes ≤ meter.old.bytes + content_bytes (A.plain database.now) read.new }
{
    match content {
        Some(reader) => {
            let limit = database.front_limit();
            let front = read_front(alloc, reader, limit, read)?;
            Ok(sniff(database, &front, host, meter))
        }
        None => Ok(Sniffed {
            kind: OCTET_STREAM,
            is_high: false,
            by_magic: false,
        }),
    }
}

/// What a content is sniffed as: the type of the first section with a line that holds, after one
/// alias step, else a type by the bytes alone.
#[tactic(auto, unfolding(crate::specs::Sniffing::sniffed, crate::specs::CheckingOrder::before_globs))]
fn sniff<'a, A: Asked<'a>>(
    database: &A,
    content: &[u8],
    host: Host,
    meter: &mut Meter,
) -> Sniffed<'a>
    // It is what the content is sniffed as.
    ensures sniffed { IsSniffed (A.plain database.now) (Some content.now) host result }
    // No record of a cache is visited.
    ensures nodes { meter.new.nodes ≡ meter.old.nodes }
    // No more bytes are compared than the content's length allows.
    ensures bytes { meter.new.bytes ≤ meter.old.bytes + content_bytes (A.plain database.now) (length content.now) }
{
    match database.first_section(content, host, meter) {
        Some((kind, priority)) => Sniffed {
            kind: database.unalias(kind),
            is_high: priority >= HIGH_PRIORITY,
            by_magic: true,
        },
        None => Sniffed {
            kind: by_bytes(content),
            is_high: false,
            by_magic: false,
        },
    }
}

/// The type of a content for which no section holds.
pub fn by_bytes(content: &[u8]) -> &'static [u8]
    // It is the type by the bytes alone: empty, text or other bytes.
    ensures { result.now ≡ sniffed_by_bytes content.now }
{
    if content.is_empty() {
        ZERO_SIZE
    } else if looks_textual(content) {
        TEXT_PLAIN
    } else {
        OCTET_STREAM
    }
}
