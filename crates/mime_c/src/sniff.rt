//! What a content is sniffed as.

ghost use Rattle.std.specs.Prelude.{◌≢◌, IfErr};
ghost use Rattle.mime_base.specs.declared.magic.host.Host.TheVariants.{Little};
ghost use Rattle.mime_c.specs.Sniff.{IsAskedSniff, IsGivenSniff, IsSniffReport};
ghost use Rattle.mime_lookup.specs.ContentAlone.{IsSniffing};

use crate::report::{Report, answered, stop_report};
use mime_base::{Counted, Host};
use mime_lookup::{Cause, SniffedContent, Stopped, sniff_alone};

/// What a content is sniffed as.
#[repr(C)]
#[derive(Drop)]
pub struct Sniffed<'a> {
    /// The type.
    pub kind: &'a [u8],
    /// The priority of the section of magic that holds, 0 where none holds.
    pub priority: u32,
    /// 1 where a section holds, else 0.
    pub holds: u32,
    /// Zero.
    pub spare: [u64; 3],
}

/// What a content is sniffed as, whatever its name is ("Recommended checking order").
///
/// The type is that of the first section of magic that holds, after one alias step, else one of three fixed types. Words of
/// the content are read as on a machine whose numbers have the lowest byte first.
#[unsafe(no_mangle)]
pub extern "C" fn mimelook_sniff<'a>(
    cache: &'a [u8],
    content: &[u8],
    sniffed: &mut Sniffed<'a>,
) -> Report
    // It is what the lookup gives of the content alone; the struct is written only with an answer.
    ensures promises { IsAskedSniff cache.entry.now content.now sniffed.old sniffed.new result }
{
    let found = ask(cache, content);
    tell(found, sniffed)
}

/// What was found goes out, if anything was.
pub(crate) fn tell<'a>(
    found: Result<SniffedContent<'a>, Stopped>,
    sniffed: &mut Sniffed<'a>,
) -> Report
    // Bytes are read, which never fail.
    requires readable { IfErr found (λ stopped. stopped.cause ≢ Cause.Read) }
    // It is written only with an answer.
    ensures { IsSniffReport found.entry sniffed.old sniffed.new result }
{
    match found {
        Ok(found) => {
            *sniffed = given_sniff(&found);
            answered(found.read, found.meter)
        }
        Err(stopped) => stop_report(stopped),
    }
}

// What C gets of an answer.
fn given_sniff<'a>(found: &SniffedContent<'a>) -> Sniffed<'a>
    ensures { IsGivenSniff found.now result }
{
    Sniffed {
        kind: found.kind,
        priority: found.priority.unwrap_or(0),
        holds: u32::from(found.priority.is_some()),
        spare: [0; 3],
    }
}

// The answer itself.
fn ask<'a>(cache: &'a [u8], content: &[u8]) -> Result<SniffedContent<'a>, Stopped>
    ensures { IsSniffing cache.entry.now content.now Little result }
{
    sniff_alone(Counted::new(cache), content, Host::Little)
}
