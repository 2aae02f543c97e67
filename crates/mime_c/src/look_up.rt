//! The type of a name and a content.

ghost use Rattle.std.specs.Prelude.{◌≢◌, IfErr, IfSome, Some};
ghost use Rattle.mime_c.specs.Headline.{IsHeadline};
ghost use Rattle.mime_c.specs.LookUp.{IsLookUp, IsLookUpReport, IsLookedUp, IsNameReport};
ghost use Rattle.mime_c.specs.LookUp.{IsTypedByContent, IsTypedByName, IsWritten, available_content};
ghost use Rattle.mime_c.specs.Order.{numbered_order};
ghost use Rattle.mime_lookup.specs.NameAlone.{IsNameLookUp};

use crate::order::order_of;
use crate::report::{Report, answered, status_report, stop_report};
use crate::status::UNKNOWN_ORDER;
use mime_base::{Counted, Host, Meter};
use mime_lookup::{Answer, Cause, NameAnswer, Order, Stopped, look_up, look_up_name};
use std::alloc::Global;

/// Bytes that lie in the caller's cache, or in the library.
#[repr(C)]
#[derive(Drop)]
pub struct Text<'a> {
    /// The bytes.
    pub bytes: &'a [u8],
}

/// A type, and how much of a content could give another.
#[repr(C)]
#[derive(Drop)]
pub struct TypeAnswer<'a> {
    /// The type: bytes of the cache, or one of three fixed types.
    pub kind: Text<'a>,
    /// How many bytes of a content a lookup of this name reads at most, where the content was not available and could give
    /// another type; 0 where the type is final.
    pub wanted: u64,
    /// Zeros, for what is to come.
    pub spare: [u64; 3],
}

/// The type that the checking order gives to a name and a content, by a cache ("Recommended checking order").
///
/// `has_content` is false where the content is not available; then `content` is not looked at. `order` is 0 where the globs
/// are asked first, 1 where content of a high priority decides before them, and 2 where the content chooses among all globs
/// that match. Words of the content are read as on a machine whose numbers have the lowest byte first. C calls this through
/// `mimelook_look_up`, whose content may be NULL.
#[unsafe(no_mangle)]
pub extern "C" fn look_up_with<'a>(
    alloc: Global,
    cache: &'a [u8],
    name: &[u8],
    content: &[u8],
    has_content: bool,
    order: u32,
    answer: &mut TypeAnswer<'a>,
) -> Report
    // It is what `look_up` answers over the content, or `look_up_name` without one, or an unknown order; only an answer is written.
    ensures promises { IsLookedUp cache.now name.now (available_content has_content content.now) (numbered_order order)
        answer.old answer.new result }
    // On any bytes it keeps to the bounds, and over a cache that was written it gives the type of the checking order.
    ensures headline { IfSome (numbered_order order) (λ order. IsHeadline cache.now name.now
        (available_content has_content content.now) order answer.new.kind.bytes.now result) }
{
    let Some(order) = order_of(order) else {
        return status_report(UNKNOWN_ORDER, 0, Meter::new());
    };
    if has_content {
        ask_content(alloc, cache, name, content, order, answer)
    } else {
        ask_name(alloc, cache, name, order, answer)
    }
}

// The answer to a name and a content, which is final.
fn ask_content<'a>(
    alloc: Global,
    cache: &'a [u8],
    name: &[u8],
    content: &[u8],
    order: Order,
    answer: &mut TypeAnswer<'a>,
) -> Report
    ensures { IsTypedByContent cache.now name.now content.now order answer.old answer.new result }
{
    let found = with_content(alloc, cache, name, content, order);
    tell(found, answer)
}

/// The answer to a name and a content goes out, if there is one.
pub(crate) fn tell<'a>(found: Result<Answer<'a>, Stopped>, answer: &mut TypeAnswer<'a>) -> Report
    // Bytes are read, which never fail.
    requires readable { IfErr found (λ stopped. stopped.cause ≢ Cause.Read) }
    // It is written only with an answer.
    ensures { IsLookUpReport found.entry answer.old answer.new result }
{
    match found {
        Ok(found) => {
            put(found.kind, 0, answer);
            answered(found.read, found.meter)
        }
        Err(stopped) => stop_report(stopped),
    }
}

// The answer to a name alone.
fn ask_name<'a>(
    alloc: Global,
    cache: &'a [u8],
    name: &[u8],
    order: Order,
    answer: &mut TypeAnswer<'a>,
) -> Report
    ensures { IsTypedByName cache.now name.now order answer.old answer.new result }
{
    let found = without_content(alloc, cache, name, order);
    tell_name(found, answer)
}

/// The answer to a name alone goes out, if there is one.
pub(crate) fn tell_name<'a>(
    found: Result<NameAnswer<'a>, Stopped>,
    answer: &mut TypeAnswer<'a>,
) -> Report
    // Nothing is read.
    requires readable { IfErr found (λ stopped. stopped.cause ≢ Cause.Read) }
    // It is written only with an answer.
    ensures { IsNameReport found.entry answer.old answer.new result }
{
    match found {
        Ok(found) => {
            put(found.kind, found.wanted, answer);
            answered(0, found.meter)
        }
        Err(stopped) => stop_report(stopped),
    }
}

// The lookup of a name and a content.
fn with_content<'a>(
    alloc: Global,
    cache: &'a [u8],
    name: &[u8],
    content: &[u8],
    order: Order,
) -> Result<Answer<'a>, Stopped>
    ensures promises { IsLookUp cache.entry.now name.now content.now order result }
    ensures readable { IfErr result (λ stopped. stopped.cause ≢ Cause.Read) }
{
    let mut content = Some(content);
    look_up(
        alloc,
        Counted::new(cache),
        name,
        &mut content,
        Host::Little,
        order,
    )
}

// The lookup of a name alone.
fn without_content<'a>(
    alloc: Global,
    cache: &'a [u8],
    name: &[u8],
    order: Order,
) -> Result<NameAnswer<'a>, Stopped>
    ensures promises { IsNameLookUp cache.entry.now name.now order result }
    ensures readable { IfErr result (λ stopped. stopped.cause ≢ Cause.Read) }
{
    look_up_name(alloc, Counted::new(cache), name, order)
}

// A type, and how much of a content is wanted, in an answer.
fn put<'a>(kind: &'a [u8], wanted: u64, answer: &mut TypeAnswer<'a>)
    ensures { IsWritten kind.now wanted answer.new }
{
    *answer = TypeAnswer {
        kind: Text { bytes: kind },
        wanted,
        spare: [0; 3],
    };
}
