//! The type of a name and a content, by a database that is open.

ghost use Rattle.std.specs.Prelude.{◌≡◌, ◌≢◌, IfErr};
ghost use Rattle.mime_c.specs.Handle.{IsByHandle, StaysOpen};
ghost use Rattle.mime_c.specs.LookUp.{IsLookUp, IsLookedUp, IsTypedByContent, IsTypedByName, available_content};
ghost use Rattle.mime_c.specs.Order.{numbered_order};
ghost use Rattle.mime_lookup.specs.NameAlone.{IsNameLookUp};

use crate::database::handle::Handle;
use crate::database::kept::HandleReport;
use crate::database::open_database::OpenDatabase;
use crate::look_up::{TypeAnswer, tell, tell_name};
use crate::order::order_of;
use crate::report::{Report, status_report};
use crate::status::UNKNOWN_ORDER;
use mime_base::{Host, Meter};
use mime_lookup::{Answer, Cause, NameAnswer, Order, Stopped, look_up_again, look_up_name_again};
use std::alloc::Global;

/// What `look_up_with` gives, over what is open. C calls it through `mimelook_database_look_up`, whose content may be NULL.
#[unsafe(no_mangle)]
pub extern "C" fn database_look_up_with(
    alloc: Global,
    database: Handle,
    name: &[u8],
    content: &[u8],
    has_content: bool,
    order: u32,
    answer: &mut TypeAnswer<'static>,
) -> HandleReport
    // It is what is given over the bytes; where nothing is open, the answer stays.
    ensures promises { IsByHandle database.opened (λ cache told. IsLookedUp cache name.now (available_content has_content content.now)
        (numbered_order order) answer.old answer.new told) (answer.new ≡ answer.old) result.report }
    // What is open stays so, where it lies.
    ensures stays { StaysOpen database.address database.opened result.kept }
{
    match database.into_value() {
        Some(mut opened) => {
            let report = ask(
                alloc,
                opened.as_mut(),
                name,
                content,
                has_content,
                order,
                answer,
            );
            HandleReport::of(report, opened)
        }
        None => HandleReport::not_open(alloc),
    }
}

// The same of what is open.
fn ask(
    alloc: Global,
    opened: &mut OpenDatabase,
    name: &[u8],
    content: &[u8],
    has_content: bool,
    order: u32,
    answer: &mut TypeAnswer<'static>,
) -> Report
    ensures same { opened.new ≡ opened.old }
    ensures promises { IsLookedUp opened.old.cache name.now (available_content has_content content.now) (numbered_order order)
        answer.old answer.new result }
{
    let Some(order) = order_of(order) else {
        return status_report(UNKNOWN_ORDER, 0, Meter::new());
    };
    if has_content {
        ask_content(alloc, opened, name, content, order, answer)
    } else {
        ask_name(alloc, opened, name, order, answer)
    }
}

// The answer to a name and a content, which is final.
fn ask_content(
    alloc: Global,
    opened: &mut OpenDatabase,
    name: &[u8],
    content: &[u8],
    order: Order,
    answer: &mut TypeAnswer<'static>,
) -> Report
    ensures same { opened.new ≡ opened.old }
    ensures promises { IsTypedByContent opened.old.cache name.now content.now order answer.old answer.new result }
{
    let found = with_content(alloc, opened, name, content, order);
    tell(found, answer)
}

// The answer to a name alone.
fn ask_name(
    alloc: Global,
    opened: &mut OpenDatabase,
    name: &[u8],
    order: Order,
    answer: &mut TypeAnswer<'static>,
) -> Report
    ensures same { opened.new ≡ opened.old }
    ensures promises { IsTypedByName opened.old.cache name.now order answer.old answer.new result }
{
    let found = without_content(alloc, opened, name, order);
    tell_name(found, answer)
}

// The lookup of a name and a content.
fn with_content(
    alloc: Global,
    opened: &mut OpenDatabase,
    name: &[u8],
    content: &[u8],
    order: Order,
) -> Result<Answer<'static>, Stopped>
    ensures same { opened.new ≡ opened.old }
    ensures promises { IsLookUp opened.old.cache name.now content.now order result }
    ensures readable { IfErr result (λ stopped. stopped.cause ≢ Cause.Read) }
{
    opened.read_paid(alloc);
    let mut content = Some(content);
    let found = look_up_again(
        alloc,
        opened.indexed(),
        name,
        &mut content,
        Host::Little,
        order,
    );
    pay(opened, &found);
    found
}

// Counts what an answer visited.
fn pay(opened: &mut OpenDatabase, found: &Result<Answer<'static>, Stopped>)
    ensures same { opened.new ≡ opened.old }
{
    if let Ok(answer) = found {
        opened.pay(answer.meter.nodes, answer.read > 0);
    }
}

// The lookup of a name alone.
fn without_content(
    alloc: Global,
    opened: &mut OpenDatabase,
    name: &[u8],
    order: Order,
) -> Result<NameAnswer<'static>, Stopped>
    ensures same { opened.new ≡ opened.old }
    ensures promises { IsNameLookUp opened.old.cache name.now order result }
    ensures readable { IfErr result (λ stopped. stopped.cause ≢ Cause.Read) }
{
    opened.read_paid(alloc);
    let found = look_up_name_again(alloc, opened.indexed(), name, order);
    pay_name(opened, &found);
    found
}

// Counts what the answer to a name alone visited.
fn pay_name(opened: &mut OpenDatabase, found: &Result<NameAnswer<'static>, Stopped>)
    ensures same { opened.new ≡ opened.old }
{
    if let Ok(answer) = found {
        opened.pay(answer.meter.nodes, false);
    }
}
