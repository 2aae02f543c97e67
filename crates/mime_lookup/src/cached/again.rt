//! The lookup over a cache that is opened once, for many names and contents.

ghost use Rattle.std.specs.Prelude.{IfOk};
ghost use Rattle.mime_lookup.specs.Headline.{IsHeadline};
ghost use Rattle.mime_lookup.specs.LookUps.{AnswersLookUp, CostsLookUp, ReadsLookUp, StopsLookUp, cause_in, meter_in, read_in};

use crate::answer::Answer;
use crate::cached::find_opened;
use crate::cached::indexed_cache::IndexedCache;
use crate::content::Content;
use crate::limits::LONGEST_NAME;
use crate::order::Order;
use crate::question::Question;
use crate::stopped::{Cause, Stopped};
use mime_base::{Host, Meter};
use std::alloc::Global;

/// The lookup of [`crate::look_up`] over a cache that was opened once: by the index of what was read back of it, and by a walk of the
/// rest.
///
/// ```text
/// let mut indexed = IndexedCache::open(Counted::new(bytes), &mut meter)?;
/// indexed.read_names(alloc, &mut meter)?;
/// let answer = look_up_again(alloc, &indexed, b"notes", &mut content, Host::Little, Order::GlobsFirst)?;
/// // the same answer as that of look_up
/// ```
pub fn look_up_again<'a, R: Content>(
    alloc: Global,
    indexed: &IndexedCache<'a>,
    name: &[u8],
    content: &mut Option<R>,
    host: Host,
    order: Order,
) -> Result<Answer<'a>, Stopped>
    // Where enough of a database stands, an answer is the type that the order gives to the name and the content.
    ensures answers { IfOk result
        (λ answer. AnswersLookUp R.remaining indexed.now name.now content.old host order answer.kind.now) }
    // Why it stops: over a cache that spells a database and is packed, only for a read or for memory.
    ensures stops { StopsLookUp indexed.now name.now order content.old content.new result }
    // What it reads: no more than magic can look at, and nothing where the globs suffice.
    ensures reads { ReadsLookUp R.remaining R.tally R.health indexed.now name.now order content.old content.new
        (read_in result) (cause_in result) }
    // What it costs: whatever the bytes are, it keeps to bounds by the lengths of the name and of the cache.
    ensures costs { CostsLookUp indexed.now name.now order content.old (read_in result) (meter_in result) (cause_in result) }
    // All of it in one: bounds over any bytes, and the right type over a cache that was written.
    ensures headline { IsHeadline R.remaining R.tally indexed.now name.now content.old content.new host order result }
{
    let mut read = 0;
    let mut meter = Meter::new();
    if name.len() > LONGEST_NAME {
        let cause = Cause::NameTooLong;
        return Err(Stopped { cause, read, meter });
    }
    meter.add_node();
    let question = Question { name, host, order };
    match find_opened(alloc, indexed, &question, content, &mut read, &mut meter) {
        Ok(kind) => Ok(Answer { kind, read, meter }),
        Err(cause) => Err(Stopped { cause, read, meter }),
    }
}
