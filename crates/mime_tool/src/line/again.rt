//! How a FILE is looked up in a cache that was opened once for many FILEs.

ghost use Rattle.std.specs.Prelude.{Bool};
ghost use Rattle.mime_tool.specs.Files.{Stored};
ghost use Rattle.mime_tool.specs.LineSteps.{IsContent, LooksUpFile};
ghost use Rattle.mime_tool.specs.Types.{lookup_by};

use super::Outcome;
use super::lookup::{cost_of, name_for};
use crate::cache::faulty;
use crate::stop::Stop;
use mime_base::Host;
use mime_lookup::{Cause, Content, IndexedCache, Order, look_up_again};
use mime_request::Output;
use std::alloc::Global;

/// What a file comes to by a cache, as without what was read back of it.
pub(super) fn find_again<'a, R: Content + Drop>(
    alloc: Global,
    path: &str,
    cache: &IndexedCache<'a>,
    cost: bool,
    order: Order,
    file: &[u8],
    content: &mut Option<R>,
) -> Result<Outcome<'a>, Stop>
    // It is what a lookup of the stored file by a walk of the cache comes to.
    ensures { (stored : Stored) (name_only : Bool) (output : Output) → IsContent R.remaining R.health name_only stored content.old
        → LooksUpFile (lookup_by path.now name_only cost output order cache.now) stored file.now result }
{
    let name = name_for(order, file);
    match look_up_again(alloc, cache, name, content, Host::Little, order) {
        Ok(answer) => Ok(Outcome::Typed(answer.kind, cost_of(cost, answer.meter, answer.read))),
        Err(stopped) => match stopped.cause {
            Cause::NameTooLong => Ok(Outcome::NameTooLong),
            Cause::Read => Ok(Outcome::CannotRead),
            Cause::Cache(fault) => Err(faulty(alloc, path, fault)),
            Cause::OutOfMemory => Err(Stop::OutOfMemory),
        },
    }
}
