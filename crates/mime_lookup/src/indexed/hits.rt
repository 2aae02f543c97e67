//! The rules that match a name, over an index ("Recommended checking order").

ghost use Rattle.std.specs.Prelude.{◌≡◌, ◌<◌, ◌≤◌, length, IfErr, IfOk};
ghost use Rattle.mime_lookup.specs.IndexBytes.{hits_bytes};
ghost use Rattle.mime_lookup.specs.IndexNodes.{all_nodes};
ghost use Rattle.mime_lookup.specs.LookUps.{name_too_long};
ghost use Rattle.mime_view.specs.RuleHits.{AreRuleHits};

use crate::hits::hits_of;
use crate::indexed::IndexedDatabase;
use crate::limits::LONGEST_NAME;
use crate::stopped::{Cause, Stopped};
use mime_base::{Meter, OutOfMemory};
use mime_view::RuleHits;
use std::alloc::Global;

/// All rules of a database that match a name, by falling rank, how many of these are kept, and what was looked at, over an index
/// ("Recommended checking order").
///
/// Each has its type as the database has it: no alias is resolved. Those of one rank are in their order. A name of more than
/// 4,096 bytes is [`Cause::NameTooLong`], before anything else. The meter counts each step in the index as a node: at most three
/// for each byte of the name, six, and one for each rule near it. As bytes it counts what matching compares: no more than the name's
/// length, the longest pattern and the rules near the name allow.
pub fn hits_indexed<'a>(
    alloc: Global,
    index: &IndexedDatabase<'a>,
    name: &[u8],
) -> Result<(RuleHits<'a>, Meter), Stopped>
    // They are all rules that match, and as many are kept as the definition says.
    ensures answer { IfOk result (λ found. AreRuleHits name.now index.now.rules.items found.0) }
    // A name of more than 4,096 bytes is too long, before anything else.
    ensures too_long { 4096 < length name.now → result ≡ name_too_long }
    // For another name it stops only for memory.
    ensures otherwise { length name.now ≤ 4096 → IfErr result (λ stopped. stopped.cause ≡ Cause.OutOfMemory) }
    // No more nodes are counted than the name's length and the rules near it allow, and no record of a cache is visited.
    ensures nodes { IfOk result (λ found. found.1.nodes ≤ all_nodes index.now.rules.items name.now) }
    // No more bytes are compared than the name's length, the longest pattern and the rules near the name allow.
    ensures bytes { IfOk result (λ found. found.1.bytes ≤ hits_bytes index.now.rules.items name.now) }
{
    let mut meter = Meter::new();
    if name.len() > LONGEST_NAME {
        let cause = Cause::NameTooLong;
        return Err(Stopped {
            cause,
            read: 0,
            meter,
        });
    }
    match hits_of(alloc, &index.names, name, &mut meter) {
        Ok(hits) => Ok((hits, meter)),
        Err(OutOfMemory) => Err(Stopped {
            cause: Cause::OutOfMemory,
            read: 0,
            meter,
        }),
    }
}
