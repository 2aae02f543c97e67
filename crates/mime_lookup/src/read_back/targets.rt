//! What the aliases of a cache point to.

ghost use Rattle.std.specs.Prelude.{◌≡◌, ◌<◌, get_or, length, IfOk};
ghost use Rattle.mime_load.specs.Lent.{plain_pairs};
ghost use Rattle.mime_lookup.specs.NameMap.{IsNameMap};
ghost use Rattle.mime_lookup.specs.Named.{AreNamed};
ghost use Rattle.mime_lookup.specs.ReadBack.{AreTargets, target_in};

use crate::name_map::{NameMap, new_map, put_value, value_of};
use mime_base::OutOfMemory;
use mime_load::LentPair;
use std::alloc::Global;

/// The target of each alias, of several pairs of an alias that of the first.
pub fn targets_of<'a>(
    alloc: Global,
    aliases: &[LentPair<'a>],
) -> Result<NameMap<'a, &'a [u8]>, OutOfMemory>
    // Their names are found.
    ensures valid { IfOk result IsNameMap }
    // Each type goes one alias step by them.
    ensures are { IfOk result (AreTargets (plain_pairs aliases.now)) }
{
    let targets = targets_by_name(alloc, aliases)?;
    Ok(targets)
}

/// The target of each name, of several pairs of a name that of the first.
pub fn targets_by_name<'a>(
    alloc: Global,
    pairs: &[LentPair<'a>],
) -> Result<NameMap<'a, &'a [u8]>, OutOfMemory>
    // Their names are found.
    ensures valid { IfOk result IsNameMap }
    // Each name has the target that the pairs give it.
    ensures named { IfOk result (AreNamed (plain_pairs pairs.now)) }
{
    let mut targets = new_map(alloc, pairs.len())?;
    let mut place = pairs.len();
    while place > 0 {
        place -= 1;
        let pair = pair_at(pairs, place);
        put_value(&mut targets, pair.name, pair.target)?;
    }
    Ok(targets)
}

/// The pair at a place.
pub fn pair_at<'b, 'a>(pairs: &'b [LentPair<'a>], place: usize) -> &'b LentPair<'a>
    // It is one of them.
    requires { place < length pairs.now }
    // It is the one that is there.
    ensures { result.now ≡ get_or pairs.now place result.now }
{
    &pairs[place]
}

/// A type after one alias step.
pub fn target_of<'k, 'a: 'k>(targets: &NameMap<'a, &'a [u8]>, kind: &'k [u8]) -> &'k [u8]
    // The names of the targets are found.
    requires { IsNameMap targets.now }
    // It is the target that there is for it, or the type itself.
    ensures { result.now ≡ target_in targets.now kind.entry.now }
{
    match value_of(targets, kind) {
        Some(target) => target,
        None => kind,
    }
}
