//! What is one step above each type of a cache.

ghost use Rattle.std.specs.Prelude.{◌≡◌, ◌∷◌, ℕ, List, map, IfOk};
ghost use Rattle.mime_base.specs.Database.Subclass as above;
ghost use Rattle.mime_load.specs.Lent.{plain_pairs};
ghost use Rattle.mime_lookup.specs.NameMap.{IsNameMap};
ghost use Rattle.mime_lookup.specs.PairsReadBack.{AreSteps, step_in};
ghost use Rattle.mime_lookup.specs.Places.{IsAbove};
ghost use Rattle.mime_lookup.specs.ReadBack.{target_in};

use crate::name_map::{NameMap, new_map, put_value, value_of};
use crate::places::Above;
use crate::read_back::targets::{pair_at, target_of};
use mime_base::OutOfMemory;
use mime_load::LentPair;
use std::alloc::Global;

/// What is one step above each type that has a parent by these pairs, where each parent goes one alias step by the targets.
pub fn steps_of<'a>(
    alloc: Global,
    parents: &[LentPair<'a>],
    targets: &NameMap<'a, &'a [u8]>,
) -> Result<NameMap<'a, Above<'a>>, OutOfMemory>
    // The names of the targets are found.
    requires { IsNameMap targets.now }
    // So are those of the steps.
    ensures valid { IfOk result IsNameMap }
    // Of each type it is the parents that the pairs name, each after one alias step.
    ensures are { IfOk result (AreSteps
        (λ kind. map (target_in targets.now) (above.parents (plain_pairs parents.now) kind))) }
{
    let mut steps = new_map(alloc, parents.len())?;
    let mut place = parents.len();
    while place > 0 {
        place -= 1;
        let pair = pair_at(parents, place);
        let above = with_parent(&steps, pair.name, target_of(targets, pair.target));
        put_value(&mut steps, pair.name, above)?;
    }
    Ok(steps)
}

/// What is above a type that has one parent more.
fn with_parent<'a>(steps: &NameMap<'a, Above<'a>>, kind: &[u8], parent: &'a [u8]) -> Above<'a>
    requires { IsNameMap steps.now }
    ensures { (kinds : List (List ℕ)) → IsAbove kinds (step_in steps.now kind.now)
        → IsAbove (parent.entry.now ∷ kinds) result }
{
    match step_of(steps, kind) {
        Above::Nothing => Above::One(parent),
        Above::One(_) | Above::Several => Above::Several,
    }
}

/// What is one step above a type.
pub fn step_of<'a>(steps: &NameMap<'a, Above<'a>>, kind: &[u8]) -> Above<'a>
    // The names of the steps are found.
    requires { IsNameMap steps.now }
    // It is what there is for it, or nothing.
    ensures { result ≡ step_in steps.now kind.now }
{
    match value_of(steps, kind) {
        Some(above) => above,
        None => Above::Nothing,
    }
}
