//! A climb from a type towards a base, while each type has one parent ("Subclassing").

ghost use Rattle.std.specs.Prelude.{◌≡◌};
ghost use Rattle.mime_base.specs.Database.Subclass.{Pairs};
ghost use Rattle.mime_lookup.specs.Climbing.{IsClimbed};

use crate::places::Above;
use crate::subclass::is_by_itself;
use mime_base::Meter;

/// How many steps up are made, before types are marked.
const STEPS: u32 = 16;

/// Types of which it is known what is one step above them.
pub trait Hierarchy<'a> {
    ghost use Rattle.mime_base.specs.Database.Subclass.{above};
    ghost use Rattle.mime_lookup.specs.Places.{IsAbove};

    // What has to hold of it.
    ghost holds: { Self → Type 0 };

    // Whether it is that of these pairs.
    ghost is_of: { Self → Pairs → Type 0 };

    /// What is one step above a type.
    fn above(&self, kind: &[u8]) -> Above<'a>
        // What has to hold of it does.
        requires { holds self.now }
        // It says what is above the type by the pairs, unless that is several types.
        ensures { (pairs : Pairs) → is_of self.now pairs → IsAbove (above pairs kind.now) result };
}

/// What a climb from a type to a base finds.
#[derive(Clone, Copy)]
pub enum Climbed<'k> {
    /// Whether the type is the base or a subclass of it.
    Found(bool),
    /// It is if this type is, which has several parents, or lies many steps above it.
    Open(&'k [u8]),
}

/// Climbs from a type towards a base, while each has one parent. It never allocates.
pub fn climb<'k, 'a: 'k, H: Hierarchy<'a>>(
    hierarchy: &H,
    kind: &'k [u8],
    base: &[u8],
    meter: &mut Meter,
) -> Climbed<'k>
    // What has to hold of the hierarchy does.
    requires { H.holds hierarchy.now }
    // It says whether the type is the base or a subclass by the pairs, or that it is if another is.
    ensures climbed { (pairs : Pairs) → H.is_of hierarchy.now pairs → IsClimbed pairs kind.entry.now base.now result }
    // It counts no node.
    ensures nodes { meter.new.nodes ≡ meter.old.nodes }
{
    let mut here = kind;
    for _ in 0..STEPS {
        if is_by_itself(here, base, meter) {
            return Climbed::Found(true);
        }
        match hierarchy.above(here) {
            Above::Nothing => return Climbed::Found(false),
            Above::One(parent) => here = parent,
            Above::Several => break,
        }
    }
    Climbed::Open(here)
}
