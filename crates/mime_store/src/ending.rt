//! The ending of a suffix rule, as the path to its leaf.

ghost use Rattle.std.specs.Prelude.{◌≡◌, ◌<◌, ℕ, true, drop, length, slice_index};
ghost use Rattle.mime_base.specs.Format.Stored.{reversed_ending};
ghost use Rattle.mime_store.specs.Fronts.{front};
ghost use Rattle.mime_store.specs.Texts.{has_no_zero};

use mime_base::GlobRule;

/// A suffix rule, and the path of its ending: its bytes from the last to the first.
#[derive(Drop)]
pub struct Ending<'a> {
    /// The first eight bytes of the path, with zeros for those that it lacks.
    pub start: [u8; 8],
    /// The bytes of the path after these.
    pub rest: Vec<u8>,
    pub rule: &'a GlobRule,
    pub ghost starts: { start ≡ front 8 (reversed_ending rule.now) },
    pub ghost bytes: { (k : ℕ) → slice_index (front 8 (reversed_ending rule.now)) k < 256 },
    pub ghost goes_on: { rest.items ≡ drop 8 (reversed_ending rule.now) },
    pub ghost short: { length (reversed_ending rule.now) < 256 },
    pub ghost no_zero: { has_no_zero (reversed_ending rule.now) ≡ true },
}
