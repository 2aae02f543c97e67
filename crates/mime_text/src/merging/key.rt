//! What tells the entries of a list apart.

ghost use Rattle.std.specs.Prelude.{◌≡◌, ℕ, [], List};

use mime_base::{Icon, Pair};

/// By which bytes entries are the same.
pub trait Key<T> {
    /// The key of an entry: one text and an empty one, or two texts.
    ghost key_of: { T → List ℕ × List ℕ };

    /// The key of an entry.
    fn of(entry: &T) -> (&[u8], &[u8])
        // Entries of equal keys count as the same.
        ensures { (result.0.now, result.1.now) ≡ key_of entry.now };
}

/// The alias of an alias pair, or the type of an icon.
pub struct ByName;

/// Both types of a subclass pair.
pub struct ByPair;

impl Key<Pair> for ByName {
    ghost key_of = { λ pair. (pair.name, []) };

    fn of(pair: &Pair) -> (&[u8], &[u8]) {
        (pair.name.bytes(), &[])
    }
}

impl Key<Icon> for ByName {
    ghost key_of = { λ icon. (icon.kind, []) };

    fn of(icon: &Icon) -> (&[u8], &[u8]) {
        (icon.kind.bytes(), &[])
    }
}

impl Key<Pair> for ByPair {
    ghost key_of = { λ pair. (pair.name, pair.target) };

    fn of(pair: &Pair) -> (&[u8], &[u8]) {
        (pair.name.bytes(), pair.target.bytes())
    }
}
