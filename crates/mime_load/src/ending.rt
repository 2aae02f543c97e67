//! An ending of names, which grows to the front on the way down the suffix tree.

ghost use Rattle.std.specs.Prelude.{◌≡◌, ◌+◌, ◌<◌, [], ◌∷◌, length, drop};

use std::marker::Model;

/// How many bytes a pattern has at most: a `*`, and the longest ending.
const LONGEST: usize = 255;

/// An ending of names.
#[derive(Drop)]
pub struct NameEnding {
    /// Room for the longest pattern. The pattern of the ending is at its end.
    bytes: [u8; LONGEST],
    /// Where the pattern begins.
    start: usize,
}

impl Model for NameEnding {
    ghost use Rattle.std.specs.Prelude.{◌≡◌, ℕ, ◌+◌, ◌<◌, List, ◌∷◌, drop};

    ghost Value = { List ℕ };

    ghost view = { λ ending. drop (ending.start + 1) ending.bytes };

    ghost invariant = { λ ending. (ending.start < 255) × (drop ending.start ending.bytes ≡ 42 ∷ drop (ending.start + 1) ending.bytes) };
}

impl NameEnding {
    /// The ending of no bytes.
    pub fn none() -> NameEnding
        // It has no byte.
        ensures { result ≡ [] }
    {
        NameEnding {
            bytes: [b'*'; LONGEST],
            start: LONGEST - 1,
        }
    }

    /// How many bytes it has.
    pub fn length(&self) -> usize
        // It is the number of its bytes.
        ensures { result ≡ length self.now }
    {
        LONGEST - 1 - self.start
    }

    /// Puts a byte before it.
    pub fn grow(&mut self, byte: u8)
        // There is room for one more.
        requires room { length self.old < 254 }
        // The byte stands before the others.
        ensures grown { self.new ≡ byte ∷ self.old }
    {
        put(&mut self.bytes, self.start, byte);
        self.start -= 1;
        put(&mut self.bytes, self.start, b'*');
    }

    /// Takes its first byte away.
    pub fn shrink(&mut self)
        // There is one.
        requires some { 0 < length self.old }
        // The others stay.
        ensures { self.new ≡ drop 1 self.old }
    {
        self.start += 1;
        put(&mut self.bytes, self.start, b'*');
    }

    /// The pattern of the names that end so: a `*`, and the ending.
    pub fn pattern(&self) -> &[u8]
        // It is a `*` and the ending.
        ensures { result.now ≡ 42 ∷ self.now }
    {
        &self.bytes[self.start..]
    }
}

/// Writes a byte at a place.
fn put(bytes: &mut [u8], place: usize, byte: u8)
    requires { place < length bytes.old }
    ensures same { length bytes.new ≡ length bytes.old }
    ensures written { drop place bytes.new ≡ byte ∷ drop (place + 1) bytes.old }
{
    bytes[place] = byte;
}
