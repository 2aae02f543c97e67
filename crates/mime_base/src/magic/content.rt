//! A content that the values of many lines are sought in.
//!
//! Most values that are sought at the offsets of a range begin with a byte that stands at none of them. So it is noted once
//! where each byte first stands near the front, and such a value is refused by one look, however many offsets the range has.

ghost use Rattle.std.specs.Prelude.{◌≡◌, ℕ, ◌<◌, ◌≤◌, length, slice_index, true};
ghost use Rattle.mime_base.specs.Magic.Places.{NotesFrom};

use std::marker::Model;

/// The bytes of that many places are noted: most ranges end before.
const FRONT: usize = 288;

/// A content, with the places at which its bytes first stand near its front. This project's own.
#[derive(Drop)]
pub struct NotedContent<'c> {
    /// All of its bytes.
    bytes: &'c [u8],
    /// Of each byte a place before which it doesn't stand in the front.
    noted: [u16; 256],
}

impl<'c> Model for NotedContent<'c> {
    ghost use Rattle.std.specs.Prelude.{ℕ, ◌<◌, List, slice_index};
    ghost use Rattle.mime_base.specs.Magic.Places.{NotesFrom};

    ghost Value = { List ℕ };

    ghost view = { λ content. content.bytes.now };

    ghost invariant = { λ content. NotesFrom 0 content.noted content.bytes.now × ((place : ℕ) → slice_index content.bytes.now place < 256) };
}

impl<'c> NotedContent<'c> {
    /// The content of these bytes.
    pub fn new(bytes: &'c [u8]) -> NotedContent<'c>
        // It has just these bytes.
        ensures { result ≡ bytes.now }
    {
        let mut noted = [FRONT as u16; 256];
        let mut place = bytes.len().min(FRONT);
        while place > 0 {
            place -= 1;
            noted[usize::from(bytes[place])] = place as u16;
        }
        NotedContent { bytes, noted }
    }

    /// All of its bytes.
    // A field that is read where it is asked for.
    #[inline(always)]
    pub fn bytes(&self) -> &'c [u8]
        // They are just the content's.
        ensures same { result.now ≡ self.now }
        // Each is less than 256.
        ensures bytes { (place : ℕ) → slice_index result.now place < 256 }
    {
        self.bytes
    }

    /// Whether a byte stands at no place before `end`, as far as that is noted.
    // Two tests of numbers that the caller has at hand.
    #[inline(always)]
    pub fn lacks(&self, byte: u8, end: usize) -> bool
        // Then the byte stands at none of these places.
        ensures { result ≡ true → (place : ℕ) → place < end → place < length self.now → slice_index self.now place ≡ byte → ⊥ }
    {
        end <= FRONT && end <= usize::from(self.noted[usize::from(byte)])
    }
}
