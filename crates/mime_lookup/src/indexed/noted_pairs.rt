//! A content, and where pairs of bytes stand near its front.
//!
//! A value of two bytes and more is sought at the offsets of a range only if its pairs may stand there: of each pair it
//! is noted once where it stands first, by a number that few other pairs have.

ghost use Rattle.std.specs.Prelude.{◌≡◌, ℕ, ◌+◌, ◌*◌, ◌<◌, ◌≤◌, length, slice_index, true, false};
ghost use Rattle.mime_lookup.specs.Pairs.{LacksNumber, NotesPairs};

use std::marker::Model;

/// The pairs at that many places are noted: most ranges end before.
pub const FRONT: usize = 288;

/// How many numbers pairs have.
pub const NUMBERS: usize = 2296;

/// What is noted of a number that no pair in the front has.
pub const NOWHERE: u8 = 255;

/// What is noted of the places from this one on.
const LAST: usize = 254;

/// A content, with the places at which pairs of bytes first stand near its front.
#[derive(Drop)]
pub struct NotedPairs<'c> {
    /// All bytes of the content.
    bytes: &'c [u8],
    /// Of each number a place before which no pair that has it stands in the front.
    places: &'c [u8; NUMBERS],
}

impl<'c> Model for NotedPairs<'c> {
    ghost use Rattle.std.specs.Prelude.{ℕ, ◌<◌, List, slice_index};
    ghost use Rattle.mime_lookup.specs.Pairs.{NotesPairs};

    ghost Value = { List ℕ };

    ghost view = { λ noted. noted.bytes.now };

    ghost invariant = { λ noted. NotesPairs 0 noted.places.now noted.bytes.now
        × ((place : ℕ) → slice_index noted.bytes.now place < 256) };
}

/// The number of a pair.
#[inline(always)]
pub fn pair_number(first: u8, second: u8) -> usize
    // Few other pairs have it.
    ensures number { result ≡ first * 8 + second }
    // It is less than so many.
    ensures inside { result < 2296 }
{
    usize::from(first) * 8 + usize::from(second)
}

/// Notes where each pair in the front of some bytes first stands.
// The places are the caller's, so that they are not moved.
#[inline(always)]
pub fn note_pairs(bytes: &[u8], places: &mut [u8; NUMBERS])
    // Where a pair stands, a place is noted under its number that is no later.
    ensures { NotesPairs 0 places.new bytes.now }
{
    let mut place = note_far(bytes, places);
    while place > 0 {
        place -= 1;
        places[pair_number(bytes[place], bytes[place + 1])] = place as u8;
    }
}

/// Notes the pairs at the last places of the front, and returns where they begin.
#[inline(always)]
fn note_far(bytes: &[u8], places: &mut [u8; NUMBERS]) -> usize
    ensures place { result ≤ 254 }
    ensures inside { 0 < result → result < length bytes.now }
    ensures notes { NotesPairs result places.new bytes.now }
{
    let mut place = bytes.len().saturating_sub(1).min(FRONT);
    while place > LAST {
        place -= 1;
        places[pair_number(bytes[place], bytes[place + 1])] = LAST as u8;
    }
    place
}

impl<'c> NotedPairs<'c> {
    /// The content of these bytes, of which the pairs were noted.
    #[inline(always)]
    pub fn new(bytes: &'c [u8], places: &'c [u8; NUMBERS]) -> NotedPairs<'c>
        // They were noted.
        requires { NotesPairs 0 places.now bytes.now }
        // It has just these bytes.
        ensures { result ≡ bytes.now }
    {
        NotedPairs { bytes, places }
    }

    /// All of its bytes.
    #[inline(always)]
    pub fn bytes(&self) -> &'c [u8]
        // They are just the content's.
        ensures same { result.now ≡ self.now }
        // Each is less than 256.
        ensures bytes { (place : ℕ) → slice_index result.now place < 256 }
    {
        self.bytes
    }

    /// Whether a pair with this number may stand near the front; so may one with a number that no pair has.
    #[inline(always)]
    pub fn may_have(&self, number: u16) -> bool
        // Where it says not, none does.
        ensures lacks { result ≡ false → (number < 2296) × LacksNumber number self.now }
        // Each byte of the content is less than 256.
        ensures bytes { (place : ℕ) → slice_index self.now place < 256 }
    {
        let number = usize::from(number);
        number >= NUMBERS || self.places[number] != NOWHERE
    }

    /// Whether a pair of bytes stands at no place before `end`, as far as that is noted.
    #[inline(always)]
    pub fn lacks(&self, first: u8, second: u8, end: usize) -> bool
        // Then the pair stands at none of these places.
        ensures { result ≡ true → (place : ℕ) → place < end → place + 1 < length self.now
            → slice_index self.now place ≡ first → slice_index self.now (place + 1) ≡ second → ⊥ }
    {
        let noted = self.places[pair_number(first, second)];
        end <= FRONT && (noted == NOWHERE || end <= usize::from(noted))
    }
}
