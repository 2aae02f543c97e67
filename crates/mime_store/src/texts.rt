//! The order of texts.

ghost use Rattle.std.specs.Prelude.{◌≡◌};
ghost use Rattle.std.specs.Cmp.Lexicographic.{slice_cmp};
ghost use Rattle.std.specs.Ordering.{nat_cmp};

use byteorder::{BigEndian, ByteOrder};
use std::cmp::Ordering;

/// How many bytes are compared eight at a time.
const FRONT: usize = 24;

/// The order of two texts. The first 24 bytes are compared eight at a time, as numbers with the first byte as the highest: most types
/// that share a front differ there. The library compares what is left.
pub fn compare_texts(left: &[u8], right: &[u8]) -> Ordering
    // It is the order of the texts, byte by byte.
    ensures { result ≡ slice_cmp nat_cmp left.now right.now }
{
    let both = left.len().min(right.len());
    let room = both.min(FRONT);
    let mut at = 0;
    while 8 <= room - at {
        let word = BigEndian::read_u64(&left[at..]);
        let other = BigEndian::read_u64(&right[at..]);
        if word != other {
            return word.cmp(&other);
        }
        at += 8;
    }
    left[at..].cmp(&right[at..])
}
