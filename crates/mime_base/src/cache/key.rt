//! A key that many texts of a cache are compared with.
//!
//! A search compares one key with the texts of many records. So the key's first bytes are laid ready once, in a
//! vector's width, with zeros for those that a short key lacks: a zero ends the agreement with any text, since a
//! text's own zero does.

ghost use Rattle.std.specs.Prelude.{◌≡◌, ◌⊎◌, ◌+◌, ◌<◌, ◌≤◌, length, take, IfNone, IfSome, Ok};
ghost use Rattle.std.specs.Ordering.{nat_cmp};
ghost use Rattle.std.specs.Cmp.Lexicographic.{slice_cmp};
ghost use Rattle.mime_base.specs.Meter.{CountsBytes};
ghost use Rattle.mime_base.specs.Cache.Texts.{before_zero, shared};

use crate::cache::byte_fault::ByteFault;
use crate::cache::comparing::{order_at_stop, shared_of_sixteen};
use crate::meter::Meter;
use std::cmp::Ordering;
use std::marker::Model;

/// How many bytes of a key are compared at once.
const FRONT: usize = 16;

/// A key that is sought among texts of a cache: its first bytes lie ready to be compared at once. This project's own.
#[derive(Drop)]
pub struct Key<'k> {
    /// All of its bytes.
    bytes: &'k [u8],
    /// The first sixteen, with zeros for those that it lacks.
    front: [u8; FRONT],
}

impl<'k> Model for Key<'k> {
    ghost use Rattle.std.specs.Prelude.{◌≡◌, ℕ, List};
    ghost use Rattle.mime_base.specs.Cache.Texts.{padded};

    ghost Value = { List ℕ };

    ghost view = { λ key. key.bytes.now };

    ghost invariant = { λ key. key.front ≡ padded 16 key.bytes.now };
}

impl<'k> Key<'k> {
    /// A key of these bytes.
    // Always inlined, as the search for it is.
    #[inline(always)]
    pub fn new(bytes: &'k [u8]) -> Key<'k>
        // The key has just these bytes.
        ensures { result ≡ bytes.now }
    {
        let mut front = [0; FRONT];
        if bytes.len() < FRONT {
            front[..bytes.len()].copy_from_slice(bytes);
        } else {
            // Of a size that the compiler knows, so that the copy is no call.
            front.copy_from_slice(&bytes[..FRONT]);
        }
        Key { bytes, front }
    }

    /// All of its bytes.
    #[inline(always)]
    pub(super) fn bytes(&self) -> &'k [u8]
        // They are just the key's.
        ensures { result.now ≡ self.now }
    {
        self.bytes
    }

    /// Where the text at the front of these bytes and the key stop to be equal, if that is among the first sixteen.
    #[inline(always)]
    pub(super) fn early_stop(&self, rest: &[u8]) -> Option<usize>
        // A place that is given is where text and key stop to agree, among the first sixteen bytes.
        ensures place { IfSome result (λ place. (place ≡ shared (take 256 rest.now) self.now)
            × (place < length (take 256 rest.now)) × (place < 16)) }
        // None is given only where fewer bytes are there, or all sixteen agree.
        ensures none { IfNone result ((length rest.now < 16) ⊎ (16 ≤ shared (take 256 rest.now) self.now)) }
    {
        if rest.len() < FRONT {
            return None;
        }
        // Most texts differ from a key at once.
        if rest[0] != self.front[0] {
            return Some(0);
        }
        let place = shared_of_sixteen(rest, &self.front);
        if place == FRONT {
            return None;
        }
        Some(place)
    }

    /// How a text compares with the key where `place` of their first bytes are equal, and those at it
    /// decide. It adds as many bytes, and one.
    #[inline(always)]
    pub(super) fn order_at(
        &self,
        rest: &[u8],
        place: usize,
        meter: &mut Meter,
    ) -> Result<Ordering, ByteFault>
        // The place is where text and key stop to agree.
        requires place { place ≡ shared (take 256 rest.now) self.now }
        // It is the place of a byte.
        requires inside { place < length (take 256 rest.now) }
        // It is among the first sixteen.
        requires early { place < 16 }
        // The answer is the order of the text against the key.
        ensures order { result ≡ Ok (slice_cmp nat_cmp (before_zero (take 256 rest.now)) self.now) }
        // It counts the bytes that agree, and the one that stops them.
        ensures counts { CountsBytes (place + 1) meter.old meter.new }
    {
        let (byte, other) = (rest[place], self.front[place]);
        if byte == other {
            return order_at_stop(rest, self.bytes, place, meter);
        }
        meter.add_bytes(place as u64 + 1);
        Ok(byte.cmp(&other))
    }
}
