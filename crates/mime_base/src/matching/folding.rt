//! Folding: rules without the flag for case take the capitals of ASCII for small letters.
//!
//! That a pattern is tried without regard to case is the public specification's ("Recommended
//! checking order"); that only A to Z are folded, byte by byte, is this project's own.

ghost use Rattle.std.specs.Prelude.{◌≡◌, ◌≤◌, IfOk, length, map};
ghost use Rattle.std.specs.List.{common_prefix_len};
ghost use Rattle.mime_base.specs.Matching.Folding.{agrees, compared_byte, folded};

use crate::memory::OutOfMemory;
use std::alloc::Global;

/// A copy in which each of `A` to `Z` is its small letter, and every other byte as it was.
// Always inlined: a small loop, so that the copy is not moved.
#[inline(always)]
pub fn fold(alloc: Global, bytes: &[u8]) -> Result<Vec<u8>, OutOfMemory>
    // The copy is as long, and only the capitals of ASCII are changed.
    ensures { IfOk result (λ text. text.items ≡ map folded bytes.now) }
{
    let mut text = Vec::with_capacity(alloc, bytes.len())?;
    for byte in bytes {
        text.push(fold_byte(*byte))?;
    }
    Ok(text)
}

/// The byte, or the small letter of a capital.
#[inline]
pub fn fold_byte(byte: u8) -> u8
    // The capitals of ASCII become small letters, and every other byte stays.
    ensures { result ≡ folded byte }
{
    if b'A' <= byte && byte <= b'Z' {
        byte + 32
    } else {
        byte
    }
}

/// What is compared of a byte.
#[inline]
pub fn as_compared(cased: bool, byte: u8) -> u8
    // A case-sensitive rule compares the byte as it is, any other folds it.
    ensures { result ≡ compared_byte cased byte }
{
    if cased { byte } else { fold_byte(byte) }
}

/// How many bytes from the front of two texts are compared as equal.
#[inline]
pub fn common_compared(cased: bool, left: &[u8], right: &[u8]) -> usize
    // The two texts are equally long.
    requires { length left.now ≡ length right.now }
    // It is the length of the front on which the texts agree, as they are or folded.
    ensures common { result ≡ common_prefix_len (λ x y. agrees cased (x, y)) left.now right.now }
    // It is no more than their length.
    ensures within { result ≤ length left.now }
{
    for i in 0..left.len() {
        if as_compared(cased, left[i]) != as_compared(cased, right[i]) {
            return i;
        }
    }
    left.len()
}
