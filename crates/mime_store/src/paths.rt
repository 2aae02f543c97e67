//! The paths of endings.
//!
//! A path is copied from the last byte of the pattern to the first: its first eight bytes into the ending itself, where they are
//! compared as one number, and those after them, which most paths don't have, into a vector, which the library compares.

ghost use Rattle.std.specs.Prelude.{◌≡◌, ◌<◌, ℕ, true, drop, length, slice_index, IfOk};
ghost use Rattle.std.specs.Cmp.Lexicographic.{slice_cmp};
ghost use Rattle.std.specs.Ordering.{nat_cmp};
ghost use Rattle.mime_base.specs.Format.Stored.{reversed_ending};
ghost use Rattle.mime_base.specs.Names.{is_pattern};
ghost use Rattle.mime_store.specs.Fronts.{front};
ghost use Rattle.mime_store.specs.SuffixTree.{ending_path, ending_rule};

use crate::ending::Ending;
use crate::rules::compared;
use byteorder::{BigEndian, ByteOrder};
use mime_base::{GlobRule, OutOfMemory, as_compared};
use std::alloc::Global;
use std::cmp::Ordering;

/// How many bytes of a path are held in the ending itself.
const FRONT: usize = 8;

impl<'a> Ending<'a> {
    /// The ending of a rule.
    pub fn new(alloc: Global, rule: &'a GlobRule) -> Result<Ending<'a>, OutOfMemory>
        // It is that of this rule.
        ensures { IfOk result (λ ending. ending_rule ending ≡ rule.now) }
    {
        let start = start_of(rule);
        let rest = rest_of(alloc, rule)?;
        Ok(Ending { start, rest, rule })
    }

    /// How many bytes its path has.
    #[inline]
    pub fn length(&self) -> usize
        // It is the length of the path.
        ensures length { result ≡ length (ending_path self.now) }
        // That is below 256.
        ensures few { result < 256 }
    {
        path_length(self.rule)
    }

    /// The byte of its path at a depth.
    #[inline]
    pub fn byte(&self, depth: usize) -> u8
        // The path goes as deep.
        requires { depth < length (ending_path self.now) }
        // It is the path's byte there.
        ensures { result ≡ slice_index (ending_path self.now) depth }
    {
        if depth < FRONT {
            self.start[depth]
        } else {
            self.rest[depth - FRONT]
        }
    }

    /// The order of two paths, by their first eight bytes at once, and by those that follow where these are equal.
    #[inline]
    pub fn compare(&self, other: &Ending<'_>) -> Ordering
        // It is the order of the paths, byte by byte.
        ensures { result ≡ slice_cmp nat_cmp (ending_path self.now) (ending_path other.now) }
    {
        let start = BigEndian::read_u64(&self.start);
        let others = BigEndian::read_u64(&other.start);
        if start != others {
            return start.cmp(&others);
        }
        self.rest.as_slice().cmp(&other.rest.as_slice())
    }
}

/// How many bytes the path of a rule has.
#[inline]
#[tactic(auto, using(crate::proofs::RulesLemmas::Texts::some_pattern))]
fn path_length(rule: &GlobRule) -> usize
    ensures length { result ≡ length (reversed_ending rule.now) }
    ensures limits { is_pattern rule.now.pattern ≡ true }
{
    rule.pattern.bytes().len() - 1
}

/// The byte of a rule's path at a depth.
#[inline]
#[tactic(auto, using(crate::proofs::RulesLemmas::Texts::some_pattern))]
fn path_byte(rule: &GlobRule, depth: usize) -> u8
    requires { depth < length (reversed_ending rule.now) }
    ensures { result ≡ slice_index (reversed_ending rule.now) depth }
{
    let pattern = rule.pattern.bytes();
    as_compared(rule.cased, pattern[pattern.len() - 1 - depth])
}

/// The first eight bytes of a rule's path, with zeros for those that it lacks.
fn start_of(rule: &GlobRule) -> [u8; FRONT]
    ensures start { result ≡ front 8 (reversed_ending rule.now) }
    ensures limits { is_pattern rule.now.pattern ≡ true }
    ensures bytes { (k : ℕ) → slice_index (front 8 (reversed_ending rule.now)) k < 256 }
{
    let mut bytes = [0; FRONT];
    let room = path_length(rule).min(FRONT);
    for depth in 0..room {
        bytes[depth] = path_byte(rule, depth);
    }
    bytes
}

/// A copy of the bytes of a rule's path after its first eight.
fn rest_of(alloc: Global, rule: &GlobRule) -> Result<Vec<u8>, OutOfMemory>
    ensures { IfOk result (λ rest. rest.items ≡ drop 8 (reversed_ending rule.now)) }
{
    if path_length(rule) <= FRONT {
        return Ok(Vec::new(alloc));
    }
    let pattern = rule.pattern.bytes();
    let mut rest = compared(alloc, rule.cased, &pattern[1..pattern.len() - FRONT])?;
    rest.reverse();
    Ok(rest)
}
