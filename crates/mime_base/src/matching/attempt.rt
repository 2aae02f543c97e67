//! How elements go along a name from its front, one byte each.

ghost use Rattle.std.specs.Prelude.{◌≡◌, [], ◌+◌, ◌<◌, ◌≤◌, length, IsTrue};
ghost use Rattle.mime_base.specs.Matching.Attempt.{answer, goes_on_otherwise, Goes, IsShorter, IsStep, last_tests, LeavesNoEnd, LeavesPart};
ghost use Rattle.mime_base.specs.Matching.Elements.{elements, HasNoEnd};
ghost use Rattle.mime_base.specs.Matching.Folding.{compared};

use crate::matching::elements::{after_admitting, begins_otherwise, is_special};
use crate::matching::folding::as_compared;

/// Why elements halt on their way along a name.
#[derive(Clone, Copy)]
pub enum Halt {
    /// Pattern and name end together.
    BothEnd,
    /// The pattern ends before the name.
    PatternEnds,
    /// The name ends before an element that takes a byte.
    NameEnds,
    /// A `*` is next.
    Star,
    /// An element does not admit the next byte.
    Refused,
}

impl Halt {
    /// Whether the name matches, if that is decided.
    pub fn answer(self) -> Option<bool>
        // Only a star leaves it open; else the name matches exactly where it ends with the pattern.
        ensures { result ≡ answer self }
    {
        match self {
            Halt::BothEnd => Some(true),
            Halt::PatternEnds | Halt::NameEnds | Halt::Refused => Some(false),
            Halt::Star => None,
        }
    }

    /// How many tests are made where elements halt.
    fn last_tests(self) -> u64
        ensures { result ≡ last_tests self }
    {
        match self {
            Halt::NameEnds | Halt::Refused => 1,
            Halt::BothEnd | Halt::PatternEnds | Halt::Star => 0,
        }
    }
}

/// How far elements went, and why they went no further.
#[derive(Clone, Copy)]
pub struct Reach<'a> {
    /// Why they went no further.
    pub halt: Halt,
    /// How many bytes of the name they took.
    pub passed: usize,
    /// What stands in the pattern after the star where they halted.
    pub after: &'a [u8],
    /// How many tests were made, of one element against a byte or the end of the name.
    pub tests: u64,
}

/// Lets elements take a byte each from the front of the name.
///
/// None of the last `endless` bytes of the pattern is a `]`.
pub fn attempt<'a>(pattern: &'a [u8], endless: usize, cased: bool, name: &[u8]) -> Reach<'a>
    // None of the last `endless` bytes is a `]`.
    requires { HasNoEnd endless pattern.now }
    // The elements that took a byte, and why the next one didn't.
    ensures goes { Goes result.halt result.passed (elements (compared cased pattern.now))
        (compared cased name.now) (elements (compared cased result.after.now)) }
    // What they leave is a part of the pattern and of the name.
    ensures part { LeavesPart endless pattern.now name.now result }
    // There is a test for each, and one more where an element refused a byte or found the name's end.
    ensures tests { result.tests ≡ result.passed + last_tests result.halt }
    // There are no more tests than the pattern has bytes.
    ensures most { result.tests ≤ length pattern.now }
    // At a star the tests are fewer than the bytes of the pattern that are done with.
    ensures star { result.halt ≡ Halt.Star → result.tests + length result.after.now < length pattern.now }
{
    let mut pattern = pattern;
    let mut name = name;
    let mut passed = 0;
    loop {
        match try_first(pattern, endless, cased, name) {
            Step::Passes(left, rest) => {
                pattern = left;
                name = rest;
                passed += 1;
            }
            Step::Halts(halt, after) => {
                return Reach {
                    halt,
                    passed,
                    after,
                    tests: passed as u64 + halt.last_tests(),
                };
            }
        }
    }
}

/// Whether a pattern's first byte stands for itself and takes a name's, and its second stands for itself and is refused: then
/// an attempt ends with the second test.
// Inlined: the body of a loop.
#[inline]
pub fn refused_second(pattern: &[u8], cased: bool, name: &[u8]) -> bool
    // Then the first element takes a byte, and the next one refuses.
    ensures goes { IsTrue result → Goes Halt.Refused 1 (elements (compared cased pattern.now)) (compared cased name.now) [] }
    // Then the pattern has two bytes.
    ensures some { IsTrue result → 2 ≤ length pattern.now }
    // Exactly then it is refused at its second byte.
    ensures exact { result ≡ goes_on_otherwise cased pattern.now name.now }
{
    let Some((first, after)) = pattern.split_first() else {
        return false;
    };
    let Some((byte, rest)) = name.split_first() else {
        return false;
    };
    if is_special(*first) || as_compared(cased, *first) != as_compared(cased, *byte) {
        return false;
    }
    begins_otherwise(after, cased, rest)
}

/// What comes of the element at the front of a pattern and the byte at the front of a name.
#[derive(Clone, Copy)]
enum Step<'a, 'b> {
    /// The element takes the byte: what is left of the pattern and of the name.
    Passes(&'a [u8], &'b [u8]),
    /// It halts; at a star, what stands after it.
    Halts(Halt, &'a [u8]),
}

fn try_first<'a, 'b>(pattern: &'a [u8], endless: usize, cased: bool, name: &'b [u8]) -> Step<'a, 'b>
    requires { HasNoEnd endless pattern.now }
    ensures step { IsStep cased pattern.now name.now result }
    ensures shorter { IsShorter pattern.now name.now result }
    ensures endless { LeavesNoEnd endless result }
{
    let Some((first, after)) = pattern.split_first() else {
        let halt = if name.is_empty() {
            Halt::BothEnd
        } else {
            Halt::PatternEnds
        };
        return Step::Halts(halt, pattern);
    };
    if *first == b'*' {
        return Step::Halts(Halt::Star, after);
    }
    let Some((byte, rest)) = name.split_first() else {
        return Step::Halts(Halt::NameEnds, after);
    };
    match after_admitting(
        as_compared(cased, *first),
        after,
        endless,
        cased,
        as_compared(cased, *byte),
    ) {
        Some(left) => Step::Passes(left, rest),
        None => Step::Halts(Halt::Refused, after),
    }
}
