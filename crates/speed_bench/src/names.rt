//! Names of files, of the lengths and kinds of real ones.

use crate::database::Made;
use crate::random::Random;
use crate::texts::{add_letters, digit_of};
use std::alloc::AllocError;
use std::io;
use std::io::Read;

/// How long a name is before its ending, by tenths.
const STEM_LENGTHS: [usize; 10] = [4, 6, 8, 10, 12, 15, 18, 22, 29, 42];

/// How often names are of a kind, in 100.
#[derive(Clone, Copy)]
pub struct Kinds {
    /// Those that some rule has.
    pub known: usize,
    /// Those with a capital.
    pub capitals: usize,
    /// Those of some thousand bytes.
    pub long: usize,
}

/// As in a folder.
pub const USUAL: Kinds = Kinds {
    known: 75,
    capitals: 15,
    long: 0,
};

/// As of attachments and downloads: most have no rule.
pub const UNKNOWN: Kinds = Kinds {
    known: 10,
    capitals: 15,
    long: 0,
};

/// As of a camera, and of one who means harm.
pub const AWKWARD: Kinds = Kinds {
    known: 60,
    capitals: 70,
    long: 2,
};

/// Puts another name in the place of `name`.
pub fn make_name(
    random: &mut Random,
    made: &Made,
    kinds: Kinds,
    name: &mut Vec<u8>,
) -> Result<(), AllocError> {
    name.clear();
    if random.chance(kinds.long) {
        let length = random.below(3_900);
        add_letters(name, random, length)?;
    }
    let length = random.among(&STEM_LENGTHS);
    add_letters(name, random, length)?;
    if random.chance(20) {
        let number = random.below(10_000);
        add_four_digits(name, number)?;
    }
    if random.chance(kinds.known) {
        add_known_end(random, made, name)?;
    } else if random.chance(70) {
        name.extend_from_slice(b".qj")?;
        add_letters(name, random, 2)?;
    }
    if random.chance(kinds.capitals) {
        capitalize(random, name);
    }
    Ok(())
}

fn add_four_digits(name: &mut Vec<u8>, number: usize) -> Result<(), AllocError> {
    name.extend_from_slice(&[
        digit_of(number / 1_000),
        digit_of(number / 100),
        digit_of(number / 10),
        digit_of(number),
    ])
}

// Most known names end as some rule has it; a few are a literal.
fn add_known_end(random: &mut Random, made: &Made, name: &mut Vec<u8>) -> Result<(), AllocError> {
    if random.chance(2) {
        name.clear();
        return name.extend_from_slice(made.literals.any(random));
    }
    name.extend_from_slice(made.endings.common(random))
}

// Makes its first letter a capital, or each.
fn capitalize(random: &mut Random, name: &mut Vec<u8>) {
    let count = if random.chance(50) { 1 } else { name.len() };
    for byte in name.iter_mut().take(count) {
        *byte = byte.to_ascii_uppercase();
    }
}

/// A list of names as a file of them gives it, each with a zero byte after it.
#[derive(Drop)]
pub struct NameList<'m> {
    made: &'m Made,
    random: Random,
    kinds: Kinds,
    /// How many are still to come.
    left: u64,
    /// The name that is given, and how much of it was.
    name: Vec<u8>,
    given: usize,
}

impl<'m> NameList<'m> {
    pub fn new(
        made: &'m Made,
        random: Random,
        kinds: Kinds,
        count: u64,
        name: Vec<u8>,
    ) -> NameList<'m> {
        NameList {
            made,
            random,
            kinds,
            left: count,
            given: name.len(),
            name,
        }
    }

    // Puts what is left of the name into a buffer, and says how much that is.
    fn give(&mut self, buffer: &mut [u8]) -> usize {
        let rest = self.name.as_slice().get(self.given..).unwrap_or(&[]);
        let count = rest.len().min(buffer.len());
        buffer[..count].copy_from_slice(&rest[..count]);
        self.given = self.given.saturating_add(count);
        count
    }

    // Makes the next name, and says whether there is one.
    fn go_on(&mut self) -> Result<bool, AllocError> {
        if self.left == 0 {
            return Ok(false);
        }
        self.left -= 1;
        make_name(&mut self.random, self.made, self.kinds, &mut self.name)?;
        self.name.push(0)?;
        self.given = 0;
        Ok(true)
    }
}

impl Read for NameList<'_> {
    fn read(&mut self, buffer: &mut [u8]) -> io::Result<usize> {
        let mut filled: usize = 0;
        for _ in 0..buffer.len().saturating_add(1) {
            let room = buffer.get_mut(filled..).unwrap_or(&mut []);
            let count = self.give(room);
            filled = filled.saturating_add(count);
            if filled >= buffer.len() || (count == 0 && !self.go_on()?) {
                break;
            }
        }
        Ok(filled.min(buffer.len()))
    }
}
