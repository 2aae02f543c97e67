//! Many texts in one piece of memory.

use crate::random::Random;
use std::alloc::{AllocError, Global};

/// Each second byte of a word.
const HALF: u64 = 0x00FF_00FF_00FF_00FF;

/// Texts, in the order in which they came.
#[derive(Drop)]
pub struct Texts {
    bytes: Vec<u8>,
    ends: Vec<usize>,
}

impl Texts {
    pub fn new(alloc: Global) -> Texts {
        Texts {
            bytes: Vec::new(alloc),
            ends: Vec::new(alloc),
        }
    }

    /// Adds a text of these parts.
    pub fn add(&mut self, parts: &[&[u8]]) -> Result<(), AllocError> {
        for part in parts {
            self.bytes.extend_from_slice(part)?;
        }
        self.ends.push(self.bytes.len())?;
        Ok(())
    }

    /// How many there are.
    pub fn count(&self) -> usize {
        self.ends.len()
    }

    /// The text at a place, or an empty one.
    pub fn at(&self, place: usize) -> &[u8] {
        let start = match place {
            0 => 0,
            _ => self.end_at(place - 1),
        };
        self.bytes
            .as_slice()
            .get(start..self.end_at(place))
            .unwrap_or(&[])
    }

    fn end_at(&self, place: usize) -> usize {
        self.ends.as_slice().get(place).copied().unwrap_or(0)
    }

    /// One of them, each as likely.
    pub fn any(&self, random: &mut Random) -> &[u8] {
        self.at(random.below(self.count()))
    }

    /// One of them, the first ones more often.
    pub fn common(&self, random: &mut Random) -> &[u8] {
        self.at(random.few(self.count()))
    }
}

/// Adds that many letters.
pub fn add_letters(
    text: &mut Vec<u8>,
    random: &mut Random,
    count: usize,
) -> Result<(), AllocError> {
    for _ in 0..count / 8 {
        text.extend_from_slice(&eight_letters(random.next()))?;
    }
    let letters = eight_letters(random.next());
    text.extend_from_slice(&letters[..count % 8])
}

// Eight letters, each by a byte of a number: of four bytes at once 26 of 256 are taken.
fn eight_letters(number: u64) -> [u8; 8] {
    let low = ((number & HALF).wrapping_mul(26) >> 8) & HALF;
    let high = (((number >> 8) & HALF).wrapping_mul(26) >> 8) & HALF;
    (low | (high << 8))
        .wrapping_add(0x6161_6161_6161_6161)
        .to_le_bytes()
}

/// Adds a number below a million in decimal digits.
pub fn add_number(text: &mut Vec<u8>, number: usize) -> Result<(), AllocError> {
    for power in &[100_000, 10_000, 1_000, 100, 10] {
        if number >= *power {
            text.push(digit_of(number / *power))?;
        }
    }
    text.push(digit_of(number))?;
    Ok(())
}

/// The last digit of a number.
pub fn digit_of(number: usize) -> u8 {
    b'0' + (number % 10) as u8
}
