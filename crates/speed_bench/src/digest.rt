//! One number for many bytes: the same for the same bytes in the same order, whatever pieces they come in.

use byteorder::{ByteOrder, LittleEndian};
use std::io;
use std::io::Write;

/// A digest of the bytes so far, eight at a time: mixed as by SplitMix64.
#[derive(Clone, Copy)]
pub struct Digest {
    mixed: u64,
    /// Bytes that are not eight yet, the first lowest, and how many they are.
    waiting: u64,
    count: u32,
}

impl Digest {
    pub fn new() -> Digest {
        Digest {
            mixed: 0,
            waiting: 0,
            count: 0,
        }
    }

    /// Adds bytes.
    pub fn add(&mut self, bytes: &[u8]) {
        let lead = self.missing().min(bytes.len());
        let (front, rest) = bytes.split_at(lead);
        for byte in front {
            self.add_byte(*byte);
        }
        let (words, end) = rest.split_at(rest.len() / 8 * 8);
        self.add_words(words);
        for byte in end {
            self.add_byte(*byte);
        }
    }

    // How many bytes the waiting ones are short of eight, where some wait.
    fn missing(&self) -> usize {
        match self.count {
            0 => 0,
            count => 8usize.saturating_sub(count as usize),
        }
    }

    // Adds whole words, where no byte waits.
    fn add_words(&mut self, words: &[u8]) {
        for word in words.chunks_exact(8) {
            self.mix(LittleEndian::read_u64(word));
        }
    }

    /// Adds a number.
    pub fn add_number(&mut self, number: u64) {
        self.mix(number);
    }

    fn add_byte(&mut self, byte: u8) {
        self.waiting = self.waiting | u64::from(byte).wrapping_shl(self.count.wrapping_mul(8));
        if self.count >= 7 {
            self.mix(self.waiting);
            self.waiting = 0;
            self.count = 0;
        } else {
            self.count += 1;
        }
    }

    fn mix(&mut self, word: u64) {
        let mixed = (self.mixed ^ word).wrapping_mul(0xBF58_476D_1CE4_E5B9);
        self.mixed = mixed ^ (mixed >> 29);
    }

    /// The number.
    pub fn value(&self) -> u64 {
        let mut whole = *self;
        whole.mix(self.waiting ^ u64::from(self.count));
        whole.mix(0);
        whole.mixed
    }
}

impl Write for Digest {
    fn write(&mut self, bytes: &[u8]) -> io::Result<usize> {
        self.add(bytes);
        Ok(bytes.len())
    }

    fn flush(&mut self) -> io::Result<()> {
        Ok(())
    }
}
