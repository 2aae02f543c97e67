//! Contents of files, of the lengths and kinds of real ones.

use crate::database::Made;
use crate::random::Random;
use crate::texts::add_letters;
use std::alloc::{AllocError, Global};

/// How long a content is, by tenths.
const LENGTHS: [usize; 10] = [
    120, 430, 800, 1_200, 1_700, 2_300, 3_100, 4_600, 8_000, 20_000,
];

/// How many bytes of each kind are at hand.
const POOL: usize = 65_536;

/// What some texts begin with.
const FRONTS: [&[u8]; 8] = [
    b"#!/bin/sh\n",
    b"<?xml version=\"1.0\"?>\n",
    b"/* ",
    b"# ",
    b"{\n",
    b"<html>",
    b"%!",
    b"[main]\n",
];

/// What a zip file begins with, up to the name of its first member.
const ZIP: &[u8; 30] =
    b"PK\x03\x04\x14\0\0\0\x08\0\x21\x5a\x21\x58\x6f\x61\xab\x2c\x1c\x01\0\0\x39\x02\0\0\x13\0\0\0";

/// Bytes that contents are cut from.
#[derive(Drop)]
pub struct Pools {
    text: Vec<u8>,
    noise: Vec<u8>,
}

impl Pools {
    pub fn new(alloc: Global, random: &mut Random) -> Result<Box<Pools>, AllocError> {
        let mut text = Vec::new(alloc);
        for _ in 0..POOL / 6 {
            let length = random.among(&[1, 2, 3, 4, 5, 6, 8, 10]);
            add_letters(&mut text, random, length.max(1))?;
            text.push(if random.chance(12) { b'\n' } else { b' ' })?;
        }
        let mut noise = Vec::new(alloc);
        for _ in 0..POOL {
            noise.push((random.next() % 256) as u8)?;
        }
        Ok(Box::new(alloc, Pools { text, noise })?)
    }

    /// A content: 40 of 100 are text, 15 are nothing that magic knows, and the others begin as magic has it.
    pub fn make(
        &self,
        alloc: Global,
        random: &mut Random,
        made: &Made,
    ) -> Result<Vec<u8>, AllocError> {
        let mut content = Vec::new(alloc);
        let length = random.among(&LENGTHS).saturating_add(random.below(100));
        match random.below(100) {
            0..=39 => {
                if random.chance(40) {
                    let place = random.below(FRONTS.len());
                    content.extend_from_slice(FRONTS.get(place).copied().unwrap_or(b"# "))?;
                }
                add_piece(&mut content, random, &self.text, length)?;
            }
            40..=54 => add_piece(&mut content, random, &self.noise, length)?,
            _ => {
                let front = made.fronts.any(random);
                let (start, value) = front.split_at(front.len().min(2));
                let start = match start {
                    [high, low] => usize::from(*high) * 256 + usize::from(*low),
                    _ => 0,
                };
                add_piece(&mut content, random, &self.noise, start)?;
                content.extend_from_slice(value)?;
                add_piece(&mut content, random, &self.noise, length)?;
            }
        }
        Ok(content)
    }

    /// A content as applications ask for it: of ten one is empty, two are shorter than 128 bytes and two are zip files.
    pub fn make_single(
        &self,
        alloc: Global,
        random: &mut Random,
        made: &Made,
    ) -> Result<Vec<u8>, AllocError> {
        let mut content = Vec::new(alloc);
        match random.below(10) {
            0 => {}
            1 | 2 => {
                let whole = self.make(alloc, random, made)?;
                let length = random.below(128).min(whole.len());
                content.extend_from_slice(&whole[..length])?;
            }
            3 | 4 => {
                content.extend_from_slice(ZIP)?;
                let length = random.among(&LENGTHS);
                add_piece(&mut content, random, &self.noise, length)?;
            }
            _ => content = self.make(alloc, random, made)?,
        }
        Ok(content)
    }

    /// A content that takes as much work as can be: what many values begin with, again and again.
    pub fn make_awkward(&self, alloc: Global, random: &mut Random) -> Result<Vec<u8>, AllocError> {
        let mut content = Vec::new(alloc);
        let (again, count): (&[u8], usize) = match random.below(5) {
            0 => (b"<", 300),
            1 => (b"\n[", 3_000),
            2 => (b"\0", 18_000),
            3 => (b"<!", 2_000),
            _ => (b"PM", 4_000),
        };
        for _ in 0..count {
            content.extend_from_slice(again)?;
        }
        add_piece(&mut content, random, &self.text, 400)?;
        Ok(content)
    }
}

// Adds that many bytes of a pool, from any place on.
fn add_piece(
    content: &mut Vec<u8>,
    random: &mut Random,
    pool: &[u8],
    length: usize,
) -> Result<(), AllocError> {
    let length = length.min(pool.len());
    let start = random.below(pool.len() - length);
    content.extend_from_slice(
        pool.get(start..)
            .unwrap_or(&[])
            .get(..length)
            .unwrap_or(&[]),
    )
}
