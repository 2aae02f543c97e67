//! The words of the command line, which may be any bytes but zero.

use mime_tool::RawWord;
use std::alloc::{AllocError, Global};
use std::env::{Env, FillError};

/// How long a word may be before its buffer has to grow, in bytes.
const USUAL: usize = 256;

/// The words after the program's name.
#[derive(Drop)]
pub(crate) struct Words {
    /// Each as a text: itself, or what stands in for it.
    pub(crate) texts: Vec<String>,
    /// Those that are no text.
    unread: Vec<Unread>,
}

// A word that is no text, which of them it is, and what stands in for it.
#[derive(Drop)]
struct Unread {
    number: u64,
    stand_in: String,
    bytes: Vec<u8>,
}

impl Words {
    /// Reads them all.
    pub(crate) fn read(env: &impl Env, alloc: Global) -> Result<Words, AllocError> {
        let mut words = Words {
            texts: Vec::new(alloc),
            unread: Vec::new(alloc),
        };
        for number in 1..usize::MAX {
            match word_at(env, alloc, number)? {
                Some(bytes) => words.add(alloc, number, bytes)?,
                None => break,
            }
        }
        Ok(words)
    }

    fn add(&mut self, alloc: Global, number: usize, bytes: Vec<u8>) -> Result<(), AllocError> {
        match String::from_utf8(bytes) {
            Ok(text) => self.texts.push(text)?,
            Err(error) => self.add_unread(alloc, number, error.into_bytes())?,
        }
        Ok(())
    }

    fn add_unread(
        &mut self,
        alloc: Global,
        number: usize,
        bytes: Vec<u8>,
    ) -> Result<(), AllocError> {
        let stand_in = stand_in(alloc, number, bytes.as_slice())?;
        self.texts.push(stand_in.clone()?)?;
        self.unread.push(Unread {
            number: number as u64,
            stand_in,
            bytes,
        })?;
        Ok(())
    }

    /// Those that are no text, with what stands in for them.
    pub(crate) fn raws(&self, alloc: Global) -> Result<Vec<RawWord<'_>>, AllocError> {
        let mut raws = Vec::new(alloc);
        for unread in self.unread.as_slice() {
            raws.push(unread.raw())?;
        }
        Ok(raws)
    }
}

impl Unread {
    fn raw(&self) -> RawWord<'_> {
        RawWord {
            number: self.number,
            stand_in: self.stand_in.as_str(),
            bytes: self.bytes.as_slice(),
        }
    }
}

// A text that no word can be, since it has a zero byte. It is taken for an option where the word is.
fn stand_in(alloc: Global, number: usize, bytes: &[u8]) -> Result<String, AllocError> {
    let hyphen = if bytes.starts_with(b"-") { "-" } else { "" };
    format!(in alloc; "{hyphen}\0{number}")
}

// The word of this number, or `None` after the last.
fn word_at(env: &impl Env, alloc: Global, number: usize) -> Result<Option<Vec<u8>>, AllocError> {
    let mut room = USUAL;
    for _ in 0..usize::BITS {
        let mut bytes = Vec::new(alloc);
        bytes.resize(room, 0u8)?;
        match env.arg(number, bytes.as_mut_slice()) {
            Ok(length) => {
                bytes.truncate(length);
                return Ok(Some(bytes));
            }
            Err(FillError::NotPresent) => return Ok(None),
            Err(FillError::TooLong) => room = room.saturating_mul(2),
        }
    }
    Err(AllocError)
}
