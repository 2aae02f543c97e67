//! A reader and writer that follows a script.

use std::io;
use std::io::{ErrorKind, Read, Write};

/// What calls of a script meet.
#[derive(Clone, Copy)]
pub enum Step {
    /// That many calls move one byte each.
    Bytes(usize),
    /// That many calls fail so.
    Faults(usize, ErrorKind),
}

/// A reader of bytes `a`, and a writer that drops its bytes, which follows steps to its end.
#[derive(Drop)]
pub struct Script<'a> {
    steps: &'a [Step],
    done: usize,
}

impl<'a> Script<'a> {
    pub fn new(steps: &'a [Step]) -> Script<'a> {
        Script { steps, done: 0 }
    }

    // Whether this call moves a byte.
    fn step(&mut self) -> io::Result<bool> {
        while let Some((first, rest)) = self.steps.split_first() {
            let (Step::Bytes(count) | Step::Faults(count, _)) = *first;
            if self.done < count {
                self.done += 1;
                return match *first {
                    Step::Bytes(_) => Ok(true),
                    Step::Faults(_, kind) => Err(io::Error::from(kind)),
                };
            }
            self.steps = rest;
            self.done = 0;
        }
        Ok(false)
    }
}

impl Read for Script<'_> {
    fn read(&mut self, buf: &mut [u8]) -> io::Result<usize> {
        if self.step()? && !buf.is_empty() {
            buf[0] = b'a';
            return Ok(1);
        }
        Ok(0)
    }
}

impl Write for Script<'_> {
    fn write(&mut self, buf: &[u8]) -> io::Result<usize> {
        if self.step()? && !buf.is_empty() {
            return Ok(1);
        }
        Ok(0)
    }

    fn flush(&mut self) -> io::Result<()> {
        self.step()?;
        Ok(())
    }
}
