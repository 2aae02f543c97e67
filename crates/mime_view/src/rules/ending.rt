//! An ending of names, which grows to the front on the way down the suffix tree. This project's own.

ghost use Rattle.std.specs.Prelude.{◌≡◌, ◌<◌, [], ◌∷◌, length, drop, OnOk, IfOk, IfErr};

use crate::fault::CacheFault;
use std::alloc::Global;
use std::marker::Model;

/// An ending of names.
#[derive(Drop)]
pub struct NameEnding {
    /// Its bytes, from the last to the first.
    path: Vec<u8>,
}

impl Model for NameEnding {
    ghost use Rattle.std.specs.Prelude.{ℕ, List, reverse};

    ghost Value = { List ℕ };

    ghost view = { λ ending. reverse ending.path.items };
}

impl NameEnding {
    /// The ending of no bytes. It never allocates.
    pub fn none(alloc: Global) -> NameEnding
        // It has no bytes.
        ensures { result ≡ [] }
    {
        NameEnding {
            path: Vec::new(alloc),
        }
    }

    /// How many bytes it has.
    pub fn length(&self) -> usize
        // It is exactly how many there are.
        ensures { result ≡ length self.now }
    {
        self.path.len()
    }

    /// Puts a byte before it.
    pub fn grow(&mut self, byte: u8) -> Result<(), CacheFault>
        // The byte is its first, and the others follow.
        ensures grown { OnOk result (self.new ≡ byte ∷ self.old) }
        // Only memory can be short.
        ensures fault { IfErr result (λ e. e ≡ CacheFault.OutOfMemory) }
    {
        self.path.push(byte)?;
        Ok(())
    }

    /// Takes its first byte away.
    pub fn shrink(&mut self)
        // The others stay.
        ensures { self.new ≡ drop 1 self.old }
    {
        let _ = self.path.pop();
    }

    /// The pattern of the names that end so: a `*`, and the ending.
    pub fn pattern(&self, alloc: Global) -> Result<Vec<u8>, CacheFault>
        // The byte 42 is `*`; those of the ending follow.
        ensures pattern { IfOk result (λ pattern. pattern.items ≡ 42 ∷ self.now) }
        // Only memory can be short.
        ensures fault { IfErr result (λ e. e ≡ CacheFault.OutOfMemory) }
    {
        let mut pattern = Vec::from_slice(alloc, &self.path)?;
        pattern.push(b'*')?;
        pattern.reverse();
        Ok(pattern)
    }
}
