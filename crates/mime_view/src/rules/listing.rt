//! Rules as they are listed. This project's own.

ghost use Rattle.std.specs.Prelude.{◌≡◌, ◌/◌, ◌%◌, ◌==◌, [], ◌∷◌, ◌++◌, OnOk, OnErr, IfErr, map};
ghost use Rattle.mime_view.specs.Listing.{listed_by, plain_listed};

use crate::fault::CacheFault;
use crate::flags::weight_and_case;
use std::alloc::Global;
use std::marker::Model;

/// A glob rule of a cache.
#[derive(Debug, Drop)]
pub struct Listed<'a> {
    /// Its weight, from 0 to 255.
    pub weight: u8,
    /// The type that it gives, a text of the cache.
    pub kind: &'a [u8],
    /// Its pattern as the cache stores it: folded, unless it is case-sensitive.
    pub pattern: Vec<u8>,
    /// Whether it is case-sensitive.
    pub cased: bool,
}

/// Rules of a cache, in the order in which they were added.
#[derive(Drop)]
pub struct Listing<'a> {
    rules: Vec<Listed<'a>>,
}

impl<'a> Model for Listing<'a> {
    ghost use Rattle.std.specs.Prelude.{List, map};
    ghost use Rattle.mime_view.specs.Listing.{PlainListed, plain_listed};

    ghost Value = { List PlainListed };

    ghost view = { λ listing. map plain_listed listing.rules.items };
}

impl<'a> Listing<'a> {
    /// No rules. It never allocates.
    pub fn none(alloc: Global) -> Listing<'a>
        // There are none.
        ensures { result ≡ [] }
    {
        Listing {
            rules: Vec::new(alloc),
        }
    }

    /// Adds a rule of this type, pattern, and number of weight and flags.
    pub fn add(&mut self, kind: &'a [u8], pattern: Vec<u8>, flags: u32) -> Result<(), CacheFault>
        // The rule stands after the others.
        ensures added { OnOk result (self.new ≡ self.old ++ listed_by flags kind.now pattern.items ∷ []) }
        // Before a fault nothing is added.
        ensures stays { OnErr result (self.new ≡ self.old) }
        // Only memory can be short.
        ensures fault { IfErr result (λ e. e ≡ CacheFault.OutOfMemory) }
    {
        let (weight, cased) = weight_and_case(flags);
        let rule = Listed {
            weight,
            kind,
            pattern,
            cased,
        };
        self.rules.push(rule)?;
        Ok(())
    }

    /// The list of the rules. It never allocates.
    pub fn into_vec(self) -> Vec<Listed<'a>>
        // They are the rules that were added, in their order.
        ensures { map plain_listed result.items ≡ self.entry }
    {
        let Listing { rules } = self;
        rules
    }
}
