//! Sets of types.

ghost use Rattle.std.specs.Prelude.{◌≡◌, ◌↔◌, ◌∷◌, [], IsTrue, List, OnOk, ℕ};
ghost use Rattle.mime_text.specs.Merging.{is_among};

use mime_base::{OutOfMemory, TypeName};
use std::alloc::Global;
use std::collections::BTreeSet;
use std::marker::Model;

/// A set of types. It is a tree, so that no choice of names makes it slow.
#[derive(Drop)]
pub struct Types {
    names: BTreeSet<Vec<u8>>,
}

impl Model for Types {
    ghost use Rattle.std.specs.Prelude.{ℕ, List, map};

    ghost Value = { List (List ℕ) };

    ghost view = { λ types. map (λ name. name.items) types.names.keys };
}

impl Types {
    /// No types.
    pub fn new(alloc: Global) -> Types
        // It holds no type.
        ensures { result ≡ [] }
    {
        Types {
            names: BTreeSet::new(alloc),
        }
    }

    /// Whether it holds no type.
    pub fn is_empty(&self) -> bool
        // It is true exactly where no type was added.
        ensures { IsTrue result ↔ (self.now ≡ []) }
    {
        self.names.is_empty()
    }

    /// Whether it holds this type.
    pub fn contains(&self, kind: &TypeName) -> bool
        // It is true exactly of a type that was added.
        ensures { result ≡ is_among self.now kind.now }
    {
        self.names.contains(kind.bytes())
    }

    /// Adds a type.
    pub fn add(&mut self, alloc: Global, kind: &TypeName) -> Result<(), OutOfMemory>
        // The type is held besides all others, unless memory runs out.
        ensures { OnOk result ((other : List ℕ) → is_among self.new other ≡ is_among (kind.now ∷ self.old) other) }
    {
        self.names.insert(Vec::from_slice(alloc, kind.bytes())?)?;
        Ok(())
    }
}
