//! What markers leave of rules and sections.

ghost use Rattle.std.specs.Prelude.{◌≡◌, ◌++◌, [], OnOk, true, ℕ, List};
ghost use Rattle.mime_text.specs.Merging.{is_among, without};

use super::types::Types;
use mime_base::{GlobRule, OutOfMemory, Section, TypeName};
use std::alloc::Global;

/// A rule or a section, which gives a type.
pub trait Kinded: Drop {
    /// The type that it gives.
    ghost kind_of: { Self → List ℕ };

    /// The type that it gives.
    fn kind(&self) -> &TypeName
        // The type whose markers discard it.
        ensures { result.now ≡ kind_of self.now };
}

impl Kinded for GlobRule {
    ghost kind_of = { λ rule. rule.kind };

    fn kind(&self) -> &TypeName {
        &self.kind
    }
}

impl Kinded for Section {
    ghost kind_of = { λ section. section.kind };

    fn kind(&self) -> &TypeName {
        &self.kind
    }
}

/// The rules or the sections of directories that no more preferred directory discards.
#[derive(Drop)]
pub struct Kept<T> {
    /// What is kept, in the order of directories and lines.
    pub items: Vec<T>,
    /// The types that less preferred directories can't give.
    pub deleted: Types,
}

impl<T: Kinded> Kept<T> {
    /// That of no directories.
    pub fn new(alloc: Global) -> Kept<T>
        // Nothing is kept yet.
        ensures items { result.items.items ≡ [] }
        // No type is discarded yet.
        ensures deleted { result.deleted ≡ [] }
    {
        Kept {
            items: Vec::new(alloc),
            deleted: Types::new(alloc),
        }
    }

    /// Adds what a less preferred directory gives and discards.
    pub fn add(
        &mut self,
        alloc: Global,
        items: Vec<T>,
        deleted: &[TypeName],
    ) -> Result<(), OutOfMemory>
        // Its items come after the others, without those whose types more preferred directories discard.
        ensures items { OnOk result
            (self.new.items.items ≡ self.old.items.items ++ without T.kind_of self.old.deleted items.items) }
        // Its own markers discard types of the directories after it.
        ensures deleted { OnOk result
            ((kind : List ℕ) → is_among self.new.deleted kind ≡ is_among (self.old.deleted ++ deleted.now) kind) }
    {
        self.keep(items)?;
        for kind in deleted {
            self.deleted.add(alloc, kind)?;
        }
        Ok(())
    }

    /// Whether nothing is kept or discarded yet.
    fn is_new(&self) -> bool
        ensures items { result ≡ true → self.now.items.items ≡ [] }
        ensures deleted { result ≡ true → self.now.deleted ≡ [] }
    {
        self.items.is_empty() && self.deleted.is_empty()
    }

    /// Adds those items that are not discarded.
    fn keep(&mut self, items: Vec<T>) -> Result<(), OutOfMemory>
        ensures items { OnOk result
            (self.new.items.items ≡ self.old.items.items ++ without T.kind_of self.old.deleted items.items) }
        ensures deleted { self.new.deleted ≡ self.old.deleted }
    {
        if self.is_new() {
            self.items = items;
            return Ok(());
        }
        for item in items {
            if !self.deleted.contains(item.kind()) {
                self.items.push(item)?;
            }
        }
        Ok(())
    }
}
