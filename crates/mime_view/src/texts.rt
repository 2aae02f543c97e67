//! Texts of a cache. This project's own.

ghost use Rattle.std.specs.Prelude.{◌≡◌, ◌<◌, [], ◌∷◌, length, map, slice_set};

use std::alloc::Global;
use std::marker::Model;
use std::slice;

/// Texts of a cache, in their order. They borrow from the cache alone.
#[derive(Drop)]
pub struct Texts<'a> {
    held: Held<'a>,
}

/// One text, which is held in place, or a list.
#[derive(Drop)]
enum Held<'a> {
    One(&'a [u8]),
    Many(Vec<&'a [u8]>),
}

impl<'a> Model for Texts<'a> {
    ghost use Rattle.std.specs.Prelude.{ℕ, List};
    ghost use Rattle.mime_view.specs.Texts.{held_texts};

    ghost Value = { List (List ℕ) };

    ghost view = { λ texts. held_texts texts.held };
}

impl<'a> Texts<'a> {
    /// No texts. It never allocates.
    pub fn none(alloc: Global) -> Texts<'a>
        // There are none.
        ensures { result ≡ [] }
    {
        Texts {
            held: Held::Many(Vec::new(alloc)),
        }
    }

    /// One text. It never allocates.
    pub fn one(text: &'a [u8]) -> Texts<'a>
        // It is the one.
        ensures { result ≡ text.entry.now ∷ [] }
    {
        Texts {
            held: Held::One(text),
        }
    }

    /// The texts of a list.
    pub fn of(texts: Vec<&'a [u8]>) -> Texts<'a>
        // They are those of the list.
        ensures { result ≡ map (λ text. text.now) texts.entry.items }
    {
        Texts {
            held: Held::Many(texts),
        }
    }

    /// The texts as a slice.
    pub fn as_slice(&self) -> &[&'a [u8]]
        // They are the texts, in their order.
        ensures { map (λ text. text.now) result.now ≡ self.now }
    {
        match &self.held {
            Held::One(text) => slice::from_ref(text),
            Held::Many(texts) => texts,
        }
    }

    /// Puts a text in the place of another, counted from 0. It never allocates.
    pub fn replace(&mut self, place: usize, text: &'a [u8])
        // There is such a place.
        requires { place < length self.old }
        // The text stands at that place, and the others stay.
        ensures { self.new ≡ slice_set self.old place text.entry.now }
    {
        match &mut self.held {
            Held::One(one) => *one = text,
            Held::Many(texts) => texts[place] = text,
        }
    }
}
