//! A content that says whether it was asked for bytes.

ghost use Rattle.std.specs.Prelude.{Bool};
ghost use Rattle.mime_tool.specs.Files.{Stored};
ghost use Rattle.mime_tool.specs.LineSteps.{IsContent};

use mime_lookup::{Content, ReadFault};
use std::io;
use std::io::Read;

/// A reader, and whether it was asked for bytes.
#[derive(Drop)]
pub(super) struct Watched<R> {
    reader: R,
    asked: bool,
}

impl<R: Content> Watched<R> {
    /// A content, if there is one, that wasn't asked yet.
    pub(super) fn of(content: Option<R>) -> Option<Watched<R>>
        // It reads what is stored, if that content does.
        ensures { (name_only : Bool) (stored : Stored) → IsContent R.remaining R.health name_only stored content
            → IsContent (λ watched. R.remaining watched.reader) (λ watched. R.health watched.reader) name_only stored result }
    {
        match content {
            Some(reader) => Some(Watched {
                reader,
                asked: false,
            }),
            None => None,
        }
    }

    /// Whether bytes were asked of a content, if there is one.
    pub(super) fn was_asked(content: &Option<Watched<R>>) -> bool {
        match content {
            Some(watched) => watched.asked,
            None => false,
        }
    }
}

impl<R: Content> Read for Watched<R> {
    ghost remaining = { λ watched. R.remaining watched.reader };

    fn read(&mut self, buffer: &mut [u8]) -> io::Result<usize> {
        self.asked = true;
        self.reader.read(buffer)
    }
}

impl<R: Content> Content for Watched<R> {
    ghost tally = { λ watched. R.tally watched.reader };

    ghost health = { λ watched. R.health watched.reader };

    fn read_piece(&mut self, buffer: &mut [u8]) -> Result<usize, ReadFault> {
        self.asked = true;
        self.reader.read_piece(buffer)
    }
}
