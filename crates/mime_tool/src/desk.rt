//! What a command works with: memory, files, standard output and standard error. This project's own.

ghost use Rattle.std.specs.Prelude.{◌≡◌, IfOk, Ok, OnOk, Some, is_some, true};
ghost use Rattle.std.specs.List.{flat_map};
ghost use Rattle.mime_tool.specs.Desk.{Does, OpensFile, OpensList, ReadsWhole, ReplacesFile, State, Works};
ghost use Rattle.mime_tool.specs.Files.{IsBytesOf, IsOfKind, IsTextOf, IsThere, as_list};
ghost use Rattle.mime_tool.specs.Run.{printed, refusal, said, silent};

use crate::files::{FileFault, Files, Inode};
use crate::sink::{Sink, put_all};
use crate::stop::{Stop, complain, unreadable, unwritable};
use mime_base::OutOfMemory;
use mime_lookup::Content;
use std::alloc::{AllocError, Global};

/// What opening a file comes to.
#[derive(Drop)]
pub(crate) enum Opened<R: Drop> {
    /// A reader of its content.
    File(R),
    /// It is a folder.
    Folder,
    /// It can't be opened.
    Shut,
}

/// What a command works with.
///
/// A command takes one and is generic over it. So the command's contract is one relation of the desk
/// before it, the desk after it, and its result.
pub(crate) trait Desk {
    // What is stored, the setting, and what the sinks hold.
    ghost state: { Self → State };

    /// A reader of a file's content.
    type Reader: Content + Drop;

    /// Where memory comes from.
    fn alloc(&self) -> Global;

    /// All the bytes of a text file; a missing one counts as empty.
    fn read_text(&mut self, path: &str) -> Result<Vec<u8>, Stop>
        ensures { Works (ReadsWhole (IsTextOf ((state self.old).stored path.now)) path.now)
            (state self.old) (state self.new) result };

    /// All the bytes of a file, which has to be there.
    fn read_bytes(&mut self, path: &str) -> Result<Vec<u8>, Stop>
        ensures { Works (ReadsWhole (IsBytesOf ((state self.old).stored path.now)) path.now)
            (state self.old) (state self.new) result };

    /// Whether something is at a path, of whatever kind.
    fn exists(&mut self, path: &str) -> Result<bool, OutOfMemory>
        ensures stays { state self.new ≡ state self.old }
        ensures there { IfOk result (IsThere ((state self.old).stored path.now)) };

    /// What kind of thing lies at a path, where it is no regular file.
    fn inode(&mut self, path: &[u8]) -> Result<Option<Inode>, OutOfMemory>
        ensures stays { state self.new ≡ state self.old }
        ensures kind { IfOk result (IsOfKind ((state self.old).stored path.now)) };

    /// Opens a file.
    fn open(&mut self, path: &[u8]) -> Result<Opened<Self::Reader>, Stop>
        ensures { Works (OpensFile Self.Reader.remaining Self.Reader.health
            ((state self.old).stored path.now)) (state self.old) (state self.new) result };

    /// Opens a list of names, which may be a pipe.
    fn open_list(&mut self, path: &str) -> Result<Self::Reader, Stop>
        ensures { Works (OpensList Self.Reader.remaining Self.Reader.health
            (as_list ((state self.old).stored path.now)) path.now) (state self.old) (state self.new) result };

    /// Makes these bytes the file of `path`, whole, by way of a file of the path with this ending.
    fn replace(&mut self, path: &str, ending: &str, bytes: &[u8]) -> Result<(), Stop>
        ensures { ReplacesFile path.now ending.now bytes.now (state self.old) (state self.new) result };

    /// Prints the pieces on standard output, one after another.
    fn print(&mut self, pieces: &[&[u8]]) -> Result<(), Stop>
        ensures { Works (Does (printed (flat_map (λ piece. piece.now) pieces.now)))
            (state self.old) (state self.new) result };

    /// Hands on what was printed.
    fn hand_on(&mut self) -> Result<(), Stop>
        ensures { Works (Does silent) (state self.old) (state self.new) result };

    /// Says it on standard error, after what was printed. A fault there is ignored, unless memory ran
    /// out.
    fn complain(&mut self, message: &[u8]) -> Result<(), Stop>
        ensures { Works (Does (said message.now)) (state self.old) (state self.new) result };
}

/// A desk over any files and sinks.
#[derive(Drop)]
pub(crate) struct Streams<'f, 'o, 'e, F: Files, O: Sink, E: Sink> {
    pub(crate) alloc: Global,
    pub(crate) files: &'f mut F,
    pub(crate) out: &'o mut O,
    pub(crate) err: &'e mut E,
}

impl<F: Files, O: Sink, E: Sink> Desk for Streams<'_, '_, '_, F, O, E> {
    ghost state = { λ desk. record {
      stored = F.tells desk.files.now;
      setting = record {
        places = (desk.files.ghost_name, desk.out.ghost_name, desk.err.ghost_name);
        writes = F.writes desk.files.now;
        capacity = E.capacity desk.err.now;
      };
      sinks = record { out = O.holds desk.out.now; err = E.holds desk.err.now };
    } };

    type Reader = F::Reader;

    fn alloc(&self) -> Global {
        self.alloc
    }

    fn read_text(&mut self, path: &str) -> Result<Vec<u8>, Stop> {
        match self.files.whole(self.alloc, path) {
            Ok(Some(text)) => Ok(text),
            Ok(None) => Ok(Vec::new(self.alloc)),
            Err(FileFault::Folder | FileFault::Failed) => Err(unreadable(self.alloc, path)),
            Err(FileFault::OutOfMemory) => Err(Stop::OutOfMemory),
        }
    }

    fn read_bytes(&mut self, path: &str) -> Result<Vec<u8>, Stop> {
        match self.files.whole(self.alloc, path) {
            Ok(Some(bytes)) => Ok(bytes),
            Ok(None) | Err(FileFault::Folder | FileFault::Failed) => {
                Err(unreadable(self.alloc, path))
            }
            Err(FileFault::OutOfMemory) => Err(Stop::OutOfMemory),
        }
    }

    fn exists(&mut self, path: &str) -> Result<bool, OutOfMemory> {
        self.files.exists(self.alloc, path)
    }

    fn inode(&mut self, path: &[u8]) -> Result<Option<Inode>, OutOfMemory> {
        self.files.inode(self.alloc, path)
    }

    fn open(&mut self, path: &[u8]) -> Result<Opened<F::Reader>, Stop> {
        match self.files.open(self.alloc, path) {
            Ok(reader) => Ok(Opened::File(reader)),
            Err(FileFault::Folder) => Ok(Opened::Folder),
            Err(FileFault::Failed) => Ok(Opened::Shut),
            Err(FileFault::OutOfMemory) => Err(Stop::OutOfMemory),
        }
    }

    fn open_list(&mut self, path: &str) -> Result<F::Reader, Stop> {
        match self.files.open_list(self.alloc, path) {
            Ok(reader) => Ok(reader),
            Err(FileFault::Folder | FileFault::Failed) => Err(unreadable(self.alloc, path)),
            Err(FileFault::OutOfMemory) => Err(Stop::OutOfMemory),
        }
    }

    fn replace(&mut self, path: &str, ending: &str, bytes: &[u8]) -> Result<(), Stop> {
        match self.files.replace(self.alloc, path, ending, bytes) {
            Ok(()) => Ok(()),
            Err(FileFault::Folder | FileFault::Failed) => Err(unwritable(self.alloc, path)),
            Err(FileFault::OutOfMemory) => Err(Stop::OutOfMemory),
        }
    }

    // Always inlined: how long most pieces are is known where they are printed.
    #[inline(always)]
    fn print(&mut self, pieces: &[&[u8]]) -> Result<(), Stop> {
        put_all(self.out, pieces)?;
        Ok(())
    }

    fn hand_on(&mut self) -> Result<(), Stop> {
        self.out.flush()?;
        Ok(())
    }

    fn complain(&mut self, message: &[u8]) -> Result<(), Stop> {
        complain_after(self.out, self.err, message)
    }
}

// Says it once what was printed is handed on, so that a log of both streams has them in this order.
fn complain_after<O: Sink, E: Sink>(out: &mut O, err: &mut E, message: &[u8]) -> Result<(), Stop>
    ensures says { Does (said message.now) (record { out = O.holds out.old; err = E.holds err.old })
        (record { out = O.holds out.new; err = E.holds err.new }) result }
    ensures capacity { E.capacity err.new ≡ E.capacity err.old }
    ensures handed_on { OnOk result (is_some (O.holds out.old) ≡ true → O.flushed out.new ≡ Some (Ok tt)) }
{
    out.flush()?;
    complain(err, message)?;
    Ok(())
}

/// Says on standard error what is wrong with a file or a word.
pub(crate) fn report<D: Desk>(desk: &mut D, subject: &[u8], why: &str) -> Result<(), Stop>
    // The message is said, or what it begins with where memory runs out.
    ensures { Works (Does (said (refusal subject.now why.now)))
        (D.state desk.old) (D.state desk.new) result }
{
    let message = refusal(desk.alloc(), subject, why)?;
    desk.complain(message.as_slice())
}

fn refusal(alloc: Global, subject: &[u8], why: &str) -> Result<Vec<u8>, AllocError>
    ensures { IfOk result (λ message. message.items ≡ refusal subject.now why.now) }
{
    let mut message = Vec::new(alloc);
    message.extend_from_slice(b"mimelook: ")?;
    message.extend_from_slice(subject)?;
    message.extend_from_slice(b": ")?;
    message.extend_from_slice(why.as_bytes())?;
    message.extend_from_slice(b"\n")?;
    Ok(message)
}
