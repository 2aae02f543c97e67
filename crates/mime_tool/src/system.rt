//! The files and the streams of the system, of which nothing is known. This project's own.

ghost use Rattle.std.specs.Prelude.{◌≡◌, ◌≢◌, ◌+◌, ◌<◌, ◌≤◌, None, [], IfOk, IfSome, OnOk, drop, length, take, vec_len};
ghost use Rattle.std.specs.IoError.{error_kind};
ghost use Rattle.std.specs.Io.KnownBytes.{Appends, Consumes, IsAtEnd, Keeps, ReadConsumes};
ghost use Rattle.mime_tool.specs.Files.{fault_of};
ghost use Rattle.mime_tool.specs.Sink.{IsPut};

use crate::files::{FileFault, Files, Inode};
use crate::sink::{Sink, SinkFault};
use mime_base::OutOfMemory;
use mime_lookup::Untold;
use std::alloc::Global;
use std::fs::{File, Metadata, OpenFile, Permissions};
use std::io::{ErrorKind, Read, Write};
use std::os::unix::fs::FileTypeExt;
use std::{fs, io, rt};

/// The longest file that is read whole, in bytes.
const LONGEST_FILE: usize = 4_294_967_296;

/// How many interrupted reads of a file are tried again.
const RETRIES: u32 = 1_000;

/// How many bytes are asked for at once, at most.
const BLOCK: usize = 262_144;

/// The files of the system.
///
/// Only regular files are opened, and links to them. A folder is [`FileFault::Folder`]; a pipe, a socket
/// and a device, `/dev/null` too, are [`FileFault::Failed`]: to open one may wait for a writer without
/// end, or do something. Only a list of names may be a pipe. A path that is no UTF-8 is
/// [`FileFault::Failed`] too, since this runtime opens only text.
///
/// A regular file alone is replaced, and keeps its mode; where a link leads to it, by way of a file beside
/// it, and the link stays. Where nothing is, a file is made.
///
/// Of files that are read whole, a missing one is `None`; any other that can't be opened or read is
/// [`FileFault::Failed`], and so is one of more than 4 GiB, which isn't read where its size is known before.
#[derive(Drop)]
pub struct SystemFiles<'r, R: rt::Files>(&'r R);

impl<'r, R: rt::Files> SystemFiles<'r, R> {
    /// The files that this runtime reaches.
    pub fn new(rt: &'r R) -> Self {
        SystemFiles(rt)
    }
}

impl<R: rt::Files> Files for SystemFiles<'_, R> {
    type Reader = Untold<R::File>;

    fn whole(&mut self, alloc: Global, path: &str) -> Result<Option<Vec<u8>>, FileFault> {
        match open_file(self.0, path) {
            Ok((mut file, size)) => Ok(Some(read_open(alloc, LONGEST_FILE, size, &mut file)?)),
            Err(error) => {
                if error.kind() == ErrorKind::NotFound {
                    Ok(None)
                } else {
                    Err(file_fault(&error))
                }
            }
        }
    }

    // What can't be looked at is there, as something that can't be read.
    fn exists(&mut self, _alloc: Global, path: &str) -> Result<bool, OutOfMemory> {
        match fs::metadata(self.0, path) {
            Ok(_) => Ok(true),
            Err(error) => match error.kind() {
                ErrorKind::NotFound => Ok(false),
                ErrorKind::OutOfMemory => Err(OutOfMemory),
                _ => Ok(true),
            },
        }
    }

    // What can't be looked at has no kind.
    fn inode(&mut self, _alloc: Global, path: &[u8]) -> Result<Option<Inode>, OutOfMemory> {
        let Ok(path) = str::from_utf8(path) else {
            return Ok(None);
        };
        match inode_at(self.0, path) {
            Ok(inode) => Ok(inode),
            Err(error) => match error.kind() {
                ErrorKind::OutOfMemory => Err(OutOfMemory),
                _ => Ok(None),
            },
        }
    }

    fn open(&mut self, _alloc: Global, path: &[u8]) -> Result<Untold<R::File>, FileFault> {
        let Ok(path) = str::from_utf8(path) else {
            return Err(FileFault::Failed);
        };
        match open_file(self.0, path) {
            Ok((file, _)) => Ok(Untold(file)),
            Err(error) => Err(file_fault(&error)),
        }
    }

    fn open_list(&mut self, _alloc: Global, path: &str) -> Result<Untold<R::File>, FileFault> {
        match open_list(self.0, path) {
            Ok(file) => Ok(Untold(file)),
            Err(error) => Err(file_fault(&error)),
        }
    }

    fn replace(
        &mut self,
        alloc: Global,
        path: &str,
        ending: &str,
        bytes: &[u8],
    ) -> Result<(), FileFault> {
        match replace_by(self.0, alloc, (path, ending), bytes) {
            Ok(()) => Ok(()),
            Err(error) => Err(file_fault(&error)),
        }
    }
}

// Opens a regular file to be read, and gives how many bytes it says that it has. What the path leads to may change in between, so
// what was opened is looked at too.
fn open_file<R: rt::Files>(rt: &R, path: &str) -> io::Result<(R::File, u64)> {
    require_regular(&fs::metadata(rt, path)?)?;
    let file = File::open(rt, path)?;
    let metadata = file.metadata()?;
    require_regular(&metadata)?;
    Ok((file, metadata.len()))
}

// The same of a regular file or a pipe, which is waited for.
fn open_list<R: rt::Files>(rt: &R, path: &str) -> io::Result<R::File> {
    require_list(&fs::metadata(rt, path)?)?;
    let file = File::open(rt, path)?;
    require_list(&file.metadata()?)?;
    Ok(file)
}

fn require_list(metadata: &Metadata) -> io::Result<()> {
    if metadata.file_type().is_fifo() {
        Ok(())
    } else {
        require_regular(metadata)
    }
}

fn require_regular(metadata: &Metadata) -> io::Result<()> {
    if metadata.is_file() {
        Ok(())
    } else if metadata.is_dir() {
        Err(io::Error::from(ErrorKind::IsADirectory))
    } else {
        Err(io::Error::from(ErrorKind::Unsupported))
    }
}

// The kind of what a path leads to, or a link where it leads nowhere: to nothing, to itself, or to where nothing may be looked at.
fn inode_at<R: rt::Files>(rt: &R, path: &str) -> io::Result<Option<Inode>> {
    match fs::metadata(rt, path) {
        Ok(metadata) => Ok(inode_of(&metadata)),
        Err(error) => match error.kind() {
            ErrorKind::NotFound | ErrorKind::FilesystemLoop | ErrorKind::PermissionDenied => {
                let found = fs::symlink_metadata(rt, path)?;
                Ok(found.is_symlink().then_some(Inode::Symlink))
            }
            _ => Err(error),
        },
    }
}

fn inode_of(metadata: &Metadata) -> Option<Inode> {
    let kind = metadata.file_type();
    if kind.is_dir() {
        Some(Inode::Directory)
    } else if kind.is_char_device() {
        Some(Inode::CharDevice)
    } else if kind.is_block_device() {
        Some(Inode::BlockDevice)
    } else if kind.is_fifo() {
        Some(Inode::Fifo)
    } else if kind.is_socket() {
        Some(Inode::Socket)
    } else {
        None
    }
}

// Where a file lies that is to be replaced or made, and its permissions, if it is there.
#[derive(Drop)]
struct Place {
    path: String,
    permissions: Option<Permissions>,
}

// Writes a new file beside the one of this path, by the path and an ending, and renames it.
fn replace_by<R: rt::Files>(
    rt: &R,
    alloc: Global,
    (path, ending): (&str, &str),
    bytes: &[u8],
) -> io::Result<()> {
    let Place { path, permissions } = place_of(rt, alloc, path)?;
    let temp = format!(in alloc; "{path}{ending}")?;
    write_new(rt, temp.as_str(), permissions, bytes)?;
    fs::rename(rt, temp.as_str(), path.as_str())
}

// The place of a regular file or of none. Anything else is refused.
fn place_of<R: rt::Files>(rt: &R, alloc: Global, path: &str) -> io::Result<Place> {
    let found = match fs::symlink_metadata(rt, path) {
        Ok(found) => Some(found),
        Err(error) => {
            if error.kind() != ErrorKind::NotFound {
                return Err(error);
            }
            None
        }
    };
    match found {
        Some(found) if found.is_symlink() => linked_place(rt, alloc, path),
        Some(found) => regular_place(String::from_str(alloc, path)?, &found),
        None => Ok(Place {
            path: String::from_str(alloc, path)?,
            permissions: None,
        }),
    }
}

// The place of the file that a link leads to, which has to be there.
fn linked_place<R: rt::Files>(rt: &R, alloc: Global, link: &str) -> io::Result<Place> {
    let path = rt.canonicalize(alloc, link)?.into_string();
    let found = fs::symlink_metadata(rt, path.as_str())?;
    regular_place(path, &found)
}

fn regular_place(path: String, found: &Metadata) -> io::Result<Place> {
    require_regular(found)?;
    Ok(Place {
        path,
        permissions: Some(found.permissions()),
    })
}

// Writes a new file that lasts. What stood at its path is removed, and never written to: a pipe would be waited for, and a
// link lead to another file.
fn write_new<R: rt::Files>(
    rt: &R,
    path: &str,
    permissions: Option<Permissions>,
    bytes: &[u8],
) -> io::Result<()> {
    remove_left(rt, path)?;
    let mut file = File::create_new(rt, path)?;
    if let Some(permissions) = permissions {
        file.set_permissions(permissions)?;
    }
    file.write_all(bytes)?;
    file.sync_all()
}

// Removes what stands at a path, if anything does.
fn remove_left<R: rt::Files>(rt: &R, path: &str) -> io::Result<()> {
    match fs::remove_file(rt, path) {
        Ok(()) => Ok(()),
        Err(error) => {
            if error.kind() == ErrorKind::NotFound {
                Ok(())
            } else {
                Err(error)
            }
        }
    }
}

// All the bytes of an open file that says that it has `size`, at most `limit`. One that says that it is longer isn't read; for
// any other, room is made at once.
fn read_open<F: Read>(
    alloc: Global,
    limit: usize,
    size: u64,
    file: &mut F,
) -> Result<Vec<u8>, FileFault>
    ensures bytes { IfOk result (λ v. IfSome (F.remaining file.old) (λ xs. v.items ≡ xs)) }
    ensures limited { IfOk result (λ v. length v.items ≤ limit) }
{
    if size > limit as u64 {
        return Err(FileFault::Failed);
    }
    // One byte more, so that the read that finds the end has room.
    let room = (size as usize).saturating_add(1);
    read_onto(Vec::with_capacity(alloc, room)?, limit, file)
}

/// All the bytes that a reader still gives, at most `limit`.
///
/// An interrupted read is tried again, 1,000 times in all. [`FileFault::Failed`] comes with the next
/// interruption, and with more than `limit` bytes; any other error of the reader is passed on.
pub fn read_whole<R: Read>(alloc: Global, limit: usize, file: &mut R) -> Result<Vec<u8>, FileFault>
    // Where the reader tells what is left in it, the answer is exactly that.
    ensures bytes { IfOk result (λ v. IfSome (R.remaining file.old) (λ xs. v.items ≡ xs)) }
    // An answer is no longer than the limit.
    ensures limited { IfOk result (λ v. length v.items ≤ limit) }
{
    read_onto(Vec::new(alloc), limit, file)
}

// The same, into a vector that is empty, and may have room.
fn read_onto<R: Read>(mut bytes: Vec<u8>, limit: usize, file: &mut R) -> Result<Vec<u8>, FileFault>
    requires empty { bytes.items ≡ [] }
    ensures bytes { IfOk result (λ v. IfSome (R.remaining file.old) (λ xs. v.items ≡ xs)) }
    ensures limited { IfOk result (λ v. length v.items ≤ limit) }
{
    let mut filled = 0;
    let mut retries = RETRIES;
    for _ in 0..u64::MAX {
        lengthen(&mut bytes, filled)?;
        let count = read_after(file, &mut bytes, filled, &mut retries)?;
        if count == 0 {
            bytes.truncate(filled);
            return Ok(bytes);
        }
        if count > limit - filled {
            return Err(FileFault::Failed);
        }
        filled += count;
    }
    Err(FileFault::Failed)
}

// Makes the bytes longer than those that are filled, by zeros: as long as there is room, and a block at most. The filled ones stay.
fn lengthen(bytes: &mut Vec<u8>, filled: usize) -> Result<(), FileFault>
    requires { filled ≤ vec_len bytes.old }
    ensures longer { OnOk result (filled < vec_len bytes.new) }
    ensures front { take filled bytes.new.items ≡ take filled bytes.old.items }
{
    if filled < bytes.len() {
        return Ok(());
    }
    let more = match bytes.capacity() - filled {
        0 => BLOCK,
        room => room.min(BLOCK),
    };
    bytes.resize(filled.saturating_add(more), 0)?;
    Ok(())
}

// One read into the bytes after those that are filled, which stay. Gives how many bytes came: none only at the end.
fn read_after<R: Read>(
    file: &mut R,
    bytes: &mut [u8],
    filled: usize,
    retries: &mut u32,
) -> Result<usize, FileFault>
    requires { filled < length bytes.old }
    ensures front { take filled bytes.new ≡ take filled bytes.old }
    ensures within { IfOk result (λ count. filled + count ≤ length bytes.new) }
    ensures read { IfOk result (λ count. Consumes (R.remaining file.old) (R.remaining file.new) (take count (drop filled bytes.new))) }
    ensures end { IfOk result (λ count. count ≡ 0 → IsAtEnd (R.remaining file.new)) }
{
    read_block(file, &mut bytes[filled..], retries)
}

// One read, tried again while it is interrupted and retries are left. Gives how many bytes came.
fn read_block<R: Read>(
    file: &mut R,
    block: &mut [u8],
    retries: &mut u32,
) -> Result<usize, FileFault>
    ensures within { IfOk result (λ count. count ≤ length block.new) }
    ensures bytes { ReadConsumes (R.remaining file.old) (R.remaining file.new) result block.new }
{
    loop {
        match file.read(block) {
            Ok(count) => return Ok(count),
            Err(error) => {
                if error.kind() != ErrorKind::Interrupted || *retries == 0 {
                    return Err(file_fault(&error));
                }
                *retries -= 1;
            }
        }
    }
}

fn file_fault(error: &io::Error) -> FileFault
    ensures { result ≡ fault_of (error_kind error.now) }
{
    match error.kind() {
        ErrorKind::OutOfMemory => FileFault::OutOfMemory,
        ErrorKind::IsADirectory => FileFault::Folder,
        _ => FileFault::Failed,
    }
}

/// A writer as a [`Sink`], of which nothing is known.
#[derive(Drop)]
pub struct Stream<W: Write + Drop>(pub W);

impl<W: Write + Drop> Sink for Stream<W> {
    fn put(&mut self, bytes: &[u8]) -> Result<(), SinkFault>
        // Nothing is told as a sink.
        ensures unknown { IsPut None None result bytes.now }
        // Where the writer tells what it holds, exactly the bytes are added.
        ensures written { OnOk result
            (Appends (W.contents self.old.0) (W.contents self.new.0) bytes.now) }
    {
        match self.0.write_all(bytes) {
            Ok(()) => Ok(()),
            Err(error) => Err(sink_fault(&error)),
        }
    }

    fn flush(&mut self) -> Result<(), SinkFault>
        // Nothing is told as a sink.
        ensures unknown { IsPut None None result [] }
        // Where the writer tells what it holds, it keeps that.
        ensures kept { Keeps (W.contents self.old.0) (W.contents self.new.0) }
    {
        match self.0.flush() {
            Ok(()) => Ok(()),
            Err(error) => Err(sink_fault(&error)),
        }
    }
}

fn sink_fault(error: &io::Error) -> SinkFault
    ensures memory { error_kind error.now ≡ ErrorKind.OutOfMemory → result ≡ SinkFault.OutOfMemory }
    ensures failed { error_kind error.now ≢ ErrorKind.OutOfMemory → result ≡ SinkFault.Failed }
{
    if error.kind() == ErrorKind::OutOfMemory {
        SinkFault::OutOfMemory
    } else {
        SinkFault::Failed
    }
}
