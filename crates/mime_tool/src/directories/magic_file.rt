//! The file `magic` of a data directory, and the message on a fault of it.

ghost use Rattle.std.specs.Prelude.{◌≡◌, codes};
ghost use Rattle.mime_tool.specs.Desk.{Works};
ghost use Rattle.mime_tool.specs.Directories.{IsMagicAt, IsMagicFaultStop, IsMagicOrFault, faulty_at, magic_fault_name};
ghost use Rattle.mime_tool.specs.Directories.{path_of, plain_magic};
ghost use Rattle.mime_tool.specs.Finish.{Sinks};
ghost use Rattle.mime_tool.specs.Loading.{Loads};
ghost use Rattle.mime_tool.specs.Stop.{IsRefusal};

use super::path_of;
use crate::desk::Desk;
use crate::stop::Stop;
use mime_text::{MagicFault, MagicFaultKind, MagicFile, read_magic};
use std::alloc::Global;

/// Reads the file `magic` of a directory.
pub(super) fn read_magic_in<D: Desk>(desk: &mut D, directory: &str) -> Result<MagicFile, Stop>
    // It is the magic of the stored file, none where there is no file.
    ensures { Works (Loads plain_magic (IsMagicAt (D.state desk.old).stored
        (path_of directory.now (codes "magic")))) (D.state desk.old) (D.state desk.new) result }
{
    let path = path_of(desk.alloc(), directory, "magic")?;
    read_magic_at(desk, path.as_str())
}

fn read_magic_at<D: Desk>(desk: &mut D, path: &str) -> Result<MagicFile, Stop>
    ensures { Works (Loads plain_magic (IsMagicAt (D.state desk.old).stored path.now))
        (D.state desk.old) (D.state desk.new) result }
{
    let text = desk.read_text(path)?;
    parse_magic(desk.alloc(), path, text.as_slice())
}

fn parse_magic(alloc: Global, path: &str, text: &[u8]) -> Result<MagicFile, Stop>
    ensures { (sinks : Sinks) → Loads plain_magic (IsMagicOrFault path.now text.now) sinks sinks result }
{
    match read_magic(alloc, text) {
        Ok(file) => Ok(file),
        Err(fault) => Err(faulty(alloc, path, fault)),
    }
}

// The stop of a fault of `magic`.
fn faulty(alloc: Global, path: &str, fault: MagicFault) -> Stop
    ensures { IsMagicFaultStop path.now fault result }
{
    match fault {
        MagicFault::Malformed { kind, offset } => faulty_at(alloc, path, name_of(kind), offset),
        MagicFault::OutOfMemory => Stop::OutOfMemory,
    }
}

// What the message on a fault calls it.
fn name_of(kind: MagicFaultKind) -> &'static str
    ensures { result.now ≡ magic_fault_name kind }
{
    match kind {
        MagicFaultKind::NoHeader => "no header",
        MagicFaultKind::Truncated => "truncated",
        MagicFaultKind::BadSection => "bad section",
        MagicFaultKind::BadNumber => "bad number",
        MagicFaultKind::BadWord => "bad word",
        MagicFaultKind::BadIndent => "bad indent",
        MagicFaultKind::TooDeep => "too deep",
    }
}

fn faulty_at(alloc: Global, path: &str, name: &str, at: u64) -> Stop
    ensures { IsRefusal (faulty_at path.now name.now at) result }
{
    match format!(in alloc; "mimelook: {path}: magic {name} at {at}\n") {
        Ok(message) => Stop::Refused(message),
        Err(_) => Stop::OutOfMemory,
    }
}
