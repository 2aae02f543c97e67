//! Why a command stops, and what is said on standard error.

ghost use Rattle.std.specs.Prelude.{◌≡◌, IsOk};
ghost use Rattle.mime_tool.specs.declared.stop.Stop.TheVariants.{OutOfMemory};
ghost use Rattle.mime_tool.specs.Run.{cannot_read, cannot_write, not_replaced};
ghost use Rattle.mime_tool.specs.Sink.{HasRoom};
ghost use Rattle.mime_tool.specs.Stop.{IsRefusal, Says, SaysStop, TellsStop, stop_of};

use crate::sink::{Sink, SinkFault, put_now};
use crate::status::{OUT_OF_MEMORY, STOPPED};
use mime_base::OutOfMemory;
use std::alloc::{AllocError, AllocFailed, Global};

/// Why a command stops before its end.
#[derive(Debug, Drop)]
pub(crate) enum Stop {
    /// The data are refused; this line says why.
    Refused(String),
    /// Standard output didn't take the output.
    CannotWrite,
    /// Memory ran out.
    OutOfMemory,
}

impl From<OutOfMemory> for Stop {
    ghost from_gives = { λ _ stop. stop ≡ OutOfMemory };

    fn from(_error: OutOfMemory) -> Stop {
        Stop::OutOfMemory
    }
}

impl From<AllocError> for Stop {
    ghost from_gives = { λ _ stop. stop ≡ OutOfMemory };

    fn from(_error: AllocError) -> Stop {
        Stop::OutOfMemory
    }
}

impl<T: Drop> From<AllocFailed<T>> for Stop {
    ghost from_gives = { λ _ stop. stop ≡ OutOfMemory };

    fn from(_error: AllocFailed<T>) -> Stop {
        Stop::OutOfMemory
    }
}

impl From<SinkFault> for Stop {
    ghost from_gives = { λ fault stop. stop ≡ stop_of fault };

    fn from(fault: SinkFault) -> Stop {
        match fault {
            SinkFault::Failed => Stop::CannotWrite,
            SinkFault::OutOfMemory => Stop::OutOfMemory,
        }
    }
}

/// The file of this path can't be read.
pub(crate) fn unreadable(alloc: Global, path: &str) -> Stop
    // The stop has the message `cannot read`, or says that memory ran out.
    ensures { IsRefusal (cannot_read path.now) result }
{
    match format!(in alloc; "mimelook: {path}: cannot read\n") {
        Ok(message) => Stop::Refused(message),
        Err(_) => Stop::OutOfMemory,
    }
}

/// The file of this path can't be written.
pub(crate) fn unwritable(alloc: Global, path: &str) -> Stop
    // The stop has the message `cannot write`, or says that memory ran out.
    ensures { IsRefusal (cannot_write path.now) result }
{
    match format!(in alloc; "mimelook: {path}: cannot write\n") {
        Ok(message) => Stop::Refused(message),
        Err(_) => Stop::OutOfMemory,
    }
}

/// The file of this path is left as it was.
pub(crate) fn unreplaced(alloc: Global, path: &str) -> Stop
    // The stop has the message `not replaced`, or says that memory ran out.
    ensures { IsRefusal (not_replaced path.now) result }
{
    match format!(in alloc; "mimelook: {path}: not replaced\n") {
        Ok(message) => Stop::Refused(message),
        Err(_) => Stop::OutOfMemory,
    }
}

/// Says it on standard error. A fault there is ignored, unless memory ran out.
pub(crate) fn complain<E: Sink>(err: &mut E, text: &[u8]) -> Result<(), OutOfMemory>
    // Where standard error tells what it holds, the message is added, or what it begins with where memory runs out.
    ensures says { Says (E.holds err.old) (E.holds err.new) result text.now }
    // Memory does not run out where it tells that it has room for the message.
    ensures room { HasRoom (E.capacity err.old) (E.holds err.old) text.now → IsOk result }
    // It can hold as much as before.
    ensures capacity { E.capacity err.new ≡ E.capacity err.old }
{
    match put_now(err, text) {
        Err(SinkFault::OutOfMemory) => Err(OutOfMemory),
        Err(SinkFault::Failed) => Ok(()),
        Ok(()) => Ok(()),
    }
}

/// Says why a command stopped, and gives the exit status.
pub(crate) fn tell<E: Sink>(stop: &Stop, err: &mut E) -> u8
    // The message is said and the status is 3; or memory ran out, the status is 4, and that is said where there is room.
    ensures { TellsStop stop.now (E.capacity err.old) (E.holds err.old) (E.holds err.new) result }
{
    match say(stop, err) {
        Ok(()) => STOPPED,
        Err(OutOfMemory) => {
            let _ = complain(err, b"mimelook: out of memory\n");
            OUT_OF_MEMORY
        }
    }
}

// Says it, unless memory ran out.
fn say<E: Sink>(stop: &Stop, err: &mut E) -> Result<(), OutOfMemory>
    ensures says { SaysStop stop.now (E.holds err.old) (E.holds err.new) result }
    ensures capacity { E.capacity err.new ≡ E.capacity err.old }
{
    match stop {
        Stop::Refused(message) => complain(err, message.as_bytes()),
        Stop::CannotWrite => complain(err, b"mimelook: cannot write output\n"),
        Stop::OutOfMemory => Err(OutOfMemory),
    }
}
