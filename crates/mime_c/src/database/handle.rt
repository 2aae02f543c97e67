//! What C passes of a database that is open.

ghost use Rattle.std.specs.Prelude.{◌≡◌, Option, Some, None, MatchOption};
ghost use denote.RawPtr.{null_ptr};
ghost use Rattle.mime_c.specs.Opened.{Opened};
ghost use Rattle.mime_c.specs.Owned.{owns_open};

use crate::database::heap_value::HeapValue;
use crate::database::open_database::OpenDatabase;
use std::alloc::Global;
use std::marker::Model;

/// The address of a database that is open, with what lies there, or NULL. To C it is the address alone.
#[repr(C)]
pub struct Handle {
    address: *mut u8,
    alloc: Global,
    /// What is open, if anything is.
    pub ghost opened: { Option Opened },
}

impl Model for Handle {
    ghost also_owns = { λ it. owns_open it.alloc it.address it.opened };
}

impl Handle {
    /// What is open, if anything is.
    pub(super) fn into_value(self) -> Option<HeapValue<OpenDatabase, Global>>
        // It lies at the address; only at NULL there is nothing.
        ensures { MatchOption result ((self.address ≡ null_ptr) × (self.opened ≡ None))
            (λ opened. (opened.address ≡ self.address) × (self.opened ≡ Some opened.value)) }
    {
        let Handle { address, alloc } = self;
        if address.is_null() {
            None
        } else {
            Some(HeapValue {
                address: address as *mut OpenDatabase,
                alloc,
            })
        }
    }
}
