//! Bytes that are to be type names.

ghost use Rattle.std.specs.Prelude.{◌≡◌, ◌⊎◌, MatchResult, true, false};
ghost use Rattle.mime_base.specs.Names.{is_type_name};
ghost use Rattle.mime_c.specs.Status.{status_not_a_type, status_out_of_memory};

use crate::status::{NOT_A_TYPE, OUT_OF_MEMORY};
use mime_base::{NameFault, TypeName, is_type_name};
use std::alloc::Global;

/// Whether bytes are a type's name.
#[unsafe(no_mangle)]
pub extern "C" fn mimelook_is_type_name(bytes: &[u8]) -> bool
    // It says whether they keep the limits of a type's name.
    ensures { result ≡ is_type_name bytes.now }
{
    is_type_name(bytes)
}

/// The bytes as a type name, or the status that says why there is none.
pub fn type_name(alloc: Global, bytes: &[u8]) -> Result<TypeName, u32>
    // The bytes as a type's name if they are one, else the status of a name that is not one, or of no memory.
    ensures { MatchResult result (λ name. (is_type_name bytes.now ≡ true) × (name ≡ bytes.now))
        (λ status. ((status ≡ status_not_a_type) × (is_type_name bytes.now ≡ false))
        ⊎ ((status ≡ status_out_of_memory) × (is_type_name bytes.now ≡ true))) }
{
    match TypeName::new(alloc, bytes) {
        Ok(name) => Ok(name),
        Err(NameFault::OutOfMemory) => Err(OUT_OF_MEMORY),
        Err(_) => Err(NOT_A_TYPE),
    }
}
