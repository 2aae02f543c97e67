//! Words that have to be type names.

ghost use Rattle.std.specs.Prelude.{◌≡◌, IfOk, MatchOption, []};
ghost use Rattle.std.specs.Prelude.{false, true};
ghost use Rattle.mime_base.specs.Names.{is_type_name};
ghost use Rattle.mime_tool.specs.Desk.{EndsOverFiles, Works};
ghost use Rattle.mime_tool.specs.Run.{mistaken};
ghost use Rattle.mime_tool.specs.TypeNames.{not_a_type};

use crate::desk::{Desk, report};
use crate::status::MISTAKEN;
use crate::stop::Stop;
use mime_base::{NameFault, OutOfMemory, TypeName};
use std::alloc::Global;

/// The word as a type name, where it is one.
pub(crate) fn type_name(alloc: Global, word: &str) -> Result<Option<TypeName>, OutOfMemory>
    // There is one where the word has the form of a type name, and it is the word.
    ensures { IfOk result (λ name. MatchOption name (is_type_name word.now ≡ false)
        (λ kind. (is_type_name word.now ≡ true) × (kind ≡ word.now))) }
{
    match TypeName::new(alloc, word.as_bytes()) {
        Ok(name) => Ok(Some(name)),
        Err(NameFault::OutOfMemory) => Err(OutOfMemory),
        Err(_) => Ok(None),
    }
}

/// Says that the word is no type name, and gives the status.
pub(crate) fn refuse<D: Desk>(desk: &mut D, word: &str) -> Result<u8, Stop>
    // The message names the word, and the status is that of a mistake.
    ensures { Works (EndsOverFiles (λ _ run. run ≡ mistaken (not_a_type word.now)) [])
        (D.state desk.old) (D.state desk.new) result }
{
    report(desk, b"not a type", word)?;
    Ok(MISTAKEN)
}
