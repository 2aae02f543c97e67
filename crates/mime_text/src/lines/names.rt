//! Fields that are to be names.

ghost use Rattle.std.specs.Prelude.{◌≡◌, false, IfOk};
ghost use Rattle.mime_base.specs.Names.{is_icon_name, is_pattern, is_type_name};
ghost use Rattle.mime_text.specs.Lines.Names.{name_by};

use mime_base::{IconName, NameFault, OutOfMemory, Pattern, TypeName};
use std::alloc::Global;

/// The type name that a field spells, or `None` where it is past the limits of one.
pub fn type_name_of(alloc: Global, field: &[u8]) -> Result<Option<TypeName>, OutOfMemory>
    // It is the field as a type name, or none where the field is past the limits of one.
    ensures name { IfOk result (λ name. name ≡ name_by is_type_name field.now) }
    // Past the limits there is no name, however little memory there is.
    ensures refused { is_type_name field.now ≡ false → result ≡ Ok None }
{
    match TypeName::new(alloc, field) {
        Ok(name) => Ok(Some(name)),
        Err(NameFault::OutOfMemory) => Err(OutOfMemory),
        Err(_) => Ok(None),
    }
}

/// The pattern that a field spells, or `None` where it is past the limits of one.
pub fn pattern_of(alloc: Global, field: &[u8]) -> Result<Option<Pattern>, OutOfMemory>
    // It is the field as a pattern, or none where the field is past the limits of one.
    ensures pattern { IfOk result (λ pattern. pattern ≡ name_by is_pattern field.now) }
    // Past the limits there is no pattern, however little memory there is.
    ensures refused { is_pattern field.now ≡ false → result ≡ Ok None }
{
    match Pattern::new(alloc, field) {
        Ok(pattern) => Ok(Some(pattern)),
        Err(NameFault::OutOfMemory) => Err(OutOfMemory),
        Err(_) => Ok(None),
    }
}

/// The name of an icon that a field spells, or `None` where it is past the limits of one.
pub fn icon_name_of(alloc: Global, field: &[u8]) -> Result<Option<IconName>, OutOfMemory>
    // It is the field as the name of an icon, or none where the field is past the limits of one.
    ensures name { IfOk result (λ name. name ≡ name_by is_icon_name field.now) }
    // Past the limits there is no name, however little memory there is.
    ensures refused { is_icon_name field.now ≡ false → result ≡ Ok None }
{
    match IconName::new(alloc, field) {
        Ok(name) => Ok(Some(name)),
        Err(NameFault::OutOfMemory) => Err(OutOfMemory),
        Err(_) => Ok(None),
    }
}
