//! The icons of a type, for one question over a database ("Directory layout").

ghost use Rattle.std.specs.Prelude.{◌≡◌, IfOk, option_map};
ghost use Rattle.mime_base.specs.Database.{plain_database};
ghost use Rattle.mime_base.specs.Database.PlainPairs.{plain_icons};
ghost use Rattle.mime_lookup.specs.Icons.{icons_of, plain_icons_of};
ghost use Rattle.mime_view.specs.Pairs.{looked_up};

use crate::cached::icons::{Icons, generic_or_media, icon_or_hyphens};
use crate::pairs::{is_same, unalias};
use mime_base::{Database, Icon, Meter, OutOfMemory, TypeName};
use std::alloc::Global;

/// The names of a type's icons, over a database ("Directory layout").
///
/// The type is resolved by one alias step first. Where the database names no icon, it is the type with `-` for each `/`; where it names
/// no generic icon, it is what stands before the type's first `/` and `-x-generic`. That is this project's own. All lists are gone
/// through, and the meter counts nothing of that.
pub fn icon_of_plain(
    alloc: Global,
    database: &Database,
    kind: &TypeName,
) -> Result<Icons, OutOfMemory>
    // These are the icons of the type.
    ensures answer { IfOk result (λ icons. plain_icons_of icons ≡ icons_of (plain_database database.now) kind.now) }
    // Nothing is counted.
    ensures counts { IfOk result (λ icons. icons.meter ≡ record { nodes = 0; bytes = 0 }) }
{
    let kind = unalias(&database.aliases, kind.bytes());
    let icon = icon_or_hyphens(alloc, name_among(&database.icons, kind), kind)?;
    let generic = generic_or_media(alloc, name_among(&database.generic_icons, kind), kind)?;
    Ok(Icons {
        icon,
        generic,
        meter: Meter::new(),
    })
}

/// The name of a type's icon, where one of these is its own.
fn name_among<'a>(icons: &'a [Icon], kind: &[u8]) -> Option<&'a [u8]>
    ensures { option_map (λ name. name.now) result ≡ looked_up (plain_icons icons.entry.now) kind.now }
{
    for icon in icons {
        if is_same(icon.kind.bytes(), kind) {
            return Some(icon.name.bytes());
        }
    }
    None
}
