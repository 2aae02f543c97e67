//! Reader of `icons` and `generic-icons` ("Directory layout").
//!
//! A line is `type:name`. The name of the icon is all after the first colon.

ghost use Rattle.std.specs.Prelude.{◌≡◌, IfOk};
ghost use Rattle.std.specs.Option.{option_map};
ghost use Rattle.mime_text.specs.Lines.{skipped_of};
ghost use Rattle.mime_text.specs.Lines.Icons.{at_colon, icon_of, icons_in, is_malformed_icon};

use super::file::{LineEntry, LineFile, read_lines};
use super::names::{icon_name_of, type_name_of};
use memchr::memchr;
use mime_base::{Icon, OutOfMemory};
use std::alloc::Global;

/// What an `icons` or a `generic-icons` file says.
#[derive(Debug, Drop)]
pub struct IconsFile {
    /// The icons, in the order of their lines.
    pub icons: Vec<Icon>,
    /// The numbers of the malformed lines, rising and counted from 1.
    pub skipped: Vec<u64>,
}

/// Reads an `icons` or a `generic-icons` file. It fails only where an allocation is refused.
///
/// A malformed line is told by its number. Empty lines and comments are skipped.
pub fn read_icons(alloc: Global, bytes: &[u8]) -> Result<IconsFile, OutOfMemory>
    // The icons are those that the lines spell, in order, repetitions kept: a type, and all after the first colon.
    ensures icons { IfOk result (λ file. file.icons.items ≡ icons_in bytes.now) }
    // The numbers of the malformed lines, rising; the first line is 1, and empty lines and comments count too.
    ensures skipped { IfOk result (λ file. file.skipped.items ≡ skipped_of is_malformed_icon bytes.now) }
{
    let file: LineFile<Icon> = read_lines(alloc, bytes)?;
    Ok(IconsFile {
        icons: file.entries,
        skipped: file.skipped,
    })
}

impl LineEntry for Icon {
    ghost use Rattle.mime_text.specs.Lines.Icons.{icon_of};

    ghost entry_of = { icon_of };

    #[tactic(auto, unfolding(crate::specs::Lines::Icons::icon_of))]
    fn read(alloc: Global, line: &[u8]) -> Result<Option<Icon>, OutOfMemory> {
        let Some((kind, name)) = cut_at_colon(line) else {
            return Ok(None);
        };
        let Some(kind) = type_name_of(alloc, kind)? else {
            return Ok(None);
        };
        let Some(name) = icon_name_of(alloc, name)? else {
            return Ok(None);
        };
        Ok(Some(Icon { kind, name }))
    }
}

/// The bytes before the first colon and those after it.
fn cut_at_colon(line: &[u8]) -> Option<(&[u8], &[u8])>
    ensures { option_map (λ parts. (parts.0.now, parts.1.now)) result ≡ at_colon line.now }
{
    match memchr(b':', line) {
        Some(at) => Some((&line[..at], &line[at + 1..])),
        None => None,
    }
}
