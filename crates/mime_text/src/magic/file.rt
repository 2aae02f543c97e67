//! What a file `magic` says.

ghost use Rattle.std.specs.Prelude.{◌≡◌, true};
ghost use Rattle.mime_base.specs.Magic.{are_allowed_sections, plain_sections};

use mime_base::{Section, TypeName};

/// The sections of one file `magic`, and what they delete in less preferred directories.
#[derive(Debug, Drop)]
pub struct MagicFile {
    /// The sections that keep a line, in the order of the file.
    pub sections: Vec<Section>,
    /// The types whose sections of less preferred directories are deleted.
    pub deleted: Vec<TypeName>,
    /// Each line is one that `magic` can spell.
    pub ghost allowed: { are_allowed_sections (plain_sections sections.items) ≡ true },
}
