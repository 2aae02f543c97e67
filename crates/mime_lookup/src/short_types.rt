//! The law of short types: no type of a database has more than 255 bytes.

ghost use Rattle.std.specs.Prelude.{◌≤◌, All, length};
ghost use Rattle.mime_base.specs.Database.{plain_database};
ghost use Rattle.mime_base.specs.Database.PlainPairs.{plain_pairs};
ghost use Rattle.mime_base.specs.Magic.{plain_sections};
ghost use Rattle.mime_lookup.specs.ShortTypes.{HasShortTypes};

use mime_base::{Database, Pair, Section, TypeName};

/// The law of short types.
pub fn types_are_short(database: &Database)
    // Each type that a section gives, and each that an alias stands for, has at most 255 bytes.
    ensures { HasShortTypes (plain_database database.now) }
{
    sections_are_short(&database.sections);
    targets_are_short(&database.aliases);
}

/// The law of short types for sections.
fn sections_are_short(sections: &[Section])
    ensures { All (λ section. length section.kind ≤ 255) (plain_sections sections.now) }
{
    for section in sections {
        type_is_short(&section.kind);
    }
}

/// The law of short types for what pairs point to.
fn targets_are_short(pairs: &[Pair])
    ensures { All (λ pair. length pair.1 ≤ 255) (plain_pairs pairs.now) }
{
    for pair in pairs {
        type_is_short(&pair.target);
    }
}

/// The law of short types for one.
fn type_is_short(kind: &TypeName)
    ensures { length kind.now ≤ 255 }
{
    kind.bytes();
}
