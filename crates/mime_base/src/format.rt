//! Worked rows of the format of a cache, so that its definitions are tried before a body stands on them.
//!
//! The functions do nothing. The cache was made by hand.

ghost use Rattle.std.specs.Prelude.{◌≡◌};
ghost use Rattle.mime_base.specs.Format.Packed.{Packed};
ghost use Rattle.mime_base.specs.Format.Room.{room};
ghost use Rattle.mime_base.specs.Format.Sample.{empty_database, sample, sample_database};
ghost use Rattle.mime_base.specs.Format.Spells.{Spells};

/// A cache of 240 bytes spells its database, and is packed.
pub fn sample_is_spelled()
    // A cache that was written by hand from the public specification spells the database that it was meant to.
    ensures spells { Spells sample sample_database }
    // The records that a reader may visit, and the values, take no more bytes than the cache has.
    ensures packed { Packed sample sample_database }
{}

/// The bytes that this database and the empty one take where no text is shared.
#[tactic(auto, unfolding(crate::specs::Kept::Classes::class_of))]
pub fn rooms()
    // The sample takes 256 bytes where no text is shared.
    ensures sample { room sample_database ≡ 256 }
    // The empty database takes 88 bytes: header, counts and heads.
    ensures empty { room empty_database ≡ 88 }
{}
