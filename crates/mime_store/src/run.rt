//! The pairs of one type.

ghost use Rattle.std.specs.Prelude.{◌≡◌, true};
ghost use Rattle.mime_store.specs.Texts.{fits_text};

use crate::text_pair::TextPair;

/// The pairs of one type.
#[derive(Drop)]
pub struct Run<'p, 'a> {
    pub kind: &'a [u8],
    pub pairs: &'p [TextPair<'a>],
    pub ghost kind_fits: { fits_text kind.now ≡ true },
}
