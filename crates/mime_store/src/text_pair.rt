//! Two texts that belong together.

ghost use Rattle.std.specs.Prelude.{◌≡◌, true};
ghost use Rattle.mime_store.specs.Texts.{fits_text};

/// Two texts that belong together, each of which a cache may hold.
#[derive(Drop)]
pub struct TextPair<'a> {
    pub first: &'a [u8],
    pub second: &'a [u8],
    pub ghost first_fits: { fits_text first.now ≡ true },
    pub ghost second_fits: { fits_text second.now ≡ true },
}
