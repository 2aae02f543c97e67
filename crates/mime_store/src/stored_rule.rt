//! A rule with what a cache stores of its pattern.

ghost use Rattle.std.specs.Prelude.{◌≡◌, true};
ghost use Rattle.mime_base.specs.Format.Stored.{stored_text};
ghost use Rattle.mime_store.specs.Texts.{fits_text};

use mime_base::GlobRule;

/// A rule with its stored text.
#[derive(Drop)]
pub struct StoredRule<'a> {
    pub text: Vec<u8>,
    pub rule: &'a GlobRule,
    pub ghost is_stored: { text.items ≡ stored_text rule.now },
    pub ghost text_fits: { fits_text text.items ≡ true },
}
