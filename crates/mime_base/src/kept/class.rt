//! The class of a pattern, by which rules are stored, sought and ranked. This project's own.

ghost use Rattle.std.specs.Prelude.{◌≡◌};
ghost use Rattle.mime_base.specs.Kept.Classes.{class_of};

use crate::matching::elements::is_literal_text;
use crate::names::Pattern;

/// What a pattern can match: one text, the names with one ending, or more than that.
///
/// Of the rules that match a name, those of the first class here that has one are kept.
#[derive(Clone, Copy, Debug, PartialEq, Eq)]
pub enum Class {
    /// A text without `*`, `?`, `[` and `\`, as `makefile`: it matches that text alone.
    Literal,
    /// A `*` and then such a text, as `*.tar.gz`: it matches the names that end so.
    Suffix,
    /// Any other pattern, as `*.[ch]`.
    Full,
}

/// The class of a pattern: [`Class::Suffix`] of `*.txt`.
pub fn class_of(pattern: &Pattern) -> Class
    // Literal without `*`, `?`, `[` and `\`; Suffix with a `*` before such a text; else Full.
    ensures { result ≡ class_of pattern.now }
{
    pattern.class
}

/// The class of any text, by the same rule.
#[tactic(auto, unfolding(crate::specs::Kept::Classes::class_of))]
pub fn class_of_bytes(text: &[u8]) -> Class
    // Literal without `*`, `?`, `[` and `\`; Suffix with a `*` before such a text; else Full.
    ensures { result ≡ class_of text.now }
{
    match text {
        [b'*', rest @ ..] => if is_literal_text(rest) {
            Class::Suffix
        } else {
            Class::Full
        },
        _ => if is_literal_text(text) {
            Class::Literal
        } else {
            Class::Full
        },
    }
}
