//! Where the pattern of a rule stands: it is lent by itself, or it stands in the text of an index.

ghost use Rattle.std.specs.Prelude.{◌≡◌};
ghost use Rattle.mime_names.specs.Patterns.{IsWithin, pattern_in};

/// Where a rule's pattern stands.
#[derive(Clone, Copy, Debug)]
pub enum PatternText<'a> {
    /// It is lent by itself.
    Lent(&'a [u8]),
    /// It stands in the text of an index, from a place on.
    Stored {
        /// Where it begins.
        start: usize,
        /// How many bytes it has.
        length: usize,
    },
}

/// A pattern's bytes, where those that stand in a text stand in this one.
#[inline]
pub fn bytes_of<'b>(patterns: &'b [u8], pattern: PatternText<'b>) -> &'b [u8]
    // It ends within the text.
    requires { IsWithin patterns.now pattern }
    // They are the pattern.
    ensures { result.now ≡ pattern_in patterns.now pattern.entry }
{
    match pattern {
        PatternText::Lent(bytes) => bytes,
        PatternText::Stored { start, length } => &patterns[start..start + length],
    }
}
