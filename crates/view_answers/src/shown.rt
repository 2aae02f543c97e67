//! Texts of any bytes as they are printed.

use std::fmt;

/// A text in quotes, with a byte outside 33 to 126, a quote and a backslash as `\x` and two digits.
#[derive(Clone, Copy)]
pub struct Shown<'a>(pub &'a [u8]);

impl fmt::Display for Shown<'_> {
    fn fmt<W: fmt::Write>(&self, f: &mut fmt::Formatter<W>) -> fmt::Result {
        f.write_str("\"")?;
        for &byte in self.0 {
            if (33..=126).contains(&byte) && byte != b'"' && byte != b'\\' {
                write!(f, "{}", char::from(byte))?;
            } else {
                write!(f, "\\x{byte:02X}")?;
            }
        }
        f.write_str("\"")
    }
}
