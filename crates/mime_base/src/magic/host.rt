//! The order of bytes in a number.

/// Which byte of a number of several bytes comes first on the machine that a lookup speaks for.
///
/// Magic values are stored with the highest byte first; a line with a word size reads the content in
/// groups in the machine's order ("The magic files").
#[derive(Clone, Copy, Debug, PartialEq, Eq)]
pub enum Host {
    /// The lowest byte first.
    Little,
    /// The highest byte first.
    Big,
}
