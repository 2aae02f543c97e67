//! The checking orders.

/// Whether the globs or the content's magic are asked first, or the content alone is asked.
#[derive(Clone, Copy, Debug, PartialEq, Eq)]
pub enum Order {
    /// As in "Recommended checking order": the content is read only where the globs conflict or
    /// are silent.
    GlobsFirst,
    /// Where content is available and the first section that holds has a priority of 80 or more,
    /// its type is the answer; else as the other order. This project's own.
    MagicFirst,
    /// All rules that match are candidates, and the content is read where these are not one type; where a section of
    /// magic holds, it chooses among all of them, else among those that [`Order::GlobsFirst`] keeps. This project's own.
    AllGlobs,
    /// The type that the content is sniffed as is the answer, whatever the name is. This project's
    /// own.
    ContentOnly,
}
