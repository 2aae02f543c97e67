//! What a lookup is asked. This project's own.

ghost use Rattle.std.specs.Prelude.{◌≤◌, length};

use crate::order::Order;
use mime_base::Host;

/// A name, and how a type is chosen for it.
#[derive(Clone, Copy)]
pub struct Question<'q> {
    /// The name.
    pub name: &'q [u8],
    /// How numbers of the host's byte order are compared with a content.
    pub host: Host,
    /// Whether the globs or the content's magic are asked first, or the content alone.
    pub order: Order,
    /// The name is no longer than a name may be.
    pub ghost short: { length name.now ≤ 4096 },
}
