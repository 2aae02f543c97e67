//! The types that are fixed by the checking order and by the subclass rule.

/// The root of every type but `inode/*`, and the type of content that is not available.
pub const OCTET_STREAM: &[u8] = b"application/octet-stream";

/// The root of every `text/*` type.
pub const TEXT_PLAIN: &[u8] = b"text/plain";

/// The type of a content without bytes.
pub const ZERO_SIZE: &[u8] = b"application/x-zerosize";
