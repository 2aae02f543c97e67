//! The numbers of statuses. This project's own.

/// There is an answer.
pub const ANSWERED: u32 = 0;

/// The name has more than 4,096 bytes.
pub const NAME_TOO_LONG: u32 = 1;

/// An allocation was refused.
pub const OUT_OF_MEMORY: u32 = 2;

/// Bytes that have to be a type name are not one.
pub const NOT_A_TYPE: u32 = 3;

/// A buffer has no room for what goes into it.
pub const SHORT_BUFFER: u32 = 4;

/// The cache ends inside its header.
pub const TRUNCATED: u32 = 5;

/// The cache has another version than 1.2.
pub const VERSION: u32 = 6;

/// A cache has, or would have, more than 268,435,456 bytes.
pub const TOO_LARGE: u32 = 7;

/// What is needed does not lie in the cache.
pub const OUT_OF_RANGE: u32 = 8;

/// No text ends within 256 bytes.
pub const LONG_TEXT: u32 = 9;

/// The records of the cache were visited too often.
pub const SPENT: u32 = 10;

/// Records lie deeper than is allowed.
pub const TOO_DEEP: u32 = 11;

/// The checking order's number is of none.
pub const UNKNOWN_ORDER: u32 = 12;

/// A text of `magic` is refused.
pub const BAD_MAGIC: u32 = 13;

/// There is no database that is open: NULL was given.
pub const NOT_OPEN: u32 = 14;
