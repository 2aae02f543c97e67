//! Exit statuses. This project's own.

/// Every file was answered, or help was shown.
pub(crate) const ANSWERED: u8 = 0;

/// Some file was not answered.
pub(crate) const NOT_ANSWERED: u8 = 1;

/// The command line is wrong.
pub(crate) const MISTAKEN: u8 = 2;

/// The data can't be read, or standard output can't be written.
pub(crate) const STOPPED: u8 = 3;

/// Memory ran out.
pub(crate) const OUT_OF_MEMORY: u8 = 4;
