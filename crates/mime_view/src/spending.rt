//! What a call has looked at, and what it may still take. This project's own.

use crate::budget::Budget;
use mime_base::Meter;

/// A meter and a budget, which go through a call together.
#[derive(Clone, Copy)]
pub struct Spending {
    /// What was looked at.
    pub meter: Meter,
    /// What may still be taken.
    pub budget: Budget,
}
