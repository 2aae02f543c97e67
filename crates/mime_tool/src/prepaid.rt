//! What has to be paid before it is made. This project's own.
//!
//! Something that is made for many lookups takes work of its own. It is made once the lookups have visited as many records as
//! making it may visit: so a run visits at most as many for it as for its answers, whatever the data are and however long it is.

ghost use Rattle.std.specs.Prelude.{◌≡◌, nat_le};
ghost use Rattle.mime_base.specs.Meter.{raised};

/// What was paid for something, and what it costs, in records that are visited.
#[derive(Clone, Copy)]
pub(crate) struct Prepaid {
    paid: u64,
    cost: u64,
}

impl Prepaid {
    /// Nothing is paid yet.
    pub(crate) fn new(cost: u64) -> Prepaid
        // Nothing is paid, and it costs what is given.
        ensures { result ≡ record { paid = 0; cost = cost } }
    {
        Prepaid { paid: 0, cost }
    }

    /// What it costs.
    pub(crate) fn cost(self) -> u64
        // It is what was given.
        ensures { result ≡ self.cost }
    {
        self.cost
    }

    /// Adds what was visited.
    #[inline]
    pub(crate) fn pay(&mut self, visited: u64)
        // As much is paid more, up to the greatest number.
        ensures paid { self.new.paid ≡ raised self.old.paid visited }
        // It costs what it did.
        ensures cost { self.new.cost ≡ self.old.cost }
    {
        self.paid = self.paid.saturating_add(visited);
    }

    /// Whether it is paid.
    #[inline]
    pub(crate) fn is_paid(self) -> bool
        // It is once no less was paid than it costs.
        ensures { result ≡ nat_le self.cost self.paid }
    {
        self.cost <= self.paid
    }
}
