//! Counts of work.

ghost use Rattle.std.specs.Prelude.{◌≡◌, ◌≤◌};
ghost use Rattle.mime_base.specs.Meter.{raised};

/// How much a lookup has looked at. Sums stop at the greatest number of 64 bits. This project's own.
#[derive(Clone, Copy, Debug, PartialEq, Eq)]
pub struct Meter {
    /// Records of a cache that were visited.
    pub nodes: u64,
    /// Bytes that were read or compared, and tests of a pattern's elements.
    pub bytes: u64,
}

impl Meter {
    /// A meter of zeros.
    pub fn new() -> Meter
        // Both counts are zero.
        ensures { result ≡ record { nodes = 0; bytes = 0 } }
    {
        Meter { nodes: 0, bytes: 0 }
    }

    /// Counts one record.
    #[inline]
    pub fn add_node(&mut self)
        // One record is counted and no byte, up to the greatest number.
        ensures added { self.new ≡ record self.old { nodes = raised self.old.nodes 1 } }
        // The count of records never falls.
        ensures rises { self.old.nodes ≤ self.new.nodes }
    {
        self.nodes = self.nodes.saturating_add(1);
    }

    /// Counts bytes or tests.
    #[inline]
    pub fn add_bytes(&mut self, count: u64)
        // That many bytes are counted and no record, up to the greatest number.
        ensures added { self.new ≡ record self.old { bytes = raised self.old.bytes count } }
        // The count of bytes never falls.
        ensures rises { self.old.bytes ≤ self.new.bytes }
    {
        self.bytes = self.bytes.saturating_add(count);
    }
}
