//! Numbers that follow no pattern, and are the same again for the same seed: SplitMix64, by Steele, Lea and Flood.

/// A source of numbers.
#[derive(Clone, Copy)]
pub struct Random {
    state: u64,
}

impl Random {
    pub fn new(seed: u64) -> Random {
        Random { state: seed }
    }

    /// The next number.
    pub fn next(&mut self) -> u64 {
        self.state = self.state.wrapping_add(0x9E37_79B9_7F4A_7C15);
        let mut mixed = self.state;
        mixed = (mixed ^ (mixed >> 30)).wrapping_mul(0xBF58_476D_1CE4_E5B9);
        mixed = (mixed ^ (mixed >> 27)).wrapping_mul(0x94D0_49BB_1331_11EB);
        mixed ^ (mixed >> 31)
    }

    /// A number below a limit, each as likely; 0 where the limit is 0.
    pub fn below(&mut self, limit: usize) -> usize {
        ((self.next() >> 32).wrapping_mul(limit as u64) >> 32) as usize
    }

    /// A number below a limit by a power law: of some thousand, one in four is the first.
    pub fn few(&mut self, limit: usize) -> usize {
        let one = self.next() >> 48;
        let two = one.wrapping_mul(one) >> 16;
        let four = two.wrapping_mul(two) >> 16;
        let five = four.wrapping_mul(one) >> 16;
        (five.wrapping_mul(limit as u64) >> 16) as usize
    }

    /// Whether something comes about that does so `percent` times in 100.
    pub fn chance(&mut self, percent: usize) -> bool {
        self.below(100) < percent
    }

    /// One of these numbers, each as likely.
    pub fn among(&mut self, numbers: &[usize]) -> usize {
        let place = self.below(numbers.len());
        numbers.get(place).copied().unwrap_or(0)
    }
}
