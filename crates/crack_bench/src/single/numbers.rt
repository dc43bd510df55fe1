//! The pseudorandom numbers of a run, the same in each language.
ghost use Rattle.std.specs.Prelude.{◌<◌};

/// A linear congruential generator (Knuth's MMIX). Only the high bits are used.
#[derive(Clone, Copy)]
pub struct Numbers {
    pub state: u64,
}

impl Numbers {
    /// The next number below `bound`, which must be at most 2^31.
    pub fn below(&mut self, bound: u64) -> u64
        requires { 0 < bound }
        ensures { result < bound }
    {
        u64::from(self.word() >> 1) % bound
    }

    /// The next 32-bit number.
    pub fn word(&mut self) -> u32 {
        self.state = self
            .state
            .wrapping_mul(6364136223846793005)
            .wrapping_add(1442695040888963407);
        (self.state >> 32) as u32
    }
}

/// The checksum `sum` with a value mixed in. The order of the values matters.
pub fn mixed(sum: u64, value: u64) -> u64 {
    (sum ^ value).wrapping_mul(1099511628211)
}
