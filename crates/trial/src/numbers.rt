//! A fixed sequence of numbers, so that every run makes the same sheets.
ghost use Rattle.std.specs.Prelude.{◌-◌, ◌≤◌};

/// A linear congruential sequence.
#[derive(Clone, Copy, Debug)]
pub(crate) struct Numbers {
    state: u64,
}

impl Numbers {
    /// The sequence from its start.
    pub(crate) fn new() -> Numbers {
        Numbers { state: 2026 }
    }

    /// The next number below a bound, 0 where the bound is 0.
    pub(crate) fn below(&mut self, bound: u8) -> u8
        ensures { result ≤ bound - 1 }
    {
        let product = self.state.wrapping_mul(6_364_136_223_846_793_005);
        self.state = product.wrapping_add(1_442_695_040_888_963_407);
        ((self.state >> 33) % u64::from(bound.max(1))) as u8
    }

    /// One of two, as a coin.
    pub(crate) fn coin(&mut self) -> bool {
        self.below(2) == 1
    }
}
