//! Numbers in no order, the same each time.
ghost use Rattle.std.specs.Prelude.{◌<◌};

/// A row of numbers: those of bench/orders.py.
#[derive(Drop)]
pub struct Numbers {
    pub state: u64,
}

impl Numbers {
    /// The next number, below the bound.
    pub fn below(&mut self, bound: u32) -> u32
        requires { 0 < bound }
        ensures { result < bound }
    {
        self.state = self.state.wrapping_mul(1_103_515_245).wrapping_add(12345) % 2_147_483_648;
        ((self.state >> 16) % u64::from(bound)) as u32
    }
}
