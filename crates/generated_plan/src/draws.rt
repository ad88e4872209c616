ghost use Rattle.std.specs.Prelude.{◌≡◌};
ghost use Rattle.generated_plan.specs.Draws.{draw, number_after};

// What the number of the last draw is multiplied by.
const FACTOR: u64 = 6_364_136_223_846_793_005;

// What is added then.
const STEP: u64 = 1_442_695_040_888_963_407;

/// Numbers that are drawn one after another.
#[derive(Drop)]
pub(crate) struct Draws {
    number: u64,
}

impl Draws {
    /// The draws that a number begins.
    pub(crate) fn from_seed(seed: u64) -> Draws
        ensures { result.number ≡ seed }
    {
        Draws { number: seed }
    }

    /// Draws a number below 2^31.
    pub(crate) fn next(&mut self) -> u64
        ensures number { self.new.number ≡ number_after self.old.number }
        ensures value { result ≡ draw self.old.number }
    {
        self.number = self.number.wrapping_mul(FACTOR).wrapping_add(STEP);
        self.number >> 33
    }
}
