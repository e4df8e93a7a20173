//! Tolerances, after the Rust's tolerance.rs, and refusal 5.
ghost use Rattle.std.specs.Prelude.{◌≡◌};
ghost use Rattle.geometry.specs.Tolerance.{tolerance_fit};

// How close is close: lengths by confusion, angles by angular. The parametric tolerance is carried and not read.
#[derive(Clone, Copy)]
pub struct Tolerance {
    pub confusion: f64,
    pub angular: f64,
    pub parametric: f64,
}

// Chord deviation allowed per step, in multiples of confusion.
pub const CHORD_DEVIATION: f64 = 1000.0;

// 2^-40.
const LEAST_CONFUSION: f64 = 9.094947017729282e-13;

impl Tolerance {
    pub const DEFAULT: Tolerance = Tolerance {
        confusion: 1e-7,
        angular: 1e-12,
        parametric: 1e-9,
    };

    // Whether refusal 5 lets the tolerance through: confusion within 2^-40 to 1, angular within 0 to 1.
    pub fn is_fit(self) -> bool
        ensures { result ≡ tolerance_fit self }
    {
        LEAST_CONFUSION <= self.confusion
            && (self.confusion <= 1.0 && (0.0 <= self.angular && self.angular <= 1.0))
    }
}
