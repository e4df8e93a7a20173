// One of the four parameters by its index: u1, v1, u2, v2; an index above 3 counts as 3.
// Kept (4): the Rust's `[f64; 4]` is a struct here, whose parts all but pins and their corrections call by name.
ghost use Rattle.std.specs.Prelude.{◌≡◌};
ghost use Rattle.meeting.specs.Correction.{parameter_of, with_parameter};

use patch::Parameters;

// Parameter k.
pub(crate) fn parameter(x: Parameters, k: usize) -> f64
    ensures { result ≡ parameter_of x k }
{
    match k {
        0 => x.u1,
        1 => x.v1,
        2 => x.u2,
        _ => x.v2,
    }
}

// The parameters with the k-th replaced.
pub(crate) fn with_parameter(x: Parameters, k: usize, value: f64) -> Parameters
    ensures { result ≡ with_parameter x k value }
{
    match k {
        0 => Parameters { u1: value, ..x },
        1 => Parameters { v1: value, ..x },
        2 => Parameters { u2: value, ..x },
        _ => Parameters { v2: value, ..x },
    }
}
