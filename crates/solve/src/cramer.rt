//! Systems of 2 unknowns: `solve_2x2` of the Rust's `math/solve.rs`, and the test by which every square solver gives up.
//!
//! It answers for every input, NaNs and infinities too, and its answer is the one that `specs/Cramer.antt` computes.
ghost use Rattle.std.specs.Prelude.{◌≡◌};
ghost use Rattle.solve.specs.Cramer.{gives_up, determinant_of, scale2_of, cramer_of, solve2_of};

// Whether a pivot, or a determinant, is at most tol times the scale in magnitude. A NaN isn't; a NaN scale is as the smallest normal.
pub fn gives_up(pivot: f64, tol: f64, scale: f64) -> bool
    ensures { result ≡ gives_up pivot tol scale }
{
    number::abs(pivot) <= tol * number::max(scale, f64::MIN_POSITIVE)
}

// a d - b c.
fn determinant(a: [[f64; 2]; 2]) -> f64
    ensures { result ≡ determinant_of a }
{
    a[0][0] * a[1][1] - a[0][1] * a[1][0]
}

// What the determinant is measured against: its two products, of magnitudes and added.
fn scale2(a: [[f64; 2]; 2]) -> f64
    ensures { result ≡ scale2_of a }
{
    number::abs(a[0][0]) * number::abs(a[1][1]) + number::abs(a[0][1]) * number::abs(a[1][0])
}

// Cramer's rule, with the determinant at hand.
fn cramer(a: [[f64; 2]; 2], b: [f64; 2], det: f64) -> [f64; 2]
    ensures { result ≡ cramer_of a b det }
{
    [
        (b[0] * a[1][1] - b[1] * a[0][1]) / det,
        (a[0][0] * b[1] - a[1][0] * b[0]) / det,
    ]
}

// The 2 by 2 system a x = b, or None where the determinant is at most tol times its scale.
pub fn solve_2x2(a: [[f64; 2]; 2], b: [f64; 2], tol: f64) -> Option<[f64; 2]>
    ensures { result ≡ solve2_of a b tol }
{
    let det = determinant(a);
    if gives_up(det, tol, scale2(a)) {
        return None;
    }
    Some(cramer(a, b, det))
}
