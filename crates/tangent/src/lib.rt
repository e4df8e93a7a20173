//! The direction of the curve where two patches meet: `tangent` of the Rust's intersect/marching.rs.
#![tactic(auto)]

ghost use Rattle.std.specs.Prelude.{◌≡◌, true, T};
ghost use Rattle.number.specs.Operators.{bits, ◌⊗◌, ◌≤?◌};
ghost use Rattle.number.specs.Helpers.{min_positive, max_of};
ghost use Rattle.sqrt.specs.Sqrt.{sqrt_of};
ghost use Rattle.tangent.specs.Tangent.{normal_of, unit_cross, tangent_of};

use geometry::{Tolerance, Vector3D};
use patch::{Parameters, Patch};

// The largest moderate number, 2^20.
const MOST: f64 = 1048576.0;

// The vector product of the first derivatives.
fn normal(patch: Patch, u: f64, v: f64) -> Vector3D
    ensures { result ≡ normal_of patch u v }
{
    let d = patch.surface.eval_d1(u, v);
    d.u.cross(d.v)
}

// From the smallest normal number to 2^20.
fn moderate(x: f64) -> bool
    ensures { result ≡ true → T (min_positive ≤? x) × T (x ≤? bits 0x4130_0000_0000_0000) }
{
    f64::MIN_POSITIVE <= x && x <= MOST
}

// Whether the length is at most angular times the product of the roots of a and b, or times the smallest normal number if that is greater.
// Of moderate numbers the product is at most 2^20, which mostly tells it without the roots.
fn parallel(a: f64, b: f64, length: f64, angular: f64) -> bool
    ensures { result ≡ (length ≤? angular ⊗ max_of (sqrt_of a ⊗ sqrt_of b) min_positive) }
{
    if moderate(a) && moderate(b) && moderate(angular) && angular * MOST < length {
        return false;
    }
    let scale = sqrt::sqrt(a) * sqrt::sqrt(b);
    length <= angular * number::max(scale, f64::MIN_POSITIVE)
}

// The unit vector along na x nb, unless that is too short beside |na||nb|.
fn unit_cross(na: Vector3D, nb: Vector3D, angular: f64) -> Option<Vector3D>
    ensures { result ≡ unit_cross na nb angular }
{
    let t = na.cross(nb);
    let length = t.magnitude();
    if parallel(na.dot(na), nb.dot(nb), length, angular) {
        None
    } else {
        Some(t * (1.0 / length))
    }
}

// The unit tangent of the curve at x; none where the surfaces are too nearly parallel.
pub fn tangent(a: Patch, b: Patch, x: Parameters, tol: Tolerance) -> Option<Vector3D>
    ensures { result ≡ tangent_of a b x tol }
{
    let na = normal(a, x.u1, x.v1);
    let nb = normal(b, x.u2, x.v2);
    unit_cross(na, nb, tol.angular)
}
