// `predict` of the Rust.
ghost use Rattle.std.specs.Prelude.{◌≡◌};
ghost use Rattle.marching.specs.Predict.{moved_by, or_zero, predict_of};

use analytic::Derivatives;
use geometry::Vector3D;
use patch::{Parameters, Patch};
use solve::cramer::solve_2x2;

// How far u and v move, to first order, by the displacement d; not at all where the tangent plane degenerates. It takes the derivatives
// and not the patch, which would be copied at each call.
fn shift(s: Derivatives, d: Vector3D) -> [f64; 2]
    ensures { result ≡ or_zero (moved_by s d) }
{
    let uu = s.u.dot(s.u);
    let uv = s.u.dot(s.v);
    let vv = s.v.dot(s.v);
    solve_2x2(
        [[uu, uv], [uv, vv]],
        [s.u.dot(d), s.v.dot(d)],
        solve::SOLVER_TOL,
    )
    .unwrap_or([0.0, 0.0])
}

// The parameters moved to first order by the displacement d on both surfaces.
pub fn predict(a: Patch, b: Patch, x: Parameters, d: Vector3D) -> Parameters
    ensures { result ≡ predict_of a b x d }
{
    let [du1, dv1] = shift(a.surface.eval_d1(x.u1, x.v1), d);
    let [du2, dv2] = shift(b.surface.eval_d1(x.u2, x.v2), d);
    Parameters {
        u1: x.u1 + du1,
        v1: x.v1 + dv1,
        u2: x.u2 + du2,
        v2: x.v2 + dv2,
    }
}
