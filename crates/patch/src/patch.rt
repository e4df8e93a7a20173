ghost use Rattle.std.specs.Prelude.{◌≡◌};
ghost use Rattle.patch.specs.Patch.{vector_fit, frame_fit, both_positive, cone_fits, numbers_fit, sizes_fit, window_fit};
ghost use Rattle.patch.specs.Patch.{u_is_angle, v_is_angle, mark_fit, fitness_of, window_holds, inside_of, bounded_of, within_bounds};

use analytic::Surface;
use geometry::{Frame3D, Vector3D};
use refusal::{Refusal, asked};

// A parameter's window and turn mark. A marked parameter has a period: its window is tested by fitness and then not applied.
#[derive(Clone, Copy)]
pub struct Window {
    pub low: f64,
    pub high: f64,
    pub turn: bool,
}

// A surface with the windows and turn marks of its two parameters.
// Kept (5): A and B, the tolerance and the parameters go beside one another, as in the Rust's `meet`, `land`, `tangent`, `predict`, `leaving`
// and `trace`; what stands between these hands the same on. A pair was tried (docs/DECISIONS.md).
#[derive(Clone, Copy)]
pub struct Patch {
    pub surface: Surface,
    pub u: Window,
    pub v: Window,
}

// The parameters of a pair of points: u and v on surface A, then on B.
#[derive(Clone, Copy)]
pub struct Parameters {
    pub u1: f64,
    pub v1: f64,
    pub u2: f64,
    pub v2: f64,
}

// Kept (2): a method beside `Point3D::is_fit` would stand in another crate for this one caller; points are asked in more places.
fn vector_fit(d: Vector3D) -> bool
    ensures { result ≡ vector_fit d }
{
    number::number_fit(d.x) && (number::number_fit(d.y) && number::number_fit(d.z))
}

fn frame_fit(f: Frame3D) -> bool
    ensures { result ≡ frame_fit f }
{
    f.origin.is_fit() && (vector_fit(f.x) && (vector_fit(f.y) && vector_fit(f.z)))
}

fn both_positive(a: f64, b: f64) -> bool
    ensures { result ≡ both_positive a b }
{
    0.0 < a && 0.0 < b
}

// A cone's semi-angle stays below it in magnitude.
const SEMI_ANGLE_LIMIT: f64 = 1.5;

fn cone_fits(r: f64, a: f64) -> bool
    ensures { result ≡ cone_fits r a }
{
    0.0 <= r && number::abs(a) < SEMI_ANGLE_LIMIT
}

// Refusal 1 lets the numbers of the frame and the sizes through.
fn numbers_fit(surface: Surface) -> bool
    ensures { result ≡ numbers_fit surface }
{
    match surface {
        Surface::Plane(f) => frame_fit(f),
        Surface::Cylinder(f, r) | Surface::Sphere(f, r) => frame_fit(f) && number::number_fit(r),
        Surface::Cone(f, a, b) | Surface::Torus(f, a, b) => {
            frame_fit(f) && (number::number_fit(a) && number::number_fit(b))
        }
    }
}

// Refusal 2 lets the sizes through.
fn sizes_fit(surface: Surface) -> bool
    ensures { result ≡ sizes_fit surface }
{
    match surface {
        Surface::Plane(_) => true,
        Surface::Cylinder(_, r) | Surface::Sphere(_, r) => 0.0 < r,
        Surface::Cone(_, r, a) => cone_fits(r, a),
        Surface::Torus(_, maj, min) => both_positive(maj, min),
    }
}

// Whether u is an angle.
fn u_is_angle(surface: Surface) -> bool
    ensures { result ≡ u_is_angle surface }
{
    !matches!(surface, Surface::Plane(_))
}

// Whether v is an angle with a period.
fn v_is_angle(surface: Surface) -> bool
    ensures { result ≡ v_is_angle surface }
{
    matches!(surface, Surface::Torus(_, _, _))
}

// A mark stands only on an angle.
fn mark_fit(turn: bool, angle: bool) -> bool
    ensures { result ≡ mark_fit turn angle }
{
    if turn { angle } else { true }
}

impl Window {
    // Refusal 3 lets the window through: no NaN, and the low end not above the high end.
    fn is_fit(self) -> bool
        ensures { result ≡ window_fit self }
    {
        self.low <= self.high
    }

    // Whether x lies inside the window, where that applies; a NaN does not.
    fn holds(self, x: f64) -> bool
        ensures { result ≡ window_holds self x }
    {
        if self.turn {
            true
        } else {
            self.low <= x && x <= self.high
        }
    }

    // x clamped to the window, where that applies.
    fn bounded(self, x: f64) -> f64
        ensures { result ≡ bounded_of self x }
    {
        if self.turn {
            x
        } else {
            number::clamp(x, self.low, self.high)
        }
    }
}

impl Patch {
    // Refusals 1 to 4, in that order.
    pub fn fitness(self) -> Result<(), Refusal>
        ensures { result ≡ fitness_of self }
    {
        asked(numbers_fit(self.surface), Refusal::Number)?;
        asked(sizes_fit(self.surface), Refusal::Size)?;
        asked(self.u.is_fit(), Refusal::Window)?;
        asked(self.v.is_fit(), Refusal::Window)?;
        asked(
            mark_fit(self.u.turn, u_is_angle(self.surface)),
            Refusal::TurnMark,
        )?;
        asked(
            mark_fit(self.v.turn, v_is_angle(self.surface)),
            Refusal::TurnMark,
        )
    }
}

// Whether every parameter lies inside its window, where that applies.
pub fn inside(a: Patch, b: Patch, x: Parameters) -> bool
    ensures { result ≡ inside_of a b x }
{
    a.u.holds(x.u1) && (a.v.holds(x.v1) && (b.u.holds(x.u2) && b.v.holds(x.v2)))
}

// The parameters, each clamped to its window where that applies: the Rust's `within_bounds`.
pub fn within_bounds(a: Patch, b: Patch, x: Parameters) -> Parameters
    ensures { result ≡ within_bounds a b x }
{
    Parameters {
        u1: a.u.bounded(x.u1),
        v1: a.v.bounded(x.v1),
        u2: b.u.bounded(x.u2),
        v2: b.v.bounded(x.v2),
    }
}
