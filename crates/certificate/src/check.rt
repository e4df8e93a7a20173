ghost use Rattle.std.specs.Prelude.{◌≡◌, ◌/◌, ◌<◌, length, Some, None};
ghost use Rattle.loops.specs.Loop.{pick};
ghost use Rattle.groups.specs.Groups.{width};
ghost use Rattle.groups.specs.Row.{row_of};
ghost use Rattle.groups.specs.Traced.{code_of, closing_at};
ghost use Rattle.certificate.specs.Passes.{closing_end};
ghost use Rattle.certificate.specs.Check.{is_own, finite_point, same_point, own_of, chord_fits, point_verdict, points_verdict, same_row, closing_so, claim_so, check_of};

use geometry::point::LONGEST_CHORD;
use geometry::{Point3D, Tolerance};
use groups::row::{row_of, rows};
use groups::{Claim, Closing, Row, WIDTH};
use patch::{Parameters, Patch};
use refusal::{Refusal, asked};

fn finite_point(p: Point3D) -> bool
    ensures { result ≡ finite_point p }
{
    number::is_finite(p.x) && (number::is_finite(p.y) && number::is_finite(p.z))
}

// Kept (4): in bits, while a derived == would be numeric.
fn same_point(p: Point3D, q: Point3D) -> bool
    ensures { result ≡ same_point p q }
{
    number::same_bits(p.x, q.x) && (number::same_bits(p.y, q.y) && number::same_bits(p.z, q.z))
}

// What refusal 13 lets through.
fn own(stored: Point3D, fresh: Point3D) -> bool
    ensures { result ≡ own_of stored fresh }
{
    finite_point(fresh) && same_point(stored, fresh)
}

// The point that the closing chord comes to from the one before.
fn closing_end(count: usize, closing: Closing) -> Option<usize>
    requires { 0 < count }
    ensures { result ≡ closing_end count (code_of closing) }
{
    match closing {
        Closing::Open => None,
        Closing::Forward => Some(count - 1),
        Closing::Backward => Some(1),
    }
}

// What refusal 16 lets through: the chord to point i from the one before.
fn chord_fits(before: Row, row: Row, end: Option<usize>, i: usize) -> bool
    ensures { result ≡ chord_fits before row end i }
{
    i == 0 || (end == Some(i) || row.point().within(before.point(), LONGEST_CHORD))
}

// Refusals 14, 13, 15 and 16 of point i.
fn point_verdict(
    a: Patch,
    b: Patch,
    confusion: f64,
    before: Row,
    row: Row,
    end: Option<usize>,
    i: usize,
) -> Result<(), Refusal>
    ensures { result ≡ point_verdict (is_own a) a b confusion before row end i }
{
    let x = Parameters {
        u1: row.u1,
        v1: row.v1,
        u2: row.u2,
        v2: row.v2,
    };
    asked(patch::inside(a, b, x), Refusal::OutsideWindow(i as u64))?;
    let fresh = a.surface.eval_point(x.u1, x.v1);
    asked(own(row.point(), fresh), Refusal::NotOwnPoint(i as u64))?;
    let other = b.surface.eval_point(x.u2, x.v2);
    asked(fresh.within(other, confusion), Refusal::Gap(i as u64))?;
    asked(chord_fits(before, row, end, i), Refusal::Chord(i as u64))
}

// The first refusal of a point. Each row is read once.
fn points_verdict(
    a: Patch,
    b: Patch,
    confusion: f64,
    points: &[f64],
    end: Option<usize>,
) -> Result<(), Refusal>
    ensures { result ≡ points_verdict (is_own a) a b confusion (row_of points.now) (length points.now / width) end }
{
    let mut before = row_of(points, 0);
    for (i, numbers) in rows(points).iter().enumerate() {
        let row = Row::from(*numbers);
        point_verdict(a, b, confusion, before, row, end, i)?;
        before = row;
    }
    Ok(())
}

// Whether all numbers of two points are equal in bits.
fn same_row(p: Row, q: Row) -> bool
    ensures { result ≡ same_row p q }
{
    let (left, right) = (p.numbers(), q.numbers());
    let mut pairs = left.iter().zip(right.iter());
    pairs.all(|(x, y)| number::same_bits(*x, *y))
}

// Whether the trace is closed as it claims.
fn closing_so(points: &[f64], claim: Claim, closing: Closing) -> bool
    requires { 0 < claim.count }
    ensures { result ≡ closing_so (row_of points.now) claim.count claim.start (code_of closing) }
{
    let first = row_of(points, 0);
    match closing {
        Closing::Open => true,
        Closing::Forward => claim.start == 0 && same_row(row_of(points, claim.count - 1), first),
        Closing::Backward => 2 <= claim.start && same_row(first, row_of(points, claim.start)),
    }
}

// The closing claimed, where refusal 12 lets the claim through.
fn claimed(points: &[f64], claim: Claim) -> Option<Closing>
    ensures { result ≡ pick (claim_so (row_of points.now) claim.count claim.start claim.code) (Some (closing_at claim.code)) None }
{
    let closing = claim.closing()?;
    closing_so(points, claim, closing).then_some(closing)
}

// Whether the trace claimed, at the head of the list, passes: refusals A's 1 to 4, B's, 5, 8, 12, then point by point 14, 13, 15, 16.
pub fn check(a: Patch, b: Patch, tol: Tolerance, trace: &[f64], claim: Claim) -> Result<(), Refusal>
    ensures { result ≡ check_of a b tol trace.now claim.count claim.start claim.code }
{
    patch::pair_fitness(a, b, tol)?;
    asked(groups::holds(trace, claim.count), Refusal::Lent)?;
    let Some(closing) = claimed(trace, claim) else {
        return Err(Refusal::Claim);
    };
    let end = closing_end(claim.count, closing);
    points_verdict(a, b, tol.confusion, &trace[..WIDTH * claim.count], end)
}
