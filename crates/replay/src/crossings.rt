//! Crossings with the answer of the Rust and the reason by a second reading of request A6, or the refusal by the scope's rule: 121 words,
//! confusion, angular, how many numbers are lent, the count, how many corners are given, six corners, the word of the crossing, that of
//! `explain`, and three coordinates for each of 36 points, zeros behind. The reason tells the stretch.
use crate::compared::Compared;
use boxes::Aabb;
use geometry::{Point3D, Tolerance};
use recorded::words::{RECORD, at_most, load, word};

pub struct Crossings;

// The lent points. The parameters are NaNs but for the last, which tells the points apart: no answer depends on them.
fn points(bytes: &[u8; RECORD]) -> [[f64; 7]; 36] {
    let nan = f64::NAN;
    let mut points = [[nan; 7]; 36];
    let pairs = points.iter_mut().zip(bytes[104..].chunks_exact(24));
    for (i, (point, words)) in pairs.enumerate() {
        load(words, &mut point[..3]);
        point[6] = i as f64;
    }
    points
}

// The two points of the segment that the word of a reason names, or nothing.
fn told(points: &[f64], reason: u64) -> &[f64] {
    // No refusal, and the kind of reason that is a segment.
    if reason % 65536 != 256 {
        return &points[..0];
    }
    let first = 7 * at_most(reason >> 32, 34);
    points.get(first..first + 14).unwrap_or(&points[..0])
}

// The stretch that is answered; nothing where too few corners are given to ask for one.
fn stretch<'a>(tol: Tolerance, points: &'a [f64], count: u64, corners: &[f64]) -> &'a [f64] {
    let Some(c) = corners.first_chunk::<6>() else {
        return &points[..0];
    };
    let low = Point3D::new(c[0], c[1], c[2]);
    let high = Point3D::new(c[3], c[4], c[5]);
    boxes::explain::stretch(tol, points, count as usize, Aabb { low, high })
}

// Whether the numbers are the same in bits.
fn same_numbers(a: &[f64], b: &[f64]) -> bool {
    let mut pairs = a.iter().zip(b.iter());
    a.len() == b.len() && pairs.all(|(x, y)| number::same_bits(*x, *y))
}

impl Compared for Crossings {
    const NAME: &'static str = "crossings";

    fn size() -> usize {
        968
    }

    fn same(bytes: &[u8; RECORD]) -> bool {
        let mut sides = [0.0; 6];
        load(&bytes[40..], &mut sides);
        let points = points(bytes);
        let lent = &points.as_flattened()[..at_most(word(bytes, 16), 252)];
        let corners = &sides[..at_most(word(bytes, 32), 6)];
        let confusion = number::from_bits(word(bytes, 0));
        let angular = number::from_bits(word(bytes, 8));
        let count = word(bytes, 24);
        let reason = word(bytes, 96);
        let tol = Tolerance {
            confusion,
            angular,
            parametric: 0.0,
        };
        capi::geomcore_crossing(confusion, angular, lent, count, corners) == word(bytes, 88)
            && capi::geomcore_explain(confusion, angular, lent, count, corners) == reason
            && same_numbers(stretch(tol, lent, count, corners), told(lent, reason))
    }
}
