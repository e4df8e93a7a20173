// `leaving` of the Rust.
ghost use Rattle.std.specs.Prelude.{◌≡◌};
ghost use Rattle.number.specs.Operators.{◌<?◌};
ghost use Rattle.marching.specs.Leaving.{lesser_of, consider_of, first_exit, leaving_of};

use patch::{Parameters, Patch, Window};

// The parameter that a move takes out of its window first, and the bound that it oversteps.
#[derive(Clone, Copy)]
pub struct Exit {
    pub index: usize,
    pub bound: f64,
}

// The exit found so far, with the fraction of the move at which it lies.
#[derive(Clone, Copy)]
struct First {
    exit: Exit,
    fraction: f64,
}

// The lesser of the exit so far and another; the one so far on a tie, and also where either fraction is a NaN.
fn lesser(first: Option<First>, other: First) -> Option<First>
    ensures { result ≡ lesser_of first other.exit.index other.exit.bound other.fraction }
{
    if first.is_none_or(
        |found|
            ensures { result ≡ (other.fraction <? found.fraction) }
        { other.fraction < found.fraction },
    ) {
        Some(other)
    } else {
        first
    }
}

// The first exit so far, with parameter k taken into account, which moves from x to y.
fn consider(first: Option<First>, window: Window, k: usize, x: f64, y: f64) -> Option<First>
    ensures { result ≡ consider_of first window k x y }
{
    if window.turn {
        return first;
    }
    let bound = if window.high < y {
        window.high
    } else if y < window.low {
        window.low
    } else {
        return first;
    };
    let exit = Exit { index: k, bound };
    let fraction = (bound - x) / (y - x);
    lesser(first, First { exit, fraction })
}

// The first exit of the four parameters in turn.
fn first_exit(a: Patch, b: Patch, x: Parameters, y: Parameters) -> Option<First>
    ensures { result ≡ first_exit a b x y }
{
    let f0 = consider(None, a.u, 0, x.u1, y.u1);
    let f1 = consider(f0, a.v, 1, x.v1, y.v1);
    let f2 = consider(f1, b.u, 2, x.u2, y.u2);
    consider(f2, b.v, 3, x.v2, y.v2)
}

// The parameter that the straight move from x to y takes out of its window first, and that bound; none where it leaves no window.
pub fn leaving(a: Patch, b: Patch, x: Parameters, y: Parameters) -> Option<Exit>
    ensures { result ≡ leaving_of a b x y }
{
    first_exit(a, b, x, y).map(|first| first.exit)
}
