//! Functions that only comparisons with outside programs call, which the static library `probe_c` exports to C.
//!
//! The solvers: the input holds the matrix row by row, the right side and tol; a solution goes to the front of the output.
//! The answer: 1 solved, 9 a slice too short, else the solver gave up: 2^8 times the column, 0 of two unknowns. Where it is not 1 the
//! output is as it was.
#![tactic(auto)]

mod call;
pub mod steps;
pub mod stretch;
pub mod surface;

ghost use Rattle.std.specs.Prelude.{◌≡◌, ◌+◌, ◌*◌, ◌<◌, ◌≤◌, length};
ghost use Rattle.probe.specs.Probe.{numbers_from, matrix_from, probed, probe2_of, probe_square_of, probe_of};

use solve::cramer::solve_2x2;
use solve::solve_square;

// N numbers, from `at` on.
fn numbers<const N: usize>(input: &[f64], at: usize) -> [f64; N]
    requires { at + N ≤ length input.now }
    ensures { result ≡ numbers_from N at input.now }
{
    let mut numbers = [0.0; N];
    numbers.copy_from_slice(&input[at..at + N]);
    numbers
}

// The N rows of a matrix.
fn matrix<const N: usize>(input: &[f64]) -> [[f64; N]; N]
    requires { N * N ≤ length input.now }
    ensures { result ≡ matrix_from N N 0 input.now }
{
    let mut rows = [[0.0; N]; N];
    for (k, row) in rows.iter_mut().enumerate() {
        *row = numbers(input, N * k);
    }
    rows
}

fn probe_2x2(input: &[f64], output: &mut [f64]) -> u64
    ensures { probed result output.new ≡ probe2_of input.now output.old }
{
    if input.len() < 7 {
        return 9;
    }
    if output.len() < 2 {
        return 9;
    }
    let Some(x) = solve_2x2(matrix(input), numbers(input, 4), input[6]) else {
        return 0;
    };
    output[..2].copy_from_slice(&x);
    1
}

fn probe_square<const N: usize>(input: &[f64], output: &mut [f64]) -> u64
    requires { (0 < N) × (N ≤ 4) }
    ensures { probed result output.new ≡ probe_square_of N input.now output.old }
{
    let right = N * N;
    let tol = right + N;
    if input.len() < tol + 1 {
        return 9;
    }
    if output.len() < N {
        return 9;
    }
    match solve_square::<N>(matrix(input), numbers(input, right), input[tol]) {
        Ok(x) => {
            output[..N].copy_from_slice(&x);
            1
        }
        Err(e) => e.column * 256,
    }
}

// The solver of so many unknowns: 2, 3 or 4. Any other number is answered like a slice too short.
// Kept (1): the number comes from C as it is.
pub fn probe_solve(size: u64, input: &[f64], output: &mut [f64]) -> u64
    ensures { probed result output.new ≡ probe_of size input.now output.old }
{
    match size {
        2 => probe_2x2(input, output),
        3 => probe_square::<3>(input, output),
        4 => probe_square::<4>(input, output),
        _ => 9,
    }
}
