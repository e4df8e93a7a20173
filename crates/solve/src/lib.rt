//! Small linear systems: the Rust's `math/solve.rs`. `solve_square`, of any number of unknowns, stands here, `solve_2x2` in `cramer`.
//!
//! Each solver answers for every input, NaNs and infinities too, and its answer is the one that `specs/Solve.antt` computes.
#![tactic(auto)]

pub mod cramer;

ghost use Rattle.std.specs.Prelude.{◌≡◌, ◌<◌, ◌≤◌, length};
ghost use Rattle.std.specs.List.{swap};
ghost use Rattle.solve.specs.Solve.{magnitudes_of, sum_of_magnitudes, greater_of, held_of, pivot_of, row_eliminated, system};
ghost use Rattle.solve.specs.Solve.{eliminated_of, substituted, back_substitution, Advanced, SolvePromise};

// The tolerance of the walk's solves; the solvers take any.
pub const SOLVER_TOL: f64 = 1e-12;

// The column, from 0, at which the solver gave up.
#[derive(Clone, Copy)]
pub struct Singular {
    pub column: u64,
}

// The sum, to which the magnitudes of the row's entries are added in order.
fn magnitudes<const N: usize>(row: &[f64; N], sum: f64) -> f64
    ensures { result ≡ magnitudes_of N row.now sum }
{
    let mut sum = sum;
    for entry in row {
        sum += number::abs(*entry);
    }
    sum
}

// The sum of the magnitudes, row by row, from the zero that the Rust's `sum` starts from.
fn sum_of_magnitudes<const N: usize>(m: &[[f64; N]; N]) -> f64
    ensures { result ≡ sum_of_magnitudes N m.now }
{
    let mut sum = -0.0;
    for row in m {
        sum = magnitudes(row, sum);
    }
    sum
}

// A row, and its entry in the column that is looked at.
#[derive(Clone, Copy)]
struct Held {
    row: usize,
    entry: f64,
}

// The next, where its entry is greater in magnitude than the one held so far; else that one. A NaN is never greater.
fn greater(held: Held, next: Held) -> Held
    ensures row { result.row ≡ greater_of held.entry next.entry held.row next.row }
    ensures entry { result.entry ≡ held_of held.entry next.entry }
{
    if number::abs(held.entry) < number::abs(next.entry) {
        next
    } else {
        held
    }
}

// The row, from col down, of the first entry of greatest magnitude in column col.
// Kept (3): a row's number is what is sought: over the rows the loop has to count them too, and to skip those above.
fn pivot<const N: usize>(m: &[[f64; N]; N], col: usize) -> usize
    requires { col < N }
    ensures is { result ≡ pivot_of N m.now col }
    ensures within { (col ≤ result) × (result < N) }
{
    let mut best = Held {
        row: col,
        entry: m[col][col],
    };
    for row in col + 1..N {
        best = greater(
            best,
            Held {
                row,
                entry: m[row][col],
            },
        );
    }
    best.row
}

// The rows, or the right side's entries, `col` and `pivot` in each other's place.
// Kept (3): a `swap` with an index that the compiler does not know has the rows in memory instead of registers (docs/SPEED.md).
fn swap_in<T>(items: &mut [T], col: usize, pivot: usize)
    requires { (col ≤ pivot) × (pivot < length items.old) }
    ensures { items.new ≡ swap items.old col pivot }
{
    for row in col + 1..items.len() {
        if row == pivot {
            items.swap(col, row);
        }
    }
}

// The row less factor times the pivot's row, from column col on.
// Kept (3): over `row.iter_mut().zip(&pivot).skip(col)` no invariant can name the row's entries, and nothing is known of them after it.
fn eliminate_row<const N: usize>(
    row: [f64; N],
    pivot: [f64; N],
    factor: f64,
    col: usize,
) -> [f64; N]
    ensures { result ≡ row_eliminated N row.entry pivot.entry factor col }
{
    let mut row = row;
    for k in col..N {
        row[k] -= factor * pivot[k];
    }
    row
}

// Elimination in column col: the matrix with the rows below col reduced; the right side follows in place.
// Kept (3): as in a row; the number names the row's entry of the right side too.
// Kept (5): document 01 has the matrix an array of rows by value, the right side beside it.
fn eliminate<const N: usize>(m: [[f64; N]; N], b: &mut [f64; N], col: usize) -> [[f64; N]; N]
    requires { col < N }
    ensures { system result b.new ≡ eliminated_of N col (system m.entry b.old) }
{
    let mut m = m;
    for row in col + 1..N {
        let factor = m[row][col] / m[col][col];
        m[row] = eliminate_row(m[row], m[col], factor, col);
        b[row] -= factor * b[col];
    }
    m
}

// acc less the products of the row's entries and the solution's, from column `from` on.
fn substitute<const N: usize>(row: &[f64; N], x: &[f64; N], from: usize, acc: f64) -> f64
    requires { from ≤ N }
    ensures { result ≡ substituted N row.now x.now from acc }
{
    let entries = &row[..];
    let found = &x[..];
    let mut acc = acc;
    for (entry, y) in entries[from..].iter().zip(&found[from..]) {
        acc -= *entry * *y;
    }
    acc
}

// Back substitution, from the last row up.
// Kept (3): a row's number is also that of the unknown that it gives, and tells which are known.
fn back_substitution<const N: usize>(m: &[[f64; N]; N], b: &[f64; N]) -> [f64; N]
    ensures { result ≡ back_substitution N (system m.now b.now) }
{
    let mut x = [0.0; N];
    for row in (0..N).rev() {
        x[row] = substitute(&m[row], &x, row + 1, b[row]) / m[row][row];
    }
    x
}

// Column col, where the matrix has it: the rows below reduced by the pivot's, or that the solver gives up there.
#[inline(always)]
fn column<const N: usize>(
    m: [[f64; N]; N],
    b: &mut [f64; N],
    tol: f64,
    scale: f64,
    col: usize,
) -> Result<[[f64; N]; N], Singular>
    ensures { Advanced N tol scale col (system m.entry b.old) result b.new }
{
    if N <= col {
        return Ok(m);
    }
    let mut m = m;
    let pivot = pivot(&m, col);
    swap_in(&mut m, col, pivot);
    swap_in(b, col, pivot);
    if crate::cramer::gives_up(m[col][col], tol, scale) {
        return Err(Singular { column: col as u64 });
    }
    Ok(eliminate(m, b, col))
}

// The system by Gaussian elimination with partial pivoting, or the first column whose pivot is at most tol times the scale. Back
// substitution never gives up.
// Kept (3): the first four columns one by one: with a number for the column the rows stay in registers, and three or four unknowns take
// a half of the time, or less, that the loop alone takes.
pub fn solve_square<const N: usize>(
    a: [[f64; N]; N],
    b: [f64; N],
    tol: f64,
) -> Result<[f64; N], Singular>
    ensures { SolvePromise N a.entry b.entry tol result }
{
    let scale = sum_of_magnitudes(&a);
    let mut b = b;
    let m = column(a, &mut b, tol, scale, 0)?;
    let m = column(m, &mut b, tol, scale, 1)?;
    let m = column(m, &mut b, tol, scale, 2)?;
    let mut m = column(m, &mut b, tol, scale, 3)?;
    for col in 4..N {
        m = column(m, &mut b, tol, scale, col)?;
    }
    Ok(back_substitution(&m, &b))
}
