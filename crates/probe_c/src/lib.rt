//! The functions of `probe`, which only comparisons with outside programs call, exported to C under the same contracts.
//!
//! `tools/staticlib.sh probe` writes the archive. A slice passes as a pointer and a length.
#![tactic(auto)]

ghost use Rattle.std.specs.Prelude.{◌≡◌};
ghost use Rattle.probe.specs.Probe.{probed, probe_of};
ghost use Rattle.probe.specs.Steps.{probe_step};
ghost use Rattle.probe.specs.Stretch.{probe_stretch};
ghost use Rattle.probe.specs.Surface.{probe_surface};

// The solver of so many unknowns: 2, 3 or 4. Any other number is answered like a slice too short.
#[unsafe(no_mangle)]
pub extern "C" fn probe_solve(size: u64, input: &[f64], output: &mut [f64]) -> u64
    ensures { probed result output.new ≡ probe_of size input.now output.old }
{
    probe::probe_solve(size, input, output)
}

// The step of this number; `pin` is for `land` alone. Any other number is answered like a slice too short.
// Kept (1): the numbers come from C as they are.
#[unsafe(no_mangle)]
pub extern "C" fn probe_step(what: u64, pin: u64, input: &[f64], output: &mut [f64]) -> u64
    ensures { probed result output.new ≡ probe_step what pin input.now output.old }
{
    probe::steps::probe_step(what, pin, input, output)
}

// What is asked: 0 the point, 1 both first derivatives. Anything else, a kind above 4 and a slice too short are answered 0, and the output
// is as it was.
// Kept (1): the numbers come from C as they are.
#[unsafe(no_mangle)]
pub extern "C" fn probe_surface(
    what: u64,
    kind: u64,
    numbers: &[f64],
    u: f64,
    v: f64,
    output: &mut [f64],
) -> u64
    ensures { probed result output.new ≡ probe_surface what kind numbers.now u v output.old }
{
    probe::surface::probe_surface(what, kind, numbers, u, v, output)
}

// The stretch of a trace of `count` points that crosses the box whose corners are given, low x, y, z, then high: 0, or 14 for its two
// points. Fewer than six corners and an output too short are answered 0, and the output is as it was.
#[unsafe(no_mangle)]
pub extern "C" fn probe_stretch(
    confusion: f64,
    angular: f64,
    buffer: &[f64],
    count: u64,
    corners: &[f64],
    out: &mut [f64],
) -> u64
    ensures { probed result out.new ≡ probe_stretch confusion angular buffer.now count corners.now out.old }
{
    probe::stretch::probe_stretch(confusion, angular, buffer, count, corners, out)
}
