//! The steps of the walk for comparisons with outside programs.
//!
//! The input is that of the module `call`. An answer's numbers go to the front of the output, which holds 4 or more. A slice too short is
//! answered 9. Where no number is answered the output is as it was.
ghost use Rattle.std.specs.Prelude.{◌≡◌};
ghost use Rattle.refusal.specs.declared.Refusal.{Refusal};
ghost use Rattle.meeting.specs.declared.newton.Met.TheVariants.{Refused};
ghost use Rattle.meeting.specs.Newton.{Unmet};
ghost use Rattle.probe.specs.Probe.{probed};
ghost use Rattle.probe.specs.Call.{call_from};
ghost use Rattle.probe.specs.Steps.{probe_tangent, probe_predict, probe_leaving, probe_meet, probe_meet_in_plane, probe_land, probe_step, written_met};

use crate::call::{parameters, put_parameters, read};
use crate::numbers;
use geometry::{Point3D, Vector3D};
use meeting::Met;

// 1 and the direction, or 0.
fn probe_tangent(input: &[f64; 54], output: &mut [f64; 4]) -> u64
    ensures { probed result output.new ≡ probe_tangent (call_from input.now) output.old }
{
    let c = read(input);
    match tangent::tangent(c.a, c.b, c.x, c.tol) {
        Some(d) => {
            output[..3].copy_from_slice(&[d.x, d.y, d.z]);
            1
        }
        None => 0,
    }
}

// 1 and the parameters moved by the displacement, the numbers from 48 on.
fn probe_predict(input: &[f64; 54], output: &mut [f64; 4]) -> u64
    ensures { probed result output.new ≡ probe_predict (call_from input.now) input.now output.old }
{
    let c = read(input);
    let d = Vector3D::from(numbers::<3>(input, 48));
    let y = marching::predict::predict(c.a, c.b, c.x, d);
    put_parameters(output, y);
    1
}

// The index and the bound, or 4 where the move to the parameters from 48 on leaves no window.
fn probe_leaving(input: &[f64; 54], output: &mut [f64; 4]) -> u64
    ensures { probed result output.new ≡ probe_leaving (call_from input.now) input.now output.old }
{
    let c = read(input);
    let y = parameters(input, 48);
    match marching::leaving::leaving(c.a, c.b, c.x, y) {
        Some(exit) => {
            output[0] = exit.bound;
            exit.index as u64
        }
        None => 4,
    }
}

// 1 and the meeting, or the refusal: 2^8 times its number, 2^16 times its round and 2^24 times its column.
fn put_met(met: Met, output: &mut [f64; 4]) -> u64
    requires { (q : Refusal) → met ≡ Refused q → Unmet 4 q }
    ensures { probed result output.new ≡ written_met met output.old }
{
    match met {
        Met::At(y) => {
            put_parameters(output, y);
            1
        }
        Met::Refused(refusal) => {
            let n = refusal.numbers();
            n.number * 256 + n.round * 65536 + n.column * 16777216
        }
    }
}

// A meeting.
fn probe_meet(input: &[f64; 54], output: &mut [f64; 4]) -> u64
    ensures { probed result output.new ≡ probe_meet (call_from input.now) output.old }
{
    let c = read(input);
    put_met(meeting::newton::meet(c.a, c.b, c.x, c.tol), output)
}

// A meeting in the plane through the point from 48 on with the normal from 51 on.
fn probe_meet_in_plane(input: &[f64; 54], output: &mut [f64; 4]) -> u64
    ensures { probed result output.new ≡ probe_meet_in_plane (call_from input.now) input.now output.old }
{
    let c = read(input);
    let origin = Point3D::from(numbers::<3>(input, 48));
    let normal = Vector3D::from(numbers::<3>(input, 51));
    put_met(
        meeting::newton::meet_in_plane(c.a, c.b, c.x, origin, normal, c.tol),
        output,
    )
}

// A meeting with the parameter `pin` at the number 48.
// Kept (1): the pin comes from C, and `land` takes any number.
fn probe_land(pin: u64, input: &[f64; 54], output: &mut [f64; 4]) -> u64
    ensures { probed result output.new ≡ probe_land (call_from input.now) input.now pin output.old }
{
    let c = read(input);
    put_met(
        meeting::newton::land(c.a, c.b, c.x, pin as usize, input[48], c.tol),
        output,
    )
}

// The step of this number; `pin` is for `land` alone. Any other number is answered like a slice too short.
// Kept (1): the numbers come from C as they are.
pub fn probe_step(what: u64, pin: u64, input: &[f64], output: &mut [f64]) -> u64
    ensures { probed result output.new ≡ probe_step what pin input.now output.old }
{
    let Some(input) = input.first_chunk::<54>() else {
        return 9;
    };
    let Some(output) = output.first_chunk_mut::<4>() else {
        return 9;
    };
    // Kept (7): the functions' names say what each number stands for; an enum with its `TryFrom` would say it twice more.
    match what {
        0 => probe_tangent(input, output),
        1 => probe_predict(input, output),
        2 => probe_leaving(input, output),
        3 => probe_meet(input, output),
        4 => probe_meet_in_plane(input, output),
        5 => probe_land(pin, input, output),
        _ => 9,
    }
}
