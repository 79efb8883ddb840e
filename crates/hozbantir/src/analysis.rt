// Analyse: the slack of each component at base delays.
ghost use Rattle.std.specs.Prelude.{◌≡◌, length, take};
ghost use Rattle.timing.specs.Ready.{Narrow};
ghost use Rattle.hozbantir.specs.Answers.{in_room, Leaves};
ghost use Rattle.hozbantir.specs.Calls.{Analyses};
ghost use Rattle.hozbantir.specs.Slacks.{slacks_by, Clocked, Paired};

use crate::answers::{Answer, check_room};
use netlists::Decoded;
use timing::Times;

// Arrivals and required times at base delays: where the netlist is taken, how many components there are, whose times stand in front.
pub fn timed(netlist: &[u8], arr: &mut [i64; 1024], req: &mut [i64; 1024]) -> Answer
    ensures { Clocked netlist.now result arr.new req.new }
{
    let mut decoded = Decoded::EMPTY;
    let mut met = [0u8; 1024];
    let extent = decoded.read(netlist, &mut met)?;
    let n = extent.components;
    timing::times_at(
        &mut arr[..n],
        &mut req[..n],
        decoded.circuit(extent),
        decoded.bases(extent),
    );
    Ok(n)
}

// The times in front of the arrays.
pub fn times_of<'a>(n: usize, arr: &'a [i64], req: &'a [i64]) -> Times<'a>
    requires { Paired n arr.now req.now }
    ensures { (result.arrivals.now ≡ take n arr.now) × (result.required.now ≡ take n req.now) }
{
    Times {
        arrivals: &arr[..n],
        required: &req[..n],
    }
}

// The slacks, if the buffer has room.
fn slacks_in(out: &mut [i32], times: Times<'_>) -> Answer
    requires { Narrow times.arrivals.now times.required.now }
    ensures { Leaves (in_room (length out.old) (length times.entry.arrivals.now) (slacks_by times.entry.arrivals.now times.entry.required.now)) out.old result out.new }
{
    let n = times.arrivals.len();
    check_room(out.len(), n)?;
    times.slacks_in(&mut out[..n]);
    Ok(n)
}

// Writes the slack of each component at base delays, by its number.
pub fn analyse(netlist: &[u8], slacks: &mut [i32]) -> Answer
    ensures { Analyses netlist.now slacks.old result slacks.new }
{
    let mut arr = [0i64; 1024];
    let mut req = [0i64; 1024];
    let n = timed(netlist, &mut arr, &mut req)?;
    slacks_in(slacks, times_of(n, &arr, &req))
}
