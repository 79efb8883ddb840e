// Arrivals, required times, slacks and in time, over slices that the caller lends. A sweep goes through the connections once, as they stand or
// the last first; nothing here asks that a connection goes to a higher number. Delays and times of a file stand in four bytes each, and sums
// of them are taken in eight: none overflows, by the bounds of `Ready` alone.
#![tactic(auto)]

ghost use Rattle.std.specs.Prelude.{◌≡◌, ◌&&◌, ◌<◌, eqb, length};
ghost use Rattle.std.specs.Int.Signed.{lt_z};
ghost use Rattle.circuit.specs.Lists.{at, tabulate, lowest, below};
ghost use Rattle.circuit.specs.Columns.{netlist_of};
ghost use Rattle.circuit.specs.Times.{arrivals, requireds, slack_at, overdue, in_time, late};
ghost use Rattle.timing.specs.Ready.{Ready, Gauged, Narrow};

mod direction;
mod sweep;

use circuit::{Circuit, Kind};
use direction::{Backward, Forward};
use sweep::times_in;

// ---- the times

// `Ready` is a clause of each and no ghost field of a circuit with its delays: the delays change from call to call.
pub fn arrivals_in(arr: &mut [i64], circuit: Circuit<'_>, d: &[i32])
    requires { Ready (netlist_of circuit) d.now × (length arr.old ≡ length circuit.kinds.now) }
    ensures { arr.new ≡ arrivals (netlist_of circuit.entry) d.now }
{
    times_in::<Forward>(arr, circuit, d);
}

// Every connection lowers, whatever its ends are: an output that leads on would have the least of its own time and of what its fan-out asks.
pub fn required_in(req: &mut [i64], circuit: Circuit<'_>, d: &[i32])
    requires { Ready (netlist_of circuit) d.now × (length req.old ≡ length circuit.kinds.now) }
    ensures { req.new ≡ requireds (netlist_of circuit.entry) d.now }
{
    times_in::<Backward>(req, circuit, d);
}

// Both.
pub fn times_at(arr: &mut [i64], req: &mut [i64], circuit: Circuit<'_>, d: &[i32])
    requires { Ready (netlist_of circuit) d.now × (length arr.old ≡ length circuit.kinds.now) × (length req.old ≡ length circuit.kinds.now) }
    ensures arrivals { arr.new ≡ arrivals (netlist_of circuit.entry) d.now }
    ensures required { req.new ≡ requireds (netlist_of circuit.entry) d.now }
{
    arrivals_in(arr, circuit, d);
    required_in(req, circuit, d);
}

// ---- slacks

// Arrivals and required times that belong together.
#[derive(Clone, Copy)]
pub struct Times<'a> {
    pub arrivals: &'a [i64],
    pub required: &'a [i64],
    pub ghost gauged: { Gauged arrivals.now required.now },
}

impl Times<'_> {
    pub fn slack_at(self, x: usize) -> i64
        requires { x < length self.arrivals.now }
        ensures { result ≡ slack_at self.entry.arrivals.now self.entry.required.now x }
    {
        self.required[x] - self.arrivals[x]
    }

    // `Narrow` says that each goes into four bytes: `try_from` would give a `Result`.
    pub fn slacks_in(self, out: &mut [i32])
        requires { (length out.old ≡ length self.arrivals.now) × Narrow self.arrivals.now self.required.now }
        ensures { out.new ≡ tabulate (slack_at self.entry.arrivals.now self.entry.required.now) (length out.old) }
    {
        for (x, slack) in out.iter_mut().enumerate() {
            *slack = self.slack_at(x) as i32;
        }
    }
}

// ---- in time and late

// An output, and x below y: the one test of outputs.
fn output_less(kind: u8, x: i64, y: i64) -> bool
    ensures { result ≡ eqb kind 2 && lt_z x y }
{
    kind == Kind::Output as u8 && x < y
}

// An output that signals reach after its time. `late_at` is said of slacks, which need required times too: what the two share is `output_less`.
#[tactic(auto, unfolding(circuit::specs::Times::overdue))]
fn overdue_at(circuit: Circuit<'_>, arr: &[i64], x: usize) -> bool
    requires { (x < length circuit.kinds.now) × (length circuit.times.now ≡ length circuit.kinds.now) × (length arr.now ≡ length circuit.kinds.now) }
    ensures { result ≡ overdue circuit.entry.kinds.now circuit.entry.times.now arr.now x }
{
    output_less(circuit.kinds[x], i64::from(circuit.times[x]), arr[x])
}

// By arrivals alone: in time is asked for each bit of a share, and required times would double its cost.
pub fn in_time(arr: &mut [i64], circuit: Circuit<'_>, d: &[i32]) -> bool
    requires { Ready (netlist_of circuit) d.now × (length arr.old ≡ length circuit.kinds.now) }
    ensures { result ≡ in_time (netlist_of circuit.entry) d.now }
{
    arrivals_in(arr, circuit, d);
    !(0..circuit.kinds.len()).any(|x| overdue_at(circuit, arr, x))
}

// An output with negative slack.
#[tactic(auto, unfolding(circuit::specs::Times::late))]
fn late_at(kinds: &[u8], times: Times<'_>, x: usize) -> bool
    requires { (x < length kinds.now) × (length times.arrivals.now ≡ length kinds.now) }
    ensures { result ≡ late kinds.now times.entry.arrivals.now times.entry.required.now x }
{
    output_less(kinds[x], times.slack_at(x), 0)
}

// The lowest such output.
pub fn lowest_late(kinds: &[u8], times: Times<'_>) -> Option<usize>
    requires { length times.arrivals.now ≡ length kinds.now }
    ensures { result ≡ below (length kinds.now) (lowest (late kinds.now times.entry.arrivals.now times.entry.required.now) (length kinds.now)) }
{
    (0..kinds.len()).find(|&x| late_at(kinds, times, x))
}
