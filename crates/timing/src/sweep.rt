// The one sweep, in either direction.
ghost use Rattle.std.specs.Prelude.{◌≡◌, ◌^◌, ◌<◌, length};
ghost use Rattle.whole.specs.Range.{Bounded};
ghost use Rattle.circuit.specs.Kinds.{byte_of};
ghost use Rattle.circuit.specs.Lists.{tabulate};
ghost use Rattle.circuit.specs.Netlist.{Wired};
ghost use Rattle.circuit.specs.Times.{sweep, anchor};
ghost use Rattle.circuit.specs.Columns.{netlist_of};
ghost use Rattle.timing.specs.Ready.{Ready};

use crate::direction::Direction;
use circuit::Circuit;

// What a sweep starts from: a component's own time where it is of the kind that the direction starts from.
fn start<D: Direction>(a: &mut [i64], circuit: Circuit<'_>)
    requires { (length circuit.kinds.now ≡ length a.old) × (length circuit.times.now ≡ length a.old) }
    ensures { a.new ≡ tabulate (anchor circuit.entry.kinds.now circuit.entry.times.now (byte_of D.START) D.NONE_YET) (length a.old) }
{
    for (x, time) in a.iter_mut().enumerate() {
        *time = if circuit.kinds[x] == D::START as u8 {
            i64::from(circuit.times[x])
        } else {
            D::NONE_YET
        };
    }
}

// All connections, in the order of the direction.
fn follow_all<D: Direction>(a: &mut [i64], circuit: Circuit<'_>, d: &[i32])
    requires wired { Wired circuit.from.now circuit.to.now (length a.old) × (length d.now ≡ length a.old) }
    requires bounded { Bounded (2 ^ 60) a.old × Bounded (2 ^ 29) d.now }
    ensures { a.new ≡ sweep (D.way circuit.entry.from.now circuit.entry.to.now d.now) (D.order (length circuit.entry.from.now)) a.old }
{
    let n = circuit.from.len();
    for k in 0..n {
        D::follow(a, circuit, d, D::nth(k, n));
    }
}

// The times of all components.
pub(crate) fn times_in<D: Direction>(a: &mut [i64], circuit: Circuit<'_>, d: &[i32])
    requires { Ready (netlist_of circuit) d.now × (length a.old ≡ length circuit.kinds.now) }
    ensures { a.new ≡ D.times (netlist_of circuit.entry) d.now }
{
    start::<D>(a, circuit);
    follow_all::<D>(a, circuit, d);
}
