// The two directions in which times go along connections.
ghost use Rattle.std.specs.Prelude.{◌≡◌, List, ℕ, ℤ, ◌-◌, ◌<◌, ◌^◌, ◌+ℤ◌, length, get_or, reverse};
ghost use Rattle.whole.specs.Whole.{max_z};
ghost use Rattle.whole.specs.Range.{Within, Bounded};
ghost use Rattle.circuit.specs.declared.kinds.Kind.{Kind};
ghost use Rattle.circuit.specs.declared.kinds.Kind.TheVariants.{Input, Output};
ghost use Rattle.circuit.specs.Kinds.{byte_of};
ghost use Rattle.circuit.specs.Lists.{up_from, tabulate};
ghost use Rattle.circuit.proofs.ListLaws.{length_from};
ghost use Rattle.circuit.specs.Netlist.{Netlist, parts, wires, Wired};
ghost use Rattle.circuit.specs.Columns.{netlist_of};
ghost use Rattle.circuit.specs.Times.{Way, step, sweep, anchor, forward, backward, never, ever, arrivals, requireds};
ghost use Rattle.timing.specs.Bounds.{Mild, forward_mild, backward_mild, never_within, ever_within};
ghost use Rattle.timing.specs.Sweep.{length_back, arrivals_as_sweep, requireds_as_sweep};

use circuit::{Circuit, Kind};

// What a sweep needs to know of its direction: where it starts, which connection is next, and what a connection does.
pub(crate) trait Direction {
    // The kind of the components whose own times it starts from.
    const START: Kind;

    // What any other has until a connection gives it a time.
    const NONE_YET: i64;

    ghost START: { Kind };

    ghost NONE_YET: { ℤ };

    // what a connection does, from the sources, the targets and the delays; in which order n connections are gone through; and the times of a
    // netlist that come of it
    ghost way: { List ℕ → List ℕ → List ℤ → Way };

    ghost order: { ℕ → List ℕ };

    ghost times: { Netlist → List ℤ → List ℤ };

    // The connection that comes after k others, of n.
    fn nth(k: usize, n: usize) -> usize
        requires { k < n }
        ensures inside { result < n }
        ensures is { result ≡ get_or (order n) k 0 };

    // What connection j makes of the times.
    fn follow(a: &mut [i64], circuit: Circuit<'_>, d: &[i32], j: usize)
        requires wired { Wired circuit.from.now circuit.to.now (length a.old) × (length d.now ≡ length a.old) × (j < length circuit.from.now) }
        requires bounded { Bounded (2 ^ 61) a.old × Bounded (2 ^ 29) d.now }
        ensures { a.new ≡ step (way circuit.entry.from.now circuit.entry.to.now d.now) j a.old };

    // the sweep that the times are; the order has n connections; none takes a time further than by the bound on delays; and where there is no
    // time yet, it stands within 2^60
    ghost swept: { (n : Netlist) (d : List ℤ) → times n d ≡ sweep (way n.froms n.tos d) (order (wires n)) (tabulate (anchor n.kinds n.times (byte_of START) NONE_YET) (parts n)) };

    ghost all: { (n : ℕ) → length (order n) ≡ n };

    ghost mild: { (fs ts : List ℕ) (d : List ℤ) → Bounded (2 ^ 29) d → Mild (way fs ts d) };

    ghost far: { Within (2 ^ 60) NONE_YET };
}

// A time after a delay. The bounds are the widest of their form: with 2 ^ 62 for both the sum may not fit.
fn after(time: i64, delay: i64) -> i64
    requires { Within (2 ^ 62 - 1) time × Within (2 ^ 62) delay }
    ensures { result ≡ time +ℤ delay }
{
    time + delay
}

// The later of a time, and of another after a delay.
#[tactic(auto, unfolding(whole::specs::Whole::max_z))]
fn later(x: i64, time: i64, delay: i64) -> i64
    requires { Within (2 ^ 61) time × Within (2 ^ 29) delay }
    ensures { result ≡ max_z x (time +ℤ delay) }
{
    x.max(after(time, delay))
}

// From the inputs on: a connection offers its target the time of its source and the target's delay, and the latest counts.
pub(crate) struct Forward;

impl Direction for Forward {
    const START: Kind = Kind::Input;

    const NONE_YET: i64 = -1_152_921_504_606_846_976;

    ghost START = { Input };

    ghost NONE_YET = { never };

    ghost way = { forward };

    ghost order = { λ n. up_from 0 n };

    ghost times = { arrivals };

    fn nth(k: usize, _n: usize) -> usize {
        k
    }

    fn follow(a: &mut [i64], circuit: Circuit<'_>, d: &[i32], j: usize) {
        let (f, t) = (usize::from(circuit.from[j]), usize::from(circuit.to[j]));
        a[t] = later(a[t], a[f], i64::from(d[t]));
    }

    ghost swept = { arrivals_as_sweep };

    ghost all = { length_from 0 };

    ghost mild = { λ fs ts d b. forward_mild fs ts b };

    ghost far = { never_within };
}

// From the outputs back, the last connection first: a connection asks of its source the time of its target less the target's delay, and the
// earliest counts.
pub(crate) struct Backward;

impl Direction for Backward {
    const START: Kind = Kind::Output;

    const NONE_YET: i64 = 1_152_921_504_606_846_976;

    ghost START = { Output };

    ghost NONE_YET = { ever };

    ghost way = { backward };

    ghost order = { λ n. reverse (up_from 0 n) };

    ghost times = { requireds };

    fn nth(k: usize, n: usize) -> usize {
        n - 1 - k
    }

    fn follow(a: &mut [i64], circuit: Circuit<'_>, d: &[i32], j: usize) {
        let (f, t) = (usize::from(circuit.from[j]), usize::from(circuit.to[j]));
        let asked = a[t] - i64::from(d[t]);
        a[f] = a[f].min(asked);
    }

    ghost swept = { requireds_as_sweep };

    ghost all = { length_back };

    ghost mild = { λ fs ts d b. backward_mild fs ts b };

    ghost far = { ever_within };
}
