// A slack shared out over a segment.
ghost use Rattle.std.specs.Prelude.{◌≡◌, ◌+◌, ◌*◌, ◌<◌, ◌≤◌, ◌^◌, length};
ghost use Rattle.whole.specs.Whole.{up};
ghost use Rattle.whole.specs.Range.{Bounded};
ghost use Rattle.circuit.specs.Times.{slack_at};
ghost use Rattle.circuit.specs.Rounds.{deliver, given};
ghost use Rattle.segments.specs.Lent.{Laid, Inside};

use crate::steps::Timed;
use circuit::Circuit;
use timing::Times;

// Where a delay gets all of s, the sum still has room in four bytes. The casts, here and below, are of what fits: `try_from` would give a `Result`.
#[tactic(auto, using(crate::specs::Delivery::giving_ends))]
pub fn deliver(d: &mut [i32], seg: &[u16], s: u32)
    requires { Inside seg.now (length d.old) × Bounded (2 ^ 29) d.old × (s ≤ 2 ^ 30) }
    ensures { d.new ≡ deliver s seg.now d.old }
{
    let mut left = s;
    for (i, &x) in seg.iter().enumerate() {
        let portion = (left as usize / (seg.len() - i)) as u32;
        d[usize::from(x)] = d[usize::from(x)].strict_add_unsigned(portion);
        left -= portion;
    }
}

// The slack of x, shared out over the segment of x. No `Timed` is lent to it, since that would lend the delays, which it writes; seg, served and x
// are of one call alone.
#[tactic(auto, using(crate::specs::Delivery::segment_inside), unfolding(circuit::specs::Rounds::given))]
pub fn spend_at(
    d: &mut [i32],
    seg: &mut [u16],
    circuit: Circuit<'_>,
    served: &[u8],
    times: Times<'_>,
    x: usize,
)
    requires laid { Laid circuit.from.now circuit.to.now d.old times.arrivals.now × (length served.now ≡ length d.old) }
    requires x_in_bounds { (x < length d.old) × (length d.old ≤ 1024) × (length seg.old ≡ 2 * length d.old + 1) × (up (slack_at times.arrivals.now times.required.now x) ≤ 2 ^ 30) }
    ensures { d.new ≡ given circuit.entry.from.now circuit.entry.to.now served.now d.old times.entry.arrivals.now times.entry.required.now x }
{
    let s = times.slack_at(x).max(0) as u32;
    let timed = Timed {
        from: circuit.from,
        to: circuit.to,
        delays: &*d,
        times,
    };
    let segment = timed.walk(served, seg, x);
    deliver(d, segment, s);
}
