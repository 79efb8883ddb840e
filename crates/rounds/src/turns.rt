// One round.
ghost use Rattle.std.specs.Prelude.{◌≡◌, length};
ghost use Rattle.circuit.specs.Columns.{netlist_of};
ghost use Rattle.rounds.specs.Work.{Kept};
ghost use Rattle.rounds.specs.Round.{Steady, Rounded};

use crate::work::Work;
use circuit::Circuit;
use timing::Times;

// Whether there was a round to do: a component to start from.
pub fn round(work: &mut Work<'_>, served: &[u8], circuit: Circuit<'_>) -> bool
    requires steady { Steady (netlist_of circuit) work.old.delays.now }
    requires marks { length served.now ≡ length circuit.kinds.now }
    ensures rounded { Rounded (netlist_of circuit.entry) served.now work.old.delays.now work.new.delays.now result }
    ensures kept { Kept work.old work.new }
{
    let d = &mut *work.delays;
    let arr = &mut *work.arrivals;
    let req = &mut *work.required;
    timing::times_at(arr, req, circuit, d);
    let times = Times {
        arrivals: arr,
        required: req,
    };
    let Some(x) = segments::choose(served, times) else {
        return false;
    };
    segments::spend_at(d, work.segment, circuit, served, times, x);
    true
}
