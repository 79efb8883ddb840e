// The rounds, one after the other.
ghost use Rattle.std.specs.Prelude.{◌≡◌, length};
ghost use Rattle.circuit.specs.Columns.{netlist_of};
ghost use Rattle.circuit.specs.Netlist.{served_of};
ghost use Rattle.circuit.specs.Times.{Accepted};
ghost use Rattle.circuit.specs.Rounds.{Run};
ghost use Rattle.circuit.specs.Safe.{Safe};
ghost use Rattle.rounds.specs.Work.{Kept};

use crate::turns::round;
use crate::work::Work;
use circuit::Circuit;

// Round after round until no served component has positive slack: how many. Each round leaves fewer that have it, so that no limit is needed.
pub fn run(work: &mut Work<'_>, served: &[u8], circuit: Circuit<'_>) -> usize
    requires { Accepted (netlist_of circuit) × Safe (netlist_of circuit) work.old.delays.now × (served.now ≡ served_of circuit.kinds.now) }
    ensures run { Run (netlist_of circuit.entry) (served_of circuit.entry.kinds.now) work.old.delays.now work.new.delays.now result }
    ensures kept { Kept work.old work.new }
{
    let mut count = 0;
    while round(work, served, circuit) {
        count += 1;
    }
    count
}
