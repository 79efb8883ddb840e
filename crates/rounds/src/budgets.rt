// The budget of a circuit in a mode.
ghost use Rattle.std.specs.Prelude.{◌≡◌, length};
ghost use Rattle.circuit.specs.Columns.{netlist_of};
ghost use Rattle.circuit.specs.Netlist.{served_of};
ghost use Rattle.circuit.specs.Budget.{share_in};
ghost use Rattle.timing.specs.Ready.{Ready};
ghost use Rattle.rounds.specs.Work.{Kept};
ghost use Rattle.rounds.specs.Budgets.{Given, Timely, Budgets};

use crate::cases::Case;
use crate::lifts::lift;
use crate::runs::run;
use crate::work::Work;
use circuit::Circuit;
use timing::Times;

// What every served component got before the first round, and how many rounds were done.
#[derive(Clone, Copy, Debug, PartialEq, Eq)]
pub struct Budget {
    pub share: u32,
    pub rounds: usize,
}

// The lowest output that is late at base delays.
#[derive(Clone, Copy, Debug, PartialEq, Eq)]
pub struct Late(pub usize);

// Late where an output is at the delays b.
fn late_in(arr: &mut [i64], req: &mut [i64], b: &[i32], circuit: Circuit<'_>) -> Result<(), Late>
    requires { Ready (netlist_of circuit) b.now × (length arr.old ≡ length circuit.kinds.now) × (length req.old ≡ length circuit.kinds.now) }
    ensures { Timely (netlist_of circuit.entry) b.now result }
{
    timing::times_at(arr, req, circuit, b);
    let times = Times {
        arrivals: arr,
        required: req,
    };
    match timing::lowest_late(circuit.kinds, times) {
        Some(x) => Err(Late(x)),
        None => Ok(()),
    }
}

impl Case<'_> {
    // The share in a mode: none in mode 0, which is plain; in any other as much as every served component can have. A mode is a number here,
    // since each has a budget by the definition: which of them are modes is for the caller to say.
    fn share_in(self, mode: u32, d: &mut [i32], arr: &mut [i64]) -> u32
        requires marks { self.served.now ≡ served_of self.circuit.kinds.now }
        requires lengths { (length d.old ≡ length self.circuit.kinds.now) × (length arr.old ≡ length self.circuit.kinds.now) }
        ensures { result ≡ share_in mode (netlist_of self.entry.circuit) self.entry.base.now }
    {
        if mode == 0 { 0 } else { self.share(d, arr) }
    }
}

// The budget of the base delays in a mode, with the final delays in `work`.
pub fn budget_in(mode: u32, work: &mut Work<'_>, case: Case<'_>) -> Result<Budget, Late>
    requires { Given (netlist_of case.circuit) case.served.now case.base.now × (length work.old.delays.now ≡ length case.circuit.kinds.now) }
    ensures budgets { Budgets mode (netlist_of case.entry.circuit) case.entry.base.now work.new.delays.now result }
    ensures kept { Kept work.old work.new }
{
    let d = &mut *work.delays;
    let arr = &mut *work.arrivals;
    late_in(arr, work.required, case.base, case.circuit)?;
    let share = case.share_in(mode, d, arr);
    lift(d, case.base, case.served, share);
    let rounds = run(work, case.served, case.circuit);
    Ok(Budget { share, rounds })
}
