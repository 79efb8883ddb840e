// Budget: the result of a netlist in a mode, with an increment for each net.
ghost use Rattle.std.specs.Prelude.{◌≡◌, ◌≤◌, length};
ghost use Rattle.circuit.specs.Columns.{netlist_of};
ghost use Rattle.results.specs.Result.{needed};
ghost use Rattle.hozbantir.specs.Answers.{in_room, Leaves};
ghost use Rattle.hozbantir.specs.Calls.{budget_on, Budgets};
ghost use Rattle.hozbantir.specs.Taken.{Taken};
ghost use Rattle.hozbantir.specs.Budgeting.{Writes, written};

use crate::answers::{Answer, Refusal, check_room};
use circuit::Circuit;
use netlists::Decoded;
use results::{Columns, Summary};
use rounds::{Budget, Case, Work};

// The result of a budget, if the buffer has room. Its increments are worked out here, so that here is where there are `Columns` to lend. Mode and
// rounds fit their types by `Writes`: `try_from` would give a `Result`.
fn write_in(
    mode: u32,
    budget: Budget,
    out: &mut [u8],
    finals: &[i32],
    served: &[u8],
    bases: &[i32],
) -> Answer
    requires { Writes mode budget.rounds served.now bases.now finals.now }
    ensures { Leaves (in_room (length out.old) (needed served.now) (written mode budget.share budget.rounds served.now bases.now finals.now)) out.old result out.new }
{
    let bytes = results::needed_bytes(served);
    check_room(out.len(), bytes)?;
    let mut incs = [0u32; 1024];
    let increments = &mut incs[..served.len()];
    rounds::increments_in(increments, finals, bases);
    let summary = Summary {
        mode: mode as u8,
        share: budget.share,
        rounds: budget.rounds as u16,
    };
    results::write(
        out,
        summary,
        Columns {
            served,
            bases,
            increments,
        },
    );
    Ok(bytes)
}

// The budget of a circuit that was taken, with arrays for the rounds. There is no heap: an array has room for the most components that a netlist
// may have, here and in the other calls, and its front is lent. The work is taken apart at the end, since no slice of a struct with a ghost field can be
// lent on from it.
fn budget_on(
    mode: u32,
    out: &mut [u8],
    served: &mut [u8],
    circuit: Circuit<'_>,
    bases: &[i32],
) -> Answer
    requires { Taken (netlist_of circuit) bases.now × (mode ≤ 1) × (length served.old ≡ length circuit.kinds.now) }
    ensures { Leaves (budget_on mode (netlist_of circuit.entry) bases.now (length out.old)) out.old result out.new }
{
    let n = circuit.kinds.len();
    let mut delays = [0i32; 1024];
    let mut arrivals = [0i64; 1024];
    let mut required = [0i64; 1024];
    let mut segment = [0u16; 2049];
    marks::fill_served(served, circuit.kinds);
    let mut work = Work {
        delays: &mut delays[..n],
        arrivals: &mut arrivals[..n],
        required: &mut required[..n],
        segment: &mut segment[..2 * n + 1],
    };
    let case = Case {
        circuit,
        base: bases,
        served,
    };
    let budget = rounds::budget_in(mode, &mut work, case)?;
    let Work { delays: finals, .. } = work;
    write_in(mode, budget, out, finals, served, bases)
}

// Writes the result of the netlist in a mode, which is a number, as C passes it: each has a budget by the definition, and this is the one test
// which of them are modes. The marks of who is served are not in use while the netlist is judged, so that its ends are found
// in them.
#[tactic(auto, using(crate::proofs::TakenLaws::good_filled))]
pub fn budget(mode: u32, netlist: &[u8], res: &mut [u8]) -> Answer
    ensures { Budgets mode netlist.now res.old result res.new }
{
    if 1 < mode {
        return Err(Refusal::Mode);
    }
    let mut decoded = Decoded::EMPTY;
    let mut served = [0u8; 1024];
    let extent = decoded.read(netlist, &mut served)?;
    let marks = &mut served[..extent.components];
    budget_on(
        mode,
        res,
        marks,
        decoded.circuit(extent),
        decoded.bases(extent),
    )
}
