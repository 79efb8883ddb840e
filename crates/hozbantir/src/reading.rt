// Read back: the bounds that a result says of a netlist.
ghost use Rattle.std.specs.Prelude.{◌≡◌, ◌≤◌, length, take};
ghost use Rattle.results.specs.Result.{bounds_read};
ghost use Rattle.results.specs.Columns.{Bases, Increments};
ghost use Rattle.hozbantir.specs.Answers.{in_room, Leaves};
ghost use Rattle.hozbantir.specs.Calls.{ReadsBack};
ghost use Rattle.hozbantir.specs.Reading.{Listened, Both, Listed};

use crate::answers::{Answer, check_room};
use netlists::Decoded;
use results::Columns;

// A result, judged against the components of a netlist: fills their marks, and the increments that it says.
fn judge_on(res: &[u8], kinds: &[u8], bases: &[i32], served: &mut [u8], incs: &mut [u32]) -> Answer
    requires { (length served.old ≡ length kinds.now) × (length bases.now ≡ length kinds.now) × (length incs.old ≡ length kinds.now) × (length kinds.now ≤ 1024) }
    ensures { Listened kinds.now bases.now res.now result served.new incs.new }
{
    marks::fill_served(served, kinds);
    results::judge_result(res, served, bases, incs)?;
    Ok(kinds.len())
}

// Netlist and result, judged in this order: where both are taken, how many components there are, and the arrays hold them in front. The
// netlist's ends are found in the marks before they are filled.
#[tactic(auto, using(crate::proofs::TakenLaws::good_filled))]
pub fn judged(
    netlist: &[u8],
    res: &[u8],
    decoded: &mut Decoded,
    served: &mut [u8; 1024],
    incs: &mut [u32; 1024],
) -> Answer
    ensures { Both netlist.now res.now result decoded.new.bases served.new incs.new }
{
    let extent = decoded.read(netlist, served)?;
    let n = extent.components;
    judge_on(
        res,
        decoded.circuit(extent).kinds,
        decoded.bases(extent),
        &mut served[..n],
        &mut incs[..n],
    )
}

// What was judged, in front of the arrays.
pub fn columns_of<'a>(
    n: usize,
    served: &'a [u8],
    bases: &'a [i32],
    increments: &'a [u32],
) -> Columns<'a>
    requires { Listed n served.now bases.now increments.now }
    ensures { (result.served.now ≡ take n served.now) × (result.bases.now ≡ take n bases.now) × (result.increments.now ≡ take n increments.now) }
{
    Columns {
        served: &served[..n],
        bases: &bases[..n],
        increments: &increments[..n],
    }
}

// The bounds, if the buffer has room.
fn bounds_in(out: &mut [u32], columns: Columns<'_>) -> Answer
    requires { Bases columns.bases.now × Increments columns.increments.now }
    ensures { Leaves (in_room (length out.old) (length columns.entry.served.now) (bounds_read columns.entry.served.now columns.entry.bases.now columns.entry.increments.now)) out.old result out.new }
{
    let n = columns.served.len();
    check_room(out.len(), n)?;
    columns.bounds_in(&mut out[..n]);
    Ok(n)
}

// Writes the bound of each component by its number: 0 for an input, base delay plus increment for another.
pub fn read_back(netlist: &[u8], res: &[u8], bounds: &mut [u32]) -> Answer
    ensures { ReadsBack netlist.now res.now bounds.old result bounds.new }
{
    let mut decoded = Decoded::EMPTY;
    let mut served = [0u8; 1024];
    let mut incs = [0u32; 1024];
    let n = judged(netlist, res, &mut decoded, &mut served, &mut incs)?;
    bounds_in(bounds, columns_of(n, &served, &decoded.bases, &incs))
}
