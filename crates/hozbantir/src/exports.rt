// The calls for C: numbers and byte slices, and one number for the answer.
ghost use Rattle.std.specs.Prelude.{◌≡◌, ℕ, ◌*◌, ◌/◌, ◌≤◌, ◌<◌, length};
ghost use Rattle.std.specs.Int.{w32};
ghost use Rattle.std.proofs.Common.{of_z};
ghost use Rattle.timing.specs.Ready.{Narrow};
ghost use Rattle.results.specs.Result.{bounds_read};
ghost use Rattle.results.specs.Columns.{Bases, Increments};
ghost use Rattle.hozbantir.specs.Answers.{place_of, in_room, Leaves};
ghost use Rattle.hozbantir.specs.Calls.{analysis_of, read_back_of};
ghost use Rattle.hozbantir.specs.Slacks.{slacks_by};
ghost use Rattle.hozbantir.specs.Spreading.{Puts};
ghost use Rattle.hozbantir.specs.Exports.{code_of, sent, room_in, SendsAnalysis, SendsBudget, SendsBounds};

use crate::analysis::{timed, times_of};
use crate::answers::{Answer, check_room, number, place};
use crate::budgeting::budget;
use crate::reading::{columns_of, judged};
use netlists::Decoded;
use results::Columns;
use timing::Times;
use whole::BigEndian;

// No place is as large as 65,536, whatever the files, so that number and place share one number. std has no `From` of `usize` to `u64`.
fn code(answer: Answer) -> u64
    requires { place_of answer < 65536 }
    ensures { result ≡ code_of answer }
{
    u64::from(number(answer)) * 4294967296 + place(answer) as u64
}

// How many numbers go into so many bytes, at four to each.
fn room_of(bytes: usize) -> usize
    ensures { result ≡ bytes / 4 }
{
    bytes / 4
}

// Numbers into bytes from the front, four to each, the highest first; each goes where it is worked out.
fn put_numbers<F: Fn(usize) -> u32>(bytes: &mut [u8], count: usize, number: F)
    requires calls { (i : ℕ) → i < count → F.pre number i }
    requires room { 4 * count ≤ length bytes.old }
    ensures { Puts (λ i x. F.post number i x) count bytes.old bytes.new }
{
    for i in 0..count {
        number(i).put(bytes, 4 * i);
    }
}

// The slacks, if the bytes have room. A buffer of numbers is filled by `slacks_in` of `analysis`; so it is with the three functions that follow. What the
// two of a pair share is `timed` or `judged`, and the arrays for it: to hand in how the buffer is filled, as a closure, would take a clause on what it
// asks, gives and changes, for three lines each.
fn slacks_into(bytes: &mut [u8], times: Times<'_>) -> Answer
    requires { Narrow times.arrivals.now times.required.now }
    ensures { Leaves (sent (of_z w32) (in_room (room_in bytes.old) (length times.entry.arrivals.now) (slacks_by times.entry.arrivals.now times.entry.required.now))) bytes.old result bytes.new }
{
    let n = times.arrivals.len();
    check_room(room_of(bytes.len()), n)?;
    put_numbers(bytes, n, |i| (times.slack_at(i) as i32).cast_unsigned());
    Ok(n)
}

// The bounds, if the bytes have room.
fn bounds_into(bytes: &mut [u8], columns: Columns<'_>) -> Answer
    requires { Bases columns.bases.now × Increments columns.increments.now }
    ensures { Leaves (sent (λ x. x) (in_room (room_in bytes.old) (length columns.entry.served.now) (bounds_read columns.entry.served.now columns.entry.bases.now columns.entry.increments.now))) bytes.old result bytes.new }
{
    let n = columns.served.len();
    check_room(room_of(bytes.len()), n)?;
    put_numbers(bytes, n, |i| columns.bound(i));
    Ok(n)
}

// Analyse into bytes.
fn analyse_into(netlist: &[u8], bytes: &mut [u8]) -> Answer
    ensures { Leaves (sent (of_z w32) (analysis_of netlist.now (room_in bytes.old))) bytes.old result bytes.new }
{
    let mut arr = [0i64; 1024];
    let mut req = [0i64; 1024];
    let n = timed(netlist, &mut arr, &mut req)?;
    slacks_into(bytes, times_of(n, &arr, &req))
}

// Read back into bytes.
fn read_back_into(netlist: &[u8], res: &[u8], bytes: &mut [u8]) -> Answer
    ensures { Leaves (sent (λ x. x) (read_back_of netlist.now res.now (room_in bytes.old))) bytes.old result bytes.new }
{
    let mut decoded = Decoded::EMPTY;
    let mut served = [0u8; 1024];
    let mut incs = [0u32; 1024];
    let n = judged(netlist, res, &mut decoded, &mut served, &mut incs)?;
    bounds_into(bytes, columns_of(n, &served, &decoded.bases, &incs))
}

pub fn hozbantir_analyse(netlist: &[u8], slacks: &mut [u8]) -> u64
    ensures { SendsAnalysis netlist.now slacks.old result slacks.new }
{
    code(analyse_into(netlist, slacks))
}

pub fn hozbantir_budget(mode: u32, netlist: &[u8], res: &mut [u8]) -> u64
    ensures { SendsBudget mode netlist.now res.old result res.new }
{
    code(budget(mode, netlist, res))
}

pub fn hozbantir_read_back(netlist: &[u8], res: &[u8], bounds: &mut [u8]) -> u64
    ensures { SendsBounds netlist.now res.now bounds.old result bounds.new }
{
    code(read_back_into(netlist, res, bounds))
}
