// Result files: written into what is left of the caller's buffer, judged against a netlist, and read back.
#![tactic(auto)]

ghost use Rattle.std.specs.Prelude.{◌≡◌, ◌++◌, ◌+◌, ◌*◌, ◌≤◌, ◌<◌, length, get_or, drop};
ghost use Rattle.whole.specs.Whole.{up};
ghost use Rattle.circuit.specs.Lists.{count};
ghost use Rattle.circuit.specs.Netlist.{marked};
ghost use Rattle.records.specs.Record.{record_at};
ghost use Rattle.results.specs.Result.{summary_of, bound_of, bound_tag, bounds_of, encode, needed, summary_ok, bound_ok, due, summary_in, summary_at, bound_due, step_of, bounds_at, bound_on, bounds_read};
ghost use Rattle.results.specs.Judging.{ledger, Heard};
ghost use Rattle.results.specs.Columns.{Aligned, Bases, width_at, bound_at, Increments};

use records::{Reader, Record};
use whole::BigEndian;

// The tags of the two records, in the writer and in the judge. They are bytes of the format: an enum of them would be made by the same comparisons.
const SUMMARY_TAG: u8 = 16;

const BOUND_TAG: u8 = 17;

// What the summary of a result says. Its mode is any byte, as a file has it, and is written as it is: which are right is judged by `is_right`.
#[derive(Clone, Copy, Debug, PartialEq, Eq)]
pub struct Summary {
    pub mode: u8,
    pub share: u32,
    pub rounds: u16,
}

// The offset of the first record unlike the one due there.
#[derive(Clone, Copy, Debug, PartialEq, Eq)]
pub struct Misfit(pub usize);

// What a right bound says where one is due: where the next record begins, and the increment.
#[derive(Clone, Copy)]
struct Bound {
    next: usize,
    increment: u32,
}

// What a result is written from and read back into, by component number: the marks of who is served, the netlist's base delays, and the
// increments.
#[derive(Clone, Copy)]
pub struct Columns<'a> {
    pub served: &'a [u8],
    pub bases: &'a [i32],
    pub increments: &'a [u32],
    pub ghost aligned: { Aligned served.now bases.now increments.now },
}

// What room a result takes.
#[tactic(auto, using(circuit::proofs::ListLaws::count_le))]
pub fn needed_bytes(served: &[u8]) -> usize
    requires { length served.now ≤ 1024 }
    ensures { result ≡ needed served.now }
{
    10 + 13 * marks::count_served(served)
}

// A base delay as a file has it: what of it lies above 0.
fn base_of(base: i32) -> u32
    ensures { result ≡ up base }
{
    base.max(0).cast_unsigned()
}

// ---- how a result is written

fn put_bound(buf: &mut [u8], component: u16, base: u32, increment: u32)
    requires { 13 ≤ length buf.old }
    ensures { buf.new ≡ bound_of bound_tag component base increment ++ drop 13 buf.old }
{
    BOUND_TAG.put(buf, 0);
    10u16.put(buf, 1);
    component.put(buf, 3);
    base.put(buf, 5);
    increment.put(buf, 9);
}

impl Summary {
    fn put(self, buf: &mut [u8])
        requires { 10 ≤ length buf.old }
        ensures { buf.new ≡ summary_of self ++ drop 10 buf.old }
    {
        SUMMARY_TAG.put(buf, 0);
        7u16.put(buf, 1);
        self.mode.put(buf, 3);
        self.share.put(buf, 4);
        self.rounds.put(buf, 8);
    }

    // What the contents of its record say.
    fn read(p: &[u8]) -> Self
        requires { 7 ≤ length p.now }
        ensures { result ≡ summary_in p.now }
    {
        Summary {
            mode: p[0],
            share: u32::at(p, 1),
            rounds: u16::at(p, 5),
        }
    }

    // Whether a result may say so, where `limit` components are served.
    #[tactic(auto, using(std::proofs::lemmas::Bool::Decides::nat_tests), unfolding(crate::specs::Result::summary_ok))]
    fn is_right(self, limit: usize) -> bool
        ensures { result ≡ summary_ok self limit }
    {
        self.mode <= 1
            && self.share <= 200000000
            && (self.mode != 0 || self.share == 0)
            && usize::from(self.rounds) <= limit
    }
}

impl Columns<'_> {
    // The record of component x at the front of buf, and how many bytes it takes: none where x is not served. The cast is of a number below 1,024,
    // here and in `step`: `try_from` would give a `Result`.
    fn put_bound_at(self, buf: &mut [u8], x: usize) -> usize
        requires { (x < length self.served.now) × (width_at self.served.now x ≤ length buf.old) }
        ensures { (result ≡ width_at self.entry.served.now x) × (buf.new ≡ bound_at bound_tag self.entry.served.now self.entry.bases.now self.entry.increments.now x ++ drop result buf.old) }
    {
        if !marks::is_served(self.served[x]) {
            return 0;
        }
        put_bound(buf, x as u16, base_of(self.bases[x]), self.increments[x]);
        13
    }

    // The records of all served components, each into what the ones before it left of buf: some components have none, so that no chunks line up
    // with them.
    fn put_bounds(self, buf: &mut [u8])
        requires { 13 * count (marked self.served.now) (length self.served.now) ≤ length buf.old }
        ensures { buf.new ≡ bounds_of bound_tag self.entry.served.now self.entry.bases.now self.entry.increments.now (length self.entry.served.now) ++ drop (13 * count (marked self.entry.served.now) (length self.entry.served.now)) buf.old }
    {
        let mut at = 0;
        for x in 0..self.served.len() {
            at += self.put_bound_at(&mut buf[at..], x);
        }
    }

    // The bound of component x: base plus increment, and nothing for an input.
    #[tactic(auto, using(crate::specs::Bounds::read_at))]
    pub fn bound(self, x: usize) -> u32
        requires { Bases self.bases.now × Increments self.increments.now × (x < length self.served.now) }
        ensures { result ≡ get_or (bounds_read self.entry.served.now self.entry.bases.now self.entry.increments.now) x 0 }
    {
        bound_of(self.served[x], self.bases[x], self.increments[x])
    }

    // All of them, whatever the buffer held.
    pub fn bounds_in(self, bounds: &mut [u32])
        requires { Bases self.bases.now × Increments self.increments.now × (length bounds.old ≡ length self.served.now) }
        ensures { bounds.new ≡ bounds_read self.entry.served.now self.entry.bases.now self.entry.increments.now }
    {
        for x in 0..bounds.len() {
            bounds[x] = self.bound(x);
        }
    }
}

// The whole result at the front of buf.
#[tactic(auto, using(crate::specs::Writing::both_put))]
pub fn write(buf: &mut [u8], summary: Summary, columns: Columns<'_>)
    requires { needed columns.served.now ≤ length buf.old }
    ensures { buf.new ≡ encode summary columns.entry.served.now columns.entry.bases.now columns.entry.increments.now ++ drop (needed columns.entry.served.now) buf.old }
{
    summary.put(buf);
    columns.put_bounds(&mut buf[10..]);
}

// ---- how a result is judged

// The record that is due at a place: one with this tag, a byte as in the file, and so many bytes of contents.
#[tactic(auto, using(crate::specs::Judging::due_laws))]
fn record_due(reader: Reader<'_>, tag: u8, len: usize) -> Result<Record, Misfit>
    ensures { result ≡ due tag len reader.entry.at (record_at reader.entry.src.now reader.entry.at) }
{
    match reader.next() {
        Ok(Some(record)) if record.tag == tag && record.len == len => Ok(record),
        _ => Err(Misfit(reader.at)),
    }
}

// The summary is due at the front; at most `limit` rounds are right.
#[tactic(auto, using(crate::specs::Judging::summary_laws))]
fn summary_at(s: &[u8], limit: usize) -> Result<Summary, Misfit>
    ensures { result ≡ summary_at s.now limit }
{
    let reader = Reader::new(s, 0);
    let record = record_due(reader, SUMMARY_TAG, 7)?;
    let summary = Summary::read(reader.contents(record.start, record.len));
    if summary.is_right(limit) {
        Ok(summary)
    } else {
        Err(Misfit(0))
    }
}

#[tactic(auto, using(std::proofs::lemmas::Bool::Decides::nat_tests), unfolding(crate::specs::Result::bound_ok))]
fn bound_ok(p: &[u8], component: u16, base: u32) -> bool
    requires { 10 ≤ length p.now }
    ensures { result ≡ bound_ok p.now component base }
{
    u16::at(p, 0) == component && u32::at(p, 2) == base && u32::at(p, 6) <= 200000000
}

// The bound of a served component is due at `at`.
#[tactic(auto, using(crate::specs::Judging::bound_laws))]
fn bound_due(s: &[u8], component: u16, base: u32, at: usize) -> Result<Bound, Misfit>
    ensures { result ≡ bound_due s.now component base at }
{
    let reader = Reader::new(s, at);
    let record = record_due(reader, BOUND_TAG, 10)?;
    let p = reader.contents(record.start, record.len);
    if bound_ok(p, component, base) {
        Ok(Bound {
            next: record.next,
            increment: u32::at(p, 6),
        })
    } else {
        Err(Misfit(at))
    }
}

// One component: its record is read where it is served, and none is due where it is not.
#[tactic(auto, using(crate::specs::Judging::step_laws))]
fn step(s: &[u8], served: &[u8], bases: &[i32], x: usize, at: usize) -> Result<Bound, Misfit>
    requires { (x < length served.now) × (length bases.now ≡ length served.now) × (length served.now ≤ 1024) }
    ensures { result ≡ step_of s.now served.now bases.now x at }
{
    if !marks::is_served(served[x]) {
        return Ok(Bound {
            next: at,
            increment: 0,
        });
    }
    bound_due(s, x as u16, base_of(bases[x]), at)
}

// The bounds, from the end of the summary on: fills the increments, and says where the last record ends.
#[tactic(auto, using(crate::specs::Judging::reading_laws))]
fn bounds_end(
    s: &[u8],
    served: &[u8],
    bases: &[i32],
    increments: &mut [u32],
) -> Result<usize, Misfit>
    requires { Aligned served.now bases.now increments.old }
    ensures { bounds_at s.now served.now bases.now ≡ ledger increments.new result }
{
    let mut at = 10;
    for x in 0..served.len() {
        let bound = step(s, served, bases, x, at)?;
        increments[x] = bound.increment;
        at = bound.next;
    }
    Ok(at)
}

// A result, judged against a netlist. Where it is accepted, `increments` holds what it says, else no matter what.
#[tactic(auto, using(crate::specs::Judging::judge_laws))]
pub fn judge_result(
    s: &[u8],
    served: &[u8],
    bases: &[i32],
    increments: &mut [u32],
) -> Result<Summary, Misfit>
    requires { Aligned served.now bases.now increments.old }
    ensures { Heard s.now served.now bases.now result increments.new }
{
    let summary = summary_at(s, marks::count_served(served))?;
    let end = bounds_end(s, served, bases, increments)?;
    if end < s.len() {
        return Err(Misfit(end));
    }
    Ok(summary)
}

// ---- what is read back

// Base plus increment, and nothing for an input.
fn bound_of(mark: u8, base: i32, increment: u32) -> u32
    requires { (up base ≤ 65535) × (increment ≤ 200000000) }
    ensures { result ≡ bound_on mark (up base) increment }
{
    if marks::is_served(mark) {
        base_of(base) + increment
    } else {
        0
    }
}
