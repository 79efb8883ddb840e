// Runs the circuits that document 01 works by hand through the calls: A, B and C as netlist files, slacks, both modes, and each result read back;
// and circuits D and E, whose numbers are out of order, through the backward walk.
#![tactic(auto)]

ghost use Rattle.std.specs.Prelude.{◌≡◌, ◌+◌, ◌*◌, ◌<◌, ◌≤◌, length};

use hozbantir::Answer;
use segments::Timed;
use std::{fmt, io};
use timing::Times;
use whole::BigEndian;

// A line is a record: a component's kind, base delay and time, or where a connection comes from and goes to.
const CIRCUIT_A: [u8; 69] = *b"\
    \x01\x00\x09\x00\x00\x00\x00\x00\x00\x00\x00\x00\
    \x01\x00\x09\x00\x00\x00\x00\x00\x00\x00\x00\x05\
    \x01\x00\x09\x01\x00\x00\x00\x03\x00\x00\x00\x00\
    \x01\x00\x09\x02\x00\x00\x00\x02\x00\x00\x00\x14\
    \x02\x00\x04\x00\x00\x00\x02\
    \x02\x00\x04\x00\x01\x00\x03\
    \x02\x00\x04\x00\x02\x00\x03";

const CIRCUIT_C: [u8; 76] = *b"\
    \x01\x00\x09\x00\x00\x00\x00\x00\x00\x00\x00\x00\
    \x01\x00\x09\x01\x00\x00\x00\x01\x00\x00\x00\x00\
    \x01\x00\x09\x01\x00\x00\x00\x05\x00\x00\x00\x00\
    \x01\x00\x09\x02\x00\x00\x00\x02\x00\x00\x00\x0a\
    \x02\x00\x04\x00\x00\x00\x01\
    \x02\x00\x04\x00\x00\x00\x02\
    \x02\x00\x04\x00\x01\x00\x03\
    \x02\x00\x04\x00\x02\x00\x03";

// ---- the output

fn numbers<T: fmt::Display>(rt: &impl Print, numbers: &[T]) -> io::Result<()> {
    for x in numbers {
        print!(rt; " {x}")?;
    }
    println!(rt)
}

fn answer(rt: &impl Print, a: Answer) -> io::Result<()> {
    print!(rt; " {} {}", hozbantir::number(a), hozbantir::place(a))
}

// ---- the calls

// The answer and the whole buffer, which held sevens before.
fn analysed(rt: &impl Print, netlist: &[u8]) -> io::Result<()> {
    let mut buffer = [7i32; 4];
    let a = hozbantir::analyse(netlist, &mut buffer);
    print!(rt; "slacks")?;
    answer(rt, a)?;
    numbers(rt, &buffer)
}

// The result, read back into a buffer of sevens.
fn read(rt: &impl Print, netlist: &[u8], res: &[u8]) -> io::Result<()> {
    let mut buffer = [7u32; 4];
    let a = hozbantir::read_back(netlist, res, &mut buffer);
    print!(rt; "bounds")?;
    answer(rt, a)?;
    numbers(rt, &buffer)
}

// What the summary says.
fn summary(rt: &impl Print, res: &[u8]) -> io::Result<()>
    requires { 10 ≤ length res.now }
{
    let share = u32::at(res, 4);
    let rounds = u16::at(res, 8);
    println!(rt; " share {share} rounds {rounds}")
}

fn told(rt: &impl Print, netlist: &[u8], res: &[u8]) -> io::Result<()>
    requires { 10 ≤ length res.now }
{
    summary(rt, res)?;
    read(rt, netlist, res)
}

fn budgeted_in(rt: &impl Print, mode: u32, netlist: &[u8], res: &mut [u8]) -> io::Result<()> {
    let a = hozbantir::budget(mode, netlist, res);
    print!(rt; "mode {mode}")?;
    answer(rt, a)?;
    match a {
        Ok(bytes) => told(rt, netlist, &res[..bytes]),
        Err(_) => println!(rt),
    }
}

fn budgeted(rt: &impl Print, mode: u32, netlist: &[u8]) -> io::Result<()> {
    let mut result = [0u8; 49];
    budgeted_in(rt, mode, netlist, &mut result)
}

fn show(rt: &impl Print, netlist: &[u8]) -> io::Result<()> {
    analysed(rt, netlist)?;
    budgeted(rt, 0, netlist)?;
    budgeted(rt, 1, netlist)
}

// One byte less than the result of circuit A takes.
fn show_short(rt: &impl Print) -> io::Result<()> {
    let mut result = [0u8; 35];
    budgeted_in(rt, 1, &CIRCUIT_A, &mut result)
}

// Circuit B, with its output's required time, whose low byte ends the third record.
fn show_b(rt: &impl Print, required: u8) -> io::Result<()> {
    let mut s = *b"\
        \x01\x00\x09\x00\x00\x00\x00\x00\x00\x00\x00\x00\
        \x01\x00\x09\x01\x00\x00\x00\x04\x00\x00\x00\x00\
        \x01\x00\x09\x02\x00\x00\x00\x06\x00\x00\x00\x00\
        \x02\x00\x04\x00\x00\x00\x01\
        \x02\x00\x04\x00\x01\x00\x02";
    s[35] = required;
    show(rt, &s)
}

// ---- the walk

fn segment(rt: &impl Print, seg: &[u16]) -> io::Result<()>
    requires { 0 < length seg.now }
{
    let (first, rest) = seg.split_first().unwrap();
    print!(rt; "{first}")?;
    numbers(rt, rest)
}

// The walk from x in circuit D, at given delays, arrivals and required times.
#[tactic(auto, using(crate::proofs::Segments::segment_some))]
fn walk_d(rt: &impl Print, x: usize) -> io::Result<()>
    requires { x < 4 }
{
    let timed = Timed {
        from: &[2, 3, 0],
        to: &[1, 2, 3],
        delays: &[0, 2, 3, 4],
        times: Times {
            arrivals: &[0, 9, 7, 4],
            required: &[6, 15, 13, 10],
        },
    };
    segment(rt, timed.walk(&[0, 1, 1, 1], &mut [0; 9], x))
}

// The same in circuit E, where the walk back has four connections to choose from.
#[tactic(auto, using(crate::proofs::Segments::segment_some))]
fn walk_e(rt: &impl Print, x: usize) -> io::Result<()>
    requires { x < 8 }
{
    let timed = Timed {
        from: &[2, 3, 4, 5, 0, 6, 6, 6, 3],
        to: &[1, 1, 1, 1, 2, 3, 4, 5, 7],
        delays: &[0, 2, 3, 3, 3, 3, 0, 1],
        times: Times {
            arrivals: &[0, 6, 3, 4, 4, 4, 1, 5],
            required: &[4, 9, 7, 5, 7, 7, 2, 6],
        },
    };
    segment(rt, timed.walk(&[0, 1, 1, 1, 1, 1, 0, 1], &mut [0; 17], x))
}

fn main(rt: HostRuntime) -> io::Result<()> {
    show(&rt, &CIRCUIT_A)?;
    budgeted(&rt, 2, &CIRCUIT_A)?;
    show_short(&rt)?;
    show_b(&rt, 9)?;
    show_b(&rt, 10)?;
    show_b(&rt, 11)?;
    show_b(&rt, 12)?;
    show_b(&rt, 13)?;
    show(&rt, &CIRCUIT_C)?;
    show(&rt, b"")?;
    show(&rt, b"\x01\x00")?;
    walk_d(&rt, 1)?;
    walk_d(&rt, 2)?;
    walk_e(&rt, 1)
}
