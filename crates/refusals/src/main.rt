// Builds netlist and result files, most of them with one fault, and writes a line for each: its name, and how it was judged.
// What each line has to be is in the file stdout, written from the rules of the two formats.
#![tactic(auto)]

mod file;
mod judgement;
mod part;
mod start;

use file::File;
use part::Part;
use part::Part::{Bound, Byte, Component, Connection, Head, Summary};
use start::Netlist::{CircuitA, Crossed, Paired, TooManyComponents, TooManyConnections};
use start::{ResultA, Start};
use std::io;

// ---- a case

// Its name, what is written over the file that it begins with, and to what length that is cut, or filled up with zeros.
#[derive(Clone, Copy)]
struct Case<'a> {
    name: &'a str,
    change: Option<(u16, Part)>,
    len: u16,
}

fn cut(name: &str, len: u16) -> Case<'_> {
    Case {
        name,
        change: None,
        len,
    }
}

fn over(name: &str, at: u16, part: Part, len: u16) -> Case<'_> {
    Case {
        name,
        change: Some((at, part)),
        len,
    }
}

fn judge<S: Start>(rt: &impl Print, file: &mut File, start: &S, case: &Case<'_>) -> io::Result<()> {
    file.resize(0);
    start.build(file);
    if let Some((at, part)) = case.change {
        part.write_over(file, at);
    }
    file.resize(usize::from(case.len));
    println!(rt; "{}: {}", case.name, S::judge(file.bytes()))
}

fn judge_all<S: Start>(rt: &impl Print, start: &S, cases: &[Case<'_>]) -> io::Result<()> {
    let mut file = File::EMPTY;
    for case in cases {
        judge(rt, &mut file, start, case)?;
    }
    Ok(())
}

// ---- the cases

fn taken(rt: &impl Print) -> io::Result<()> {
    let cases = [
        cut("circuit A", 69),
        over("base 0", 24, Component(1, 0, 0), 69),
        over("base 65535", 24, Component(1, 65535, 0), 69),
        over("output base 65535", 36, Component(2, 65535, 20), 69),
        over("arrival -1", 0, Component(0, 0, -1), 69),
        over("arrival 0", 12, Component(0, 0, 0), 69),
        over("arrival 100000000", 0, Component(0, 0, 100000000), 69),
        over("arrival -100000000", 0, Component(0, 0, -100000000), 69),
        over("required -1", 36, Component(2, 2, -1), 69),
        over("required 0", 36, Component(2, 2, 0), 69),
        over("required 100000000", 36, Component(2, 2, 100000000), 69),
        over("required -100000000", 36, Component(2, 2, -100000000), 69),
    ];
    judge_all(rt, &CircuitA, &cases)
}

fn broken(rt: &impl Print) -> io::Result<()> {
    let cases = [
        cut("one byte", 1),
        cut("two bytes", 2),
        cut("head alone", 3),
        cut("first cut", 11),
        over("first past end", 0, Head(1, 65535), 69),
        over("component past end", 24, Head(1, 265), 69),
        over("connection past end", 55, Head(2, 12), 69),
        over("unknown tag past end", 62, Head(9, 5), 69),
        cut("last cut", 68),
        cut("last head cut", 64),
        cut("last tag alone", 63),
        cut("one byte over", 70),
        cut("two bytes over", 71),
    ];
    judge_all(rt, &CircuitA, &cases)
}

fn tag(rt: &impl Print) -> io::Result<()> {
    let cases = [
        cut("zeros over", 72),
        over("first tag 0", 0, Byte(0), 69),
        over("first tag 16", 0, Byte(16), 69),
        over("first tag 17", 0, Byte(17), 69),
        over("middle tag 3", 24, Byte(3), 69),
        over("middle tag 16", 48, Byte(16), 69),
        over("last tag 17", 62, Byte(17), 69),
        over("last tag 255", 62, Byte(255), 69),
    ];
    judge_all(rt, &CircuitA, &cases)
}

fn length_wrong(rt: &impl Print) -> io::Result<()> {
    let cases = [
        over("component of 0", 0, Head(1, 0), 3),
        over("component of 8", 0, Head(1, 8), 11),
        over("component of 10", 24, Head(1, 10), 69),
        over("component of 265", 36, Head(1, 265), 304),
        over("connection of 0", 69, Head(2, 0), 72),
        over("connection of 3", 62, Head(2, 3), 68),
        over("connection of 5", 48, Head(2, 5), 69),
        over("connection of 260", 55, Head(2, 260), 318),
    ];
    judge_all(rt, &CircuitA, &cases)
}

// A component after a connection.
fn late(rt: &impl Print) -> io::Result<()> {
    let cases = [
        over("component amid connections", 55, Component(0, 0, 0), 69),
        over("component last", 69, Component(0, 0, 0), 81),
        over("component last, bad fields", 69, Component(3, 65536, 0), 81),
        over("component last, of 8", 69, Head(1, 8), 80),
        over("component last, past end", 69, Head(1, 10), 81),
    ];
    judge_all(rt, &CircuitA, &cases)
}

fn field(rt: &impl Print) -> io::Result<()> {
    let cases = [
        over("first kind 3", 0, Component(3, 0, 0), 69),
        over("middle kind 3", 24, Component(3, 3, 0), 69),
        over("last component's kind 255", 36, Component(255, 2, 20), 69),
        over("last record's kind 3", 36, Component(3, 2, 20), 48),
        over("base 65536", 24, Component(1, 65536, 0), 69),
        over("base 16777216", 24, Component(1, 16777216, 0), 69),
        over("base 4294967295", 24, Component(1, 4294967295, 0), 69),
        over("output base 65536", 36, Component(2, 65536, 20), 69),
        over("input base 1", 12, Component(0, 1, 5), 69),
        over("input base 65536", 0, Component(0, 65536, 0), 69),
        over("inner time 1", 24, Component(1, 3, 1), 69),
        over("inner time -1", 24, Component(1, 3, -1), 69),
    ];
    judge_all(rt, &CircuitA, &cases)
}

fn field_time(rt: &impl Print) -> io::Result<()> {
    let cases = [
        over("arrival 100000001", 0, Component(0, 0, 100000001), 69),
        over("arrival -100000001", 0, Component(0, 0, -100000001), 69),
        over("arrival 2147483647", 12, Component(0, 0, 2147483647), 69),
        over("arrival -2147483648", 12, Component(0, 0, -2147483648), 69),
        over("required 100000001", 36, Component(2, 2, 100000001), 69),
        over("required -100000001", 36, Component(2, 2, -100000001), 69),
        over("required 2147483647", 36, Component(2, 2, 2147483647), 69),
        over("required -2147483648", 36, Component(2, 2, -2147483648), 69),
    ];
    judge_all(rt, &CircuitA, &cases)
}

fn wiring(rt: &impl Print) -> io::Result<()> {
    let cases = [
        over("connection before components", 0, Connection(0, 1), 69),
        over("connection amid components", 24, Connection(0, 2), 69),
        over("first to 4", 48, Connection(0, 4), 69),
        over("first to 258", 48, Connection(0, 258), 69),
        over("first from 4 to 5", 48, Connection(4, 5), 69),
        over("first from 256 to 2", 48, Connection(256, 2), 69),
        over("middle from 3 to 3", 55, Connection(3, 3), 69),
        over("middle from 3 to 2", 55, Connection(3, 2), 69),
        over("last again", 62, Connection(1, 3), 69),
        over("last from falls", 62, Connection(0, 3), 69),
        over("last to falls", 62, Connection(1, 2), 69),
        over("last to 65535", 62, Connection(2, 65535), 69),
    ];
    judge_all(rt, &CircuitA, &cases)
}

fn ends(rt: &impl Print) -> io::Result<()> {
    let cases = [
        over("input with fan-in", 24, Component(0, 0, 0), 69),
        over("output with fan-out", 24, Component(2, 3, 0), 69),
        over("inner without fan-in", 0, Component(1, 3, 0), 69),
        over("inner without fan-out", 36, Component(1, 2, 0), 69),
        cut("input without fan-out", 55),
        cut("no connections", 48),
        cut("one component", 12),
    ];
    judge_all(rt, &CircuitA, &cases)?;
    judge_all(rt, &Crossed(65), &[cut("output without fan-in", 30220)])
}

fn components_size(rt: &impl Print) -> io::Result<()> {
    judge_all(rt, &CircuitA, &[cut("empty netlist", 0)])?;
    judge_all(rt, &Paired, &[cut("1024 components", 15872)])?;
    let cases = [
        cut("1025 components", 12300),
        over(
            "1025th with bad fields",
            12288,
            Component(3, 65536, 0),
            12300,
        ),
        over("1025th of 8", 12288, Head(1, 8), 12299),
        over("1025th past end", 12288, Head(1, 10), 12300),
    ];
    judge_all(rt, &TooManyComponents, &cases)
}

fn connections_size(rt: &impl Print) -> io::Result<()> {
    judge_all(rt, &Crossed(64), &[cut("4096 connections", 30208)])?;
    let cases = [
        cut("4097 connections", 30227),
        over("4097th with bad numbers", 30220, Connection(9, 9), 30227),
        over("4097th of 5", 30220, Head(2, 5), 30228),
        over("4097th past end", 30220, Head(2, 5), 30227),
        over("component after 4096", 30220, Component(0, 0, 0), 30232),
    ];
    judge_all(rt, &TooManyConnections, &cases)
}

fn result_taken(rt: &impl Print) -> io::Result<()> {
    let cases = [
        cut("result A", 36),
        over("rounds 0", 0, Summary(0, 0, 0), 36),
        over("mode 1", 0, Summary(1, 7, 2), 36),
        over("share 200000000", 0, Summary(1, 200000000, 1), 36),
        over("increment 0", 10, Bound(2, 3, 0), 36),
        over("increment 200000000", 23, Bound(3, 2, 200000000), 36),
    ];
    judge_all(rt, &ResultA, &cases)
}

fn result_broken(rt: &impl Print) -> io::Result<()> {
    let cases = [
        cut("two bytes of result", 2),
        cut("summary cut", 9),
        over("summary past end", 0, Head(16, 263), 36),
        cut("bound's head cut", 12),
        cut("bound cut", 22),
        over("bound past end", 10, Head(17, 266), 36),
        cut("last bound's tag alone", 24),
        cut("last bound cut", 35),
    ];
    judge_all(rt, &ResultA, &cases)
}

fn result_missing(rt: &impl Print) -> io::Result<()> {
    let cases = [
        cut("empty result", 0),
        cut("bounds missing", 10),
        cut("last bound missing", 23),
        cut("one byte left over", 37),
        over("bound left over", 36, Head(17, 10), 49),
    ];
    judge_all(rt, &ResultA, &cases)
}

fn result_records(rt: &impl Print) -> io::Result<()> {
    let cases = [
        over("summary of tag 17", 0, Byte(17), 36),
        over("summary of tag 1", 0, Byte(1), 36),
        over("summary of 6", 0, Head(16, 6), 36),
        over("summary of 8", 0, Head(16, 8), 36),
        over("second summary", 10, Head(16, 7), 20),
        over("bound of tag 2", 10, Byte(2), 36),
        over("last bound of tag 18", 23, Byte(18), 36),
        over("bound of 9", 10, Head(17, 9), 36),
        over("bound of 11", 10, Head(17, 11), 36),
        over("last bound of 9", 23, Head(17, 9), 35),
        over("last bound of 266", 23, Head(17, 266), 292),
    ];
    judge_all(rt, &ResultA, &cases)
}

fn result_order(rt: &impl Print) -> io::Result<()> {
    let cases = [
        over("last bound first", 10, Bound(3, 2, 13), 36),
        over("first bound again", 23, Bound(2, 3, 2), 36),
        over("bound of an input", 10, Bound(1, 0, 0), 36),
        over("bound of component 4", 23, Bound(4, 0, 0), 36),
        over("bound of component 258", 10, Bound(258, 3, 2), 36),
    ];
    judge_all(rt, &ResultA, &cases)
}

fn result_fields(rt: &impl Print) -> io::Result<()> {
    let cases = [
        over("mode 2", 0, Summary(2, 0, 2), 36),
        over("mode 255", 0, Summary(255, 0, 2), 36),
        over("share 200000001", 0, Summary(1, 200000001, 2), 36),
        over("share 4294967295", 0, Summary(1, 4294967295, 2), 36),
        over("mode 0, share 1", 0, Summary(0, 1, 2), 36),
        over("rounds 3", 0, Summary(0, 0, 3), 36),
        over("rounds 256", 0, Summary(1, 0, 256), 36),
        over("base delay 4", 10, Bound(2, 4, 2), 36),
        over("base delay 65538", 23, Bound(3, 65538, 13), 36),
        over("increment 200000001", 10, Bound(2, 3, 200000001), 36),
        over("last increment 200000001", 23, Bound(3, 2, 200000001), 36),
        over("increment 4294967295", 23, Bound(3, 2, 4294967295), 36),
    ];
    judge_all(rt, &ResultA, &cases)
}

fn main(rt: HostRuntime) -> io::Result<()> {
    components_size(&rt)?;
    connections_size(&rt)?;
    taken(&rt)?;
    broken(&rt)?;
    tag(&rt)?;
    length_wrong(&rt)?;
    late(&rt)?;
    field(&rt)?;
    field_time(&rt)?;
    wiring(&rt)?;
    ends(&rt)?;
    result_taken(&rt)?;
    result_broken(&rt)?;
    result_missing(&rt)?;
    result_records(&rt)?;
    result_order(&rt)?;
    result_fields(&rt)
}
