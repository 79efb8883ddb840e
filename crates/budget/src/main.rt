// Prints the budget of a netlist in both modes. Reads at most 65,536 bytes from standard input, and judges those.
#![tactic(auto)]

ghost use Rattle.std.specs.Prelude.{◌≡◌, ◌+◌, ◌≤◌, ◌<◌, length, take, IfOk};
ghost use Rattle.std.specs.Io.{ReadsAtMost};
ghost use Rattle.std.specs.Io.KnownBytes.{Consumes, IsAtEnd};

use std::io;
use std::io::Read;
use whole::BigEndian;

// The mode, and what the summary says of it.
fn head(rt: &impl Print, mode: u32, res: &[u8]) -> io::Result<()>
    requires { 10 ≤ length res.now }
{
    let share = u32::at(res, 4);
    let rounds = u16::at(res, 8);
    println!(rt; "mode {mode} share {share} rounds {rounds}")
}

// A bound's record: component, base delay, increment, and the two together.
fn row(rt: &impl Print, bound: &[u8]) -> io::Result<()>
    requires { length bound.now ≡ 13 }
{
    let component = u16::at(bound, 3);
    let base = u64::from(u32::at(bound, 5));
    let increment = u64::from(u32::at(bound, 9));
    println!(rt; "{component} {base} {increment} {}", base + increment)
}

// The summary, and a line for each bound behind it.
fn listing(rt: &impl Print, mode: u32, res: &[u8]) -> io::Result<()>
    requires { 10 ≤ length res.now }
{
    head(rt, mode, res)?;
    for bound in res[10..].chunks_exact(13) {
        row(rt, bound)?;
    }
    Ok(())
}

// A budget in a mode, or its refusal; whether there was one.
fn show_mode(rt: &impl Print, mode: u32, netlist: &[u8], res: &mut [u8]) -> io::Result<bool> {
    match hozbantir::budget(mode, netlist, res) {
        Ok(bytes) => {
            listing(rt, mode, &res[..bytes])?;
            Ok(true)
        }
        Err(refusal) => {
            println!(rt; "refused {} {}", refusal.number(), refusal.place())?;
            Ok(false)
        }
    }
}

// A netlist that is refused in one mode is refused alike in the other.
fn show(rt: &impl Print, netlist: &[u8], res: &mut [u8]) -> io::Result<()> {
    if show_mode(rt, 0, netlist, res)? {
        show_mode(rt, 1, netlist, res)?;
    }
    Ok(())
}

// Reads until buf is full or the input ends, and returns how many bytes it put at the start of buf.
fn read_full<R: Read>(reader: &mut R, buf: &mut [u8]) -> io::Result<usize>
    ensures bound { ReadsAtMost result buf.new }
    ensures bytes { IfOk result (λ n. Consumes (R.remaining reader.old) (R.remaining reader.new) (take n buf.new)) }
    ensures end { IfOk result (λ n. n < length buf.new → IsAtEnd (R.remaining reader.new)) }
{
    let mut done = 0;
    while done < buf.len() {
        let n = reader.read(&mut buf[done..])?;
        if n == 0 {
            break;
        }
        done += n;
    }
    Ok(done)
}

// Buffers of fixed length, as a user of the calls in C has them: no file that is taken is longer, and no result.
fn main(rt: HostRuntime) -> io::Result<()> {
    let mut netlist = [0u8; 65536];
    let mut result = [0u8; 65536];
    let n = read_full(&mut rt.stdin(), &mut netlist)?;
    show(&rt, &netlist[..n], &mut result)
}
