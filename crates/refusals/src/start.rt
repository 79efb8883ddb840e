// The files that cases begin with.

use crate::file::File;
use crate::judgement::Judgement;
use crate::part::Part::{Bound, Component, Connection, Summary};
use crate::part::{Part, append_all};
use netlists::Decoded;

// A file of one of the two kinds, and how that kind is judged.
pub trait Start {
    fn build(&self, file: &mut File);

    fn judge(file: &[u8]) -> Judgement;
}

#[derive(Clone, Copy)]
pub(crate) enum Netlist {
    // Components at 0, 12, 24 and 36, connections at 48, 55 and 62, and 69 bytes in all.
    CircuitA,
    // 1,024 components, each of 512 inputs to an output of its own.
    Paired,
    // Each of 64 inputs to each of 64 outputs, with so many outputs: 30,208 bytes with 64, 30,220 with 65.
    Crossed(u16),
    // A component more than there may be, at 12,288.
    TooManyComponents,
    // A connection more than there may be, at 30,220.
    TooManyConnections,
}

fn components(file: &mut File, count: u16, kind: u8) {
    for _ in 0..count {
        Component(kind, 0, 0).append_to(file);
    }
}

// Each of 512 inputs to an output of its own.
fn pairs(file: &mut File) {
    for i in 0..512 {
        Connection(i, 512 + i).append_to(file);
    }
}

// Each of 64 inputs to each of 64 outputs.
fn crossings(file: &mut File) {
    for i in 0..4096 {
        Connection(i % 64, 64 + i / 64).append_to(file);
    }
}

fn most_components(file: &mut File) {
    components(file, 512, 0);
    components(file, 512, 2);
}

fn most_connections(file: &mut File, outputs: u16) {
    components(file, 64, 0);
    components(file, outputs, 2);
    crossings(file);
}

impl Start for Netlist {
    fn build(&self, file: &mut File) {
        match *self {
            Netlist::CircuitA => append_all(
                file,
                &[
                    Component(0, 0, 0),
                    Component(0, 0, 5),
                    Component(1, 3, 0),
                    Component(2, 2, 20),
                    Connection(0, 2),
                    Connection(1, 3),
                    Connection(2, 3),
                ],
            ),
            Netlist::Paired => {
                most_components(file);
                pairs(file);
            }
            Netlist::Crossed(outputs) => most_connections(file, outputs),
            Netlist::TooManyComponents => {
                most_components(file);
                Component(2, 0, 0).append_to(file);
            }
            Netlist::TooManyConnections => {
                most_connections(file, 65);
                Connection(0, 128).append_to(file);
            }
        }
    }

    fn judge(file: &[u8]) -> Judgement {
        let mut decoded = Decoded::EMPTY;
        let mut met = [0u8; 1024];
        Judgement::from(decoded.read(file, &mut met))
    }
}

// The result of circuit A, whose components 2 and 3 are served: the summary at 0, the bounds at 10 and 23, and 36 bytes in all.
#[derive(Clone, Copy)]
pub(crate) struct ResultA;

impl Start for ResultA {
    fn build(&self, file: &mut File) {
        append_all(file, &[Summary(0, 0, 2), Bound(2, 3, 2), Bound(3, 2, 13)]);
    }

    fn judge(file: &[u8]) -> Judgement {
        let served = [0u8, 0, 1, 1];
        let bases = [0i32, 0, 3, 2];
        let mut incs = [0u32; 4];
        Judgement::from(results::judge_result(file, &served, &bases, &mut incs))
    }
}
