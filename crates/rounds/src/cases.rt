// What a budget is of.
ghost use Rattle.circuit.specs.Columns.{netlist_of};
ghost use Rattle.rounds.specs.Sharing.{Sharing};

use circuit::Circuit;

// A circuit, its base delays and the marks of who is served, which leave delays that can be timed with any share.
#[derive(Clone, Copy)]
pub struct Case<'a> {
    pub circuit: Circuit<'a>,
    pub base: &'a [i32],
    pub served: &'a [u8],
    pub ghost sharing: { Sharing (netlist_of circuit) served.now base.now },
}
