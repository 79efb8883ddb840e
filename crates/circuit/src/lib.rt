// What the crates of this repository pass to one another about a circuit: its columns, and the kinds of its components. What a circuit
// means is in specs/.
#![tactic(auto)]

mod kinds;

pub use kinds::{Kind, UnknownKind};

// A circuit as columns that the caller lends. Component x has the kind `kinds[x]` and the time `times[x]`, each connection j goes from
// component `from[j]` to component `to[j]`. A kind is any byte, and no `Kind`, since the share and the rounds take circuits with any: what follows
// from it is asked with `Kind::Input as u8` and the like.
#[derive(Clone, Copy)]
pub struct Circuit<'a> {
    pub kinds: &'a [u8],
    pub times: &'a [i32],
    pub from: &'a [u16],
    pub to: &'a [u16],
}
