// What a call answers.
ghost use Rattle.std.specs.Prelude.{◌≡◌, ◌<◌, ◌≤◌, OnOk, IfErr};
ghost use Rattle.hozbantir.specs.declared.answers.Refusal.TheVariants.{Netlist, Late, Room, Result};
ghost use Rattle.hozbantir.specs.Answers.{number_for, place_for, number_of, place_of};

use netlists::Fault;
use results::Misfit;

// Why a call wrote nothing. What the reader of netlists found stands in it as it was said.
#[derive(Clone, Copy, Debug, PartialEq, Eq)]
pub enum Refusal {
    Mode,
    Netlist(Fault),
    Late(usize),
    Room(usize),
    Result(usize),
}

// How many numbers or bytes a call wrote, or why it wrote none.
pub type Answer = Result<usize, Refusal>;

impl From<Fault> for Refusal {
    ghost from_gives = { λ fault r. r ≡ Netlist fault };

    fn from(fault: Fault) -> Refusal {
        Refusal::Netlist(fault)
    }
}

impl From<rounds::Late> for Refusal {
    ghost from_gives = { λ late r. r ≡ Late late.0 };

    fn from(late: rounds::Late) -> Refusal {
        Refusal::Late(late.0)
    }
}

impl From<Misfit> for Refusal {
    ghost from_gives = { λ misfit r. r ≡ Result misfit.0 };

    fn from(misfit: Misfit) -> Refusal {
        Refusal::Result(misfit.0)
    }
}

impl Refusal {
    // Its number. 9 is no refusal's.
    pub fn number(self) -> u32
        ensures { result ≡ number_for self }
    {
        match self {
            Refusal::Mode => 1,
            Refusal::Netlist(fault) => fault.number(),
            Refusal::Late(_) => 8,
            Refusal::Room(_) => 10,
            Refusal::Result(_) => 11,
        }
    }

    pub fn place(self) -> usize
        ensures { result ≡ place_for self }
    {
        match self {
            Refusal::Mode => 0,
            Refusal::Netlist(fault) => fault.place(),
            Refusal::Late(x) => x,
            Refusal::Room(n) => n,
            Refusal::Result(at) => at,
        }
    }
}

// The number of an answer, which is 0 of a success, and its place.
pub fn number(answer: Answer) -> u32
    ensures { result ≡ number_of answer }
{
    match answer {
        Ok(_) => 0,
        Err(refusal) => refusal.number(),
    }
}

pub fn place(answer: Answer) -> usize
    ensures { result ≡ place_of answer }
{
    match answer {
        Ok(n) => n,
        Err(refusal) => refusal.place(),
    }
}

// Room for what is needed, or how much that is.
pub fn check_room(room: usize, needed: usize) -> Result<(), Refusal>
    ensures fits { OnOk result (needed ≤ room) }
    ensures short { IfErr result (λ r. (room < needed) × (r ≡ Room needed)) }
{
    if room < needed {
        return Err(Refusal::Room(needed));
    }
    Ok(())
}
