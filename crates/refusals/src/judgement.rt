// How a file is judged, and what the line of a case says of it.

use netlists::{Extent, Fault};
use results::{Misfit, Summary};
use std::fmt;

// Taken, with what it says, or refused, with the refusal's number and place.
#[derive(Clone, Copy)]
pub(crate) enum Judgement {
    Netlist(Extent),
    Result(Summary),
    Refused { number: u32, place: usize },
}

impl fmt::Display for Judgement {
    fn fmt<W: fmt::Write>(&self, f: &mut fmt::Formatter<W>) -> fmt::Result {
        match *self {
            Judgement::Netlist(extent) => {
                write!(f, "good {} {}", extent.components, extent.connections)
            }
            Judgement::Result(summary) => write!(
                f,
                "result {} {} {}",
                summary.mode, summary.share, summary.rounds
            ),
            Judgement::Refused { number, place } => write!(f, "{number} {place}"),
        }
    }
}

impl From<Result<Extent, Fault>> for Judgement {
    fn from(judged: Result<Extent, Fault>) -> Self {
        match judged {
            Ok(extent) => Judgement::Netlist(extent),
            Err(fault) => Judgement::Refused {
                number: fault.number(),
                place: fault.place(),
            },
        }
    }
}

impl From<Result<Summary, Misfit>> for Judgement {
    fn from(judged: Result<Summary, Misfit>) -> Self {
        match judged {
            Ok(summary) => Judgement::Result(summary),
            Err(Misfit(place)) => Judgement::Refused { number: 11, place },
        }
    }
}
