// The parts of a round, each by its definition of crate circuit: the choice, the steps of the walks, the segment, and the delivery.
#![tactic(auto)]

mod choice;
mod delivery;
mod steps;
mod walks;

pub use choice::choose;
pub use delivery::{deliver, spend_at};
pub use steps::Timed;
pub use walks::Span;
