// The share and the rounds (document 01, "Share and rounds"), over lent slices and arrays.
#![tactic(auto)]

mod budgets;
mod cases;
mod descent;
mod increments;
mod lifts;
mod runs;
mod turns;
mod work;

pub use budgets::{Budget, Late, budget_in};
pub use cases::Case;
pub use increments::increments_in;
pub use runs::run;
pub use turns::round;
pub use work::Work;
