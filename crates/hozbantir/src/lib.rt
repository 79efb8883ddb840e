// The calls of the library. None asks anything of what it is given; a refusal is known before the first place of a lent buffer is written.
#![tactic(auto)]

mod analysis;
mod answers;
mod budgeting;
mod exports;
mod reading;

pub use analysis::analyse;
pub use answers::{Answer, Refusal, number, place};
pub use budgeting::budget;
pub use exports::{hozbantir_analyse, hozbantir_budget, hozbantir_read_back};
pub use netlists::Fault;
pub use reading::read_back;
