// The machine: one memory, a plan of its compartments, and the calls on it.
#![tactic(auto)]

mod blocks;
mod ended;
mod machine;
mod records;
mod refusal;

pub use ended::RunEnd;
pub use machine::Machine;
pub use refusal::Refusal;
