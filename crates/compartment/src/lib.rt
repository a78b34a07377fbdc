// The run of a compartment: its registers come from its register file, and go back there.
#![tactic(auto)]

mod file;
mod rerun;

pub use rerun::run;
