// Running instructions on a window and a bank: performing one, and the run of a budget.
#![tactic(auto)]

mod budget;
mod effects;
mod processor;
mod rest;

pub use budget::run;
pub use processor::Processor;
