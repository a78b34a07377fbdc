// A memory, and a machine over it, of whichever make was asked for.
#![tactic(auto)]

mod machines;
mod store;

pub use machines::AnyMachine;
pub use store::Store;
