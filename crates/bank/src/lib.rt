// The working registers of a run, on a work area that the caller lends.
#![tactic(auto)]

mod guard;
mod register;
mod registers;

pub use guard::Bank;
pub use register::Register;
