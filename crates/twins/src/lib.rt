// What a caller has of the promise that compartments are kept apart.
#![tactic(auto)]

mod compare;

pub use compare::latest_of_both;
