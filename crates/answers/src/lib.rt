// The answers to the lines of a script, and their text.
#![tactic(auto)]

mod answer;

pub use answer::Answer;
