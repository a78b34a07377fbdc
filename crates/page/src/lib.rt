// A memory of a make of its own, and a machine over it.
#![tactic(auto)]

mod client;
mod page;

pub use client::kept;
pub use page::Page;

#[cfg(test)]
mod tests;
