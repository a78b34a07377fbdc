// How a run has ended.
use isa::End;

// The end, and how many instructions were begun.
#[derive(Clone, Copy)]
pub struct RunEnd {
    pub end: End,
    pub count: u64,
}
