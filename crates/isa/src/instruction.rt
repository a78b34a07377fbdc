// An instruction as it was read.
use super::operation::Operation;

// The operands; what the instruction lacks is 0. An address and an offset are literals too.
#[derive(Clone, Copy, Default)]
pub struct Operands {
    pub r: u8,
    pub s: u8,
    pub t: u8,
    pub u: u8,
    pub v: u8,
    pub literal: u64,
}

#[derive(Clone, Copy)]
pub struct Instruction {
    pub operation: Operation,
    pub operands: Operands,
    pub length: u8,
}
