// The lines of a script, and the command that each asks for.
#![tactic(auto)]

mod command;
mod digits;
mod fault;
mod hexadecimal;
mod keyword;
mod operand;
mod operands;
mod reading;
mod scanner;

pub use command::{Command, MemoryMake};
pub use fault::Fault;
pub use hexadecimal::decode_hex;
pub use operand::Operand;
pub use reading::read_command;
