// The instruction set: operations, the table of opcodes, and reading an instruction from a window.
#![tactic(auto)]

mod code;
mod decoder;
mod effect;
mod end;
mod form;
mod instruction;
mod laws;
mod operation;
mod table;

pub use code::Code;
pub use decoder::{decode, decode_row};
pub use effect::Effect;
pub use end::End;
pub use form::Form;
pub use instruction::{Instruction, Operands};
pub use laws::forms_agree;
pub use operation::Operation;
pub use table::{Entry, entry};
