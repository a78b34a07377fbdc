// Reading an instruction: its opcode, and by the table its operands.
ghost use Rattle.std.specs.Prelude.{◌≡◌, ◌<◌, ◌≤◌};
ghost use Rattle.isa.specs.declared.form.Form.TheVariants.{Literal};
ghost use Rattle.isa.specs.Opcodes.{entry_of};
ghost use Rattle.isa.specs.Reading.{decoded, instruction_of, operands, operands_at};

use super::code::Code;
use super::form::Form;
use super::instruction::{Instruction, Operands};
use super::table::{Entry, entry};
use memory::Width;

// A register number, and a literal, an address or an offset of the width.
fn literal<C: Code>(code: &C, width: Width) -> Operands
    ensures { result ≡ operands_at (Literal width) (C.Code.shown code.now) (C.Code.start code.now) }
{
    Operands {
        r: code.byte(1),
        literal: code.load(width, 2),
        ..Operands::default()
    }
}

// The operands of this form, each by an access of its own. An arm for each form, as the page has a row for each.
#[inline(always)]
pub(crate) fn read_operands<C: Code>(code: &C, form: Form) -> Operands
    ensures { result ≡ operands_at form (C.Code.shown code.now) (C.Code.start code.now) }
{
    match form {
        Form::Plain => Operands::default(),
        Form::One => Operands {
            r: code.byte(1),
            ..Operands::default()
        },
        Form::Two => Operands {
            r: code.byte(1),
            s: code.byte(2),
            ..Operands::default()
        },
        Form::Three => Operands {
            r: code.byte(1),
            s: code.byte(2),
            t: code.byte(3),
            ..Operands::default()
        },
        Form::Five => Operands {
            r: code.byte(1),
            s: code.byte(2),
            t: code.byte(3),
            u: code.byte(4),
            v: code.byte(5),
            literal: 0,
        },
        Form::Literal(width) => literal(code, width),
        Form::Address => literal(code, Width::Qword),
        Form::Offset => literal(code, Width::Long),
        Form::Far => Operands {
            literal: code.load(Width::Qword, 1),
            ..Operands::default()
        },
    }
}

// The instruction of a row of the table.
#[inline(always)]
pub fn decode_row<C: Code>(code: &C, row: Entry) -> Instruction
    ensures { result ≡ instruction_of row (C.Code.shown code.now) (C.Code.start code.now) }
{
    let (operation, form, length) = row;
    Instruction {
        operation,
        operands: read_operands(code, form),
        length,
    }
}

// The instruction that the code shows.
pub fn decode<C: Code>(code: &C) -> Instruction
    ensures { result ≡ decoded (C.Code.shown code.now) (C.Code.start code.now) }
{
    decode_row(code, entry(code.opcode()))
}
