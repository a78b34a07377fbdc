// The table of opcodes: the operation, the operands and the length of each below 94.
ghost use Rattle.std.specs.Prelude.{◌≡◌, ◌+◌};
ghost use Rattle.isa.specs.Opcodes.{entry_of};
ghost use Rattle.isa.specs.Reading.{operand_bytes};

use super::form::Form;
use super::operation::Operation;
use memory::Width::{Byte, Long, Qword, Short};

// What the table says of an opcode: an operation, the form of its operands, and a length.
pub type Entry = (Operation, Form, u8);

// A row for each opcode below 94.
const TABLE: &[Entry; 94] = &[
    (Operation::Halt, Form::Plain, 1),
    (Operation::Nop, Form::Plain, 1),
    (Operation::BecomeUser, Form::Five, 6),
    (Operation::DeviceRead, Form::One, 2),
    (Operation::DeviceWrite, Form::Two, 3),
    (Operation::SystemCall, Form::Plain, 1),
    (Operation::Immediate(Qword), Form::Literal(Qword), 10),
    (Operation::Immediate(Long), Form::Literal(Long), 6),
    (Operation::Immediate(Short), Form::Literal(Short), 4),
    (Operation::Immediate(Byte), Form::Literal(Byte), 3),
    (Operation::Load(Qword), Form::Address, 10),
    (Operation::Load(Long), Form::Address, 10),
    (Operation::Load(Short), Form::Address, 10),
    (Operation::Load(Byte), Form::Address, 10),
    (Operation::Store(Qword), Form::Address, 10),
    (Operation::Store(Long), Form::Address, 10),
    (Operation::Store(Short), Form::Address, 10),
    (Operation::Store(Byte), Form::Address, 10),
    (Operation::LoadIndirect(Qword), Form::Two, 3),
    (Operation::LoadIndirect(Long), Form::Two, 3),
    (Operation::LoadIndirect(Short), Form::Two, 3),
    (Operation::LoadIndirect(Byte), Form::Two, 3),
    (Operation::StoreIndirect(Qword), Form::Two, 3),
    (Operation::StoreIndirect(Long), Form::Two, 3),
    (Operation::StoreIndirect(Short), Form::Two, 3),
    (Operation::StoreIndirect(Byte), Form::Two, 3),
    (Operation::Move, Form::Two, 3),
    (Operation::ShiftLeft, Form::Two, 3),
    (Operation::ShiftRight, Form::Two, 3),
    (Operation::And, Form::Two, 3),
    (Operation::Or, Form::Two, 3),
    (Operation::Xor, Form::Two, 3),
    (Operation::Complement, Form::One, 2),
    (Operation::Negate, Form::One, 2),
    (Operation::Bool, Form::One, 2),
    (Operation::Not, Form::One, 2),
    (Operation::Add, Form::Two, 3),
    (Operation::Subtract, Form::Two, 3),
    (Operation::Multiply, Form::Two, 3),
    (Operation::Unknown, Form::Plain, 1),
    (Operation::Unknown, Form::Plain, 1),
    (Operation::Unknown, Form::Plain, 1),
    (Operation::Unknown, Form::Plain, 1),
    (Operation::Unknown, Form::Plain, 1),
    (Operation::Unknown, Form::Plain, 1),
    (Operation::UnsignedDivide, Form::Two, 3),
    (Operation::SignedDivide, Form::Two, 3),
    (Operation::Unknown, Form::Plain, 1),
    (Operation::Unknown, Form::Plain, 1),
    (Operation::UnsignedModulo, Form::Two, 3),
    (Operation::SignedModulo, Form::Two, 3),
    (Operation::SignExtend(Long), Form::One, 2),
    (Operation::SignExtend(Short), Form::One, 2),
    (Operation::SignExtend(Byte), Form::One, 2),
    (Operation::ZeroExtend(Long), Form::One, 2),
    (Operation::ZeroExtend(Short), Form::One, 2),
    (Operation::ZeroExtend(Byte), Form::One, 2),
    (Operation::UnsignedCompare, Form::Three, 4),
    (Operation::SignedCompare, Form::Three, 4),
    (Operation::Unknown, Form::Plain, 1),
    (Operation::Unknown, Form::Plain, 1),
    (Operation::Jump, Form::Far, 9),
    (Operation::Call, Form::Far, 9),
    (Operation::JumpNotZero, Form::Address, 10),
    (Operation::JumpZero, Form::Address, 10),
    (Operation::Return, Form::Plain, 1),
    (Operation::GetStack, Form::One, 2),
    (Operation::SetStack, Form::One, 2),
    (Operation::Push(Qword), Form::One, 2),
    (Operation::Push(Long), Form::One, 2),
    (Operation::Push(Short), Form::One, 2),
    (Operation::Push(Byte), Form::One, 2),
    (Operation::Pop(Qword), Form::One, 2),
    (Operation::Pop(Long), Form::One, 2),
    (Operation::Pop(Short), Form::One, 2),
    (Operation::Pop(Byte), Form::One, 2),
    (Operation::Unknown, Form::Plain, 1),
    (Operation::Unknown, Form::Plain, 1),
    (Operation::Unknown, Form::Plain, 1),
    (Operation::Unknown, Form::Plain, 1),
    (Operation::Increment, Form::One, 2),
    (Operation::Decrement, Form::One, 2),
    (Operation::LoadStack(Qword), Form::Offset, 6),
    (Operation::LoadStack(Long), Form::Offset, 6),
    (Operation::LoadStack(Short), Form::Offset, 6),
    (Operation::LoadStack(Byte), Form::Offset, 6),
    (Operation::StoreStack(Qword), Form::Offset, 6),
    (Operation::StoreStack(Long), Form::Offset, 6),
    (Operation::StoreStack(Short), Form::Offset, 6),
    (Operation::StoreStack(Byte), Form::Offset, 6),
    (Operation::Reverse(Qword), Form::One, 2),
    (Operation::Reverse(Long), Form::One, 2),
    (Operation::Reverse(Short), Form::One, 2),
    (Operation::MoveNotZero, Form::Three, 4),
];

// The entry of any opcode. The length is 1 plus the bytes of the operands.
pub fn entry(opcode: u8) -> Entry
    ensures is { result ≡ entry_of opcode }
    ensures rule { result.2 ≡ 1 + operand_bytes result.1 }
{
    if opcode < 94 {
        TABLE[opcode as usize]
    } else {
        (Operation::Unknown, Form::Plain, 1)
    }
}
