// The effect of each operation, in the order of the opcodes.
ghost use Rattle.std.specs.Option.{option_map_or};
ghost use Rattle.std.specs.Prelude.{◌≡◌};
ghost use Rattle.isa.specs.Effects.{effect_of};
ghost use Rattle.isa.specs.declared.effect.Effect.TheVariants.{Sets, Faults};
ghost use Rattle.isa.specs.declared.end.End.TheVariants.{IntegerMath};
ghost use Rattle.isa.specs.Steps.{held, sources_of};

use super::processor::Processor;
use bank::Register;
use isa::{Effect, End, Operands, Operation};
use memory::Memory;

fn sets(register: u8, value: Option<u64>) -> Effect
    ensures { result ≡ option_map_or (λ v. Sets register v) value (Faults IntegerMath) }
{
    value.map_or(
        Effect::Faults(End::IntegerMath),
        |value| Effect::Sets(register, value),
    )
}

impl<M: Memory> Processor<'_, '_, '_, M> {
    ghost use Rattle.cpu.specs.Processors.{config_of};

    fn general(&self, register: u8) -> u64
        ensures { result ≡ held (config_of self.now) register }
    {
        self.get(Register::General(register))
    }

    // One match, since each operation has its own row. A register is read where it is a source.
    #[inline(always)]
    pub(crate) fn weigh(&self, operation: Operation, i: Operands) -> Effect
        ensures { result ≡ effect_of operation i (sources_of (config_of self.now).registers i) }
    {
        match operation {
            Operation::Halt => Effect::Ends(End::Halt),
            Operation::Nop => Effect::Nothing,
            Operation::BecomeUser => Effect::Faults(End::Privilege),
            Operation::DeviceRead => Effect::Faults(End::Device),
            Operation::DeviceWrite => Effect::Faults(End::Device),
            Operation::SystemCall => Effect::Ends(End::SystemCall),
            Operation::Immediate(_) => Effect::Sets(i.r, i.literal),
            Operation::Load(n) => Effect::Loads(i.r, n, i.literal),
            Operation::Store(n) => Effect::Stores(n, i.literal, self.general(i.r)),
            Operation::LoadIndirect(n) => Effect::Loads(i.r, n, self.general(i.s)),
            Operation::StoreIndirect(n) => Effect::Stores(n, self.general(i.r), self.general(i.s)),
            Operation::Move => Effect::Sets(i.r, self.general(i.s)),
            Operation::ShiftLeft => Effect::Sets(
                i.r,
                numbers::shift_left(self.general(i.r), self.general(i.s)),
            ),
            Operation::ShiftRight => Effect::Sets(
                i.r,
                numbers::shift_right(self.general(i.r), self.general(i.s)),
            ),
            Operation::And => Effect::Sets(i.r, self.general(i.r) & self.general(i.s)),
            Operation::Or => Effect::Sets(i.r, self.general(i.r) | self.general(i.s)),
            Operation::Xor => Effect::Sets(i.r, self.general(i.r) ^ self.general(i.s)),
            Operation::Complement => Effect::Sets(i.r, u64::MAX - self.general(i.r)),
            Operation::Negate => Effect::Sets(i.r, 0u64.wrapping_sub(self.general(i.r))),
            Operation::Bool => Effect::Sets(i.r, u64::from(self.general(i.r) != 0)),
            Operation::Not => Effect::Sets(i.r, u64::from(self.general(i.r) == 0)),
            Operation::Add => Effect::Sets(i.r, self.general(i.r).wrapping_add(self.general(i.s))),
            Operation::Subtract => Effect::Sets(
                i.r,
                self.general(i.r).wrapping_sub(self.general(i.s)),
            ),
            Operation::Multiply => Effect::Sets(
                i.r,
                self.general(i.r).wrapping_mul(self.general(i.s)),
            ),
            Operation::UnsignedDivide => sets(
                i.r,
                self.general(i.r).checked_div(self.general(i.s)),
            ),
            Operation::SignedDivide => sets(
                i.r,
                numbers::divide(self.general(i.r), self.general(i.s)),
            ),
            Operation::UnsignedModulo => sets(
                i.r,
                self.general(i.r).checked_rem(self.general(i.s)),
            ),
            Operation::SignedModulo => sets(
                i.r,
                numbers::remainder(self.general(i.r), self.general(i.s)),
            ),
            Operation::SignExtend(n) => Effect::Sets(
                i.r,
                numbers::sign_extend(n, self.general(i.r)),
            ),
            Operation::ZeroExtend(n) => Effect::Sets(
                i.r,
                numbers::zero_extend(n, self.general(i.r)),
            ),
            Operation::UnsignedCompare => Effect::Sets(
                i.r,
                numbers::compare(self.general(i.s), self.general(i.t)),
            ),
            Operation::SignedCompare => Effect::Sets(
                i.r,
                numbers::compare_signed(self.general(i.s), self.general(i.t)),
            ),
            Operation::Jump => Effect::Jumps(i.literal),
            Operation::Call => Effect::Calls(i.literal),
            Operation::JumpNotZero => if self.general(i.r) == 0 {
                Effect::Nothing
            } else {
                Effect::Jumps(i.literal)
            },
            Operation::JumpZero => if self.general(i.r) == 0 {
                Effect::Jumps(i.literal)
            } else {
                Effect::Nothing
            },
            Operation::Return => Effect::Returns,
            Operation::GetStack => Effect::Sets(i.r, self.get(Register::S)),
            Operation::SetStack => Effect::Stacks(self.general(i.r)),
            Operation::Push(n) => Effect::Pushes(n, self.general(i.r)),
            Operation::Pop(n) => Effect::Pops(i.r, n),
            Operation::Increment => Effect::Sets(i.r, self.general(i.r).wrapping_add(1)),
            Operation::Decrement => Effect::Sets(i.r, self.general(i.r).wrapping_sub(1)),
            Operation::LoadStack(n) => Effect::Loads(
                i.r,
                n,
                self.get(Register::S).wrapping_sub(i.literal),
            ),
            Operation::StoreStack(n) => Effect::Stores(
                n,
                self.get(Register::S).wrapping_sub(i.literal),
                self.general(i.r),
            ),
            Operation::Reverse(n) => Effect::Sets(i.r, numbers::reverse(n, self.general(i.r))),
            Operation::MoveNotZero => if self.general(i.r) == 0 {
                Effect::Nothing
            } else {
                Effect::Sets(i.s, self.general(i.t))
            },
            Operation::Unknown => Effect::Faults(End::UnknownOpcode),
        }
    }
}
