// Running instructions: one instruction, and the run of a budget.
ghost use Rattle.std.specs.Prelude.{◌≡◌, ◌≤◌, None};
ghost use Rattle.bank.specs.Registers.{register_index};
ghost use Rattle.isa.specs.Reading.{decoded};
ghost use Rattle.isa.specs.Steps.{P, S, held, taking, performed, obeyed, stepped};
ghost use Rattle.memory.specs.Widths.{width_bytes};
ghost use Rattle.numbers.specs.Values.{plus, minus};
ghost use Rattle.cpu.specs.Configs.{begun};
ghost use Rattle.cpu.specs.Finishing.{finished};
ghost use Rattle.cpu.specs.Configs.{left_of};
ghost use Rattle.cpu.specs.declared.rest.Rest.TheVariants.{Nothing};

use super::rest::Rest;
use arms::{Rows, do_row};
use bank::{Bank, Register};
use isa::{Effect, End, Entry, Instruction};
use memory::{Memory, Width};
use window::Window;

// What instructions run on. It is made by its fields, and is lent the bank.
#[derive(Drop)]
pub struct Processor<'m, 'b, 'w, M: Memory> {
    pub window: Window<'m, M>,
    pub bank: &'b mut Bank<'w>,
    // P as it now is: each instruction moves it, so it does not stand in the bank, whose own is stale.
    pub p: u64,
    // The end, where the last instruction ended the run.
    pub ended: Option<End>,
}

impl<M: Memory> Processor<'_, '_, '_, M> {
    ghost use Rattle.cpu.specs.Processors.{config_of, Reaches, Ready};

    // The instruction at P.
    pub fn read(&self) -> Instruction
        ensures { result ≡ decoded (config_of self.now).window (held (config_of self.now) P) }
    {
        self.window.instruction(self.get(Register::P))
    }

    pub(crate) fn get(&self, register: Register) -> u64
        ensures { result ≡ held (config_of self.now) (register_index register) }
    {
        match register {
            Register::P => self.p,
            _ => self.bank.get(register),
        }
    }

    fn set(&mut self, register: Register, value: u64)
        ensures { Reaches self.old self.new (taking (config_of self.old) (register_index register) value) }
    {
        match register {
            Register::P => self.p = value,
            _ => self.bank.set(register, value),
        }
    }

    // Moves S up; where it stood.
    fn push(&mut self, width: Width) -> u64
        ensures top { result ≡ held (config_of self.old) S }
        ensures next { Reaches self.old self.new (taking (config_of self.old) S (plus (held (config_of self.old) S) (width_bytes width))) }
    {
        let top = self.get(Register::S);
        self.set(Register::S, top.wrapping_add(width.bytes()));
        top
    }

    // Moves S down; where it then stands.
    fn pop(&mut self, width: Width) -> u64
        ensures top { result ≡ minus (held (config_of self.old) S) (width_bytes width) }
        ensures next { Reaches self.old self.new (taking (config_of self.old) S (minus (held (config_of self.old) S) (width_bytes width))) }
    {
        let top = self.get(Register::S).wrapping_sub(width.bytes());
        self.set(Register::S, top);
        top
    }

    // Sets a register; nothing is left to do then.
    fn put(&mut self, register: Register, value: u64) -> Rest
        ensures left { result ≡ Nothing }
        ensures next { Reaches self.old self.new (taking (config_of self.old) (register_index register) value) }
    {
        self.set(register, value);
        Rest::Nothing
    }

    // Moves the registers as the effect says; what is left to do of an instruction that was begun at p.
    #[inline(always)]
    fn settle(&mut self, p: u64, effect: Effect) -> Rest
        ensures left { finished result (config_of self.new) ≡ performed effect (begun (config_of self.old) p) (config_of self.old) }
        ensures next { Reaches self.old self.new (config_of self.new) }
    {
        match effect {
            Effect::Ends(end) => Rest::Ends(end),
            Effect::Faults(end) => {
                self.set(Register::P, p);
                Rest::Ends(end)
            }
            Effect::Nothing => Rest::Nothing,
            Effect::Sets(register, value) => self.put(Register::General(register), value),
            Effect::Jumps(address) => self.put(Register::P, address),
            Effect::Stacks(address) => self.put(Register::S, address),
            Effect::Loads(register, width, address) => Rest::Loads(
                Register::General(register),
                width,
                address,
            ),
            Effect::Stores(width, address, value) => Rest::Stores(width, address, value),
            Effect::Pushes(width, value) => Rest::Stores(width, self.push(width), value),
            Effect::Pops(register, width) => Rest::Loads(
                Register::General(register),
                width,
                self.pop(width),
            ),
            Effect::Calls(address) => {
                let back = self.get(Register::P);
                let top = self.push(Width::Qword);
                self.set(Register::P, address);
                Rest::Stores(Width::Qword, top, back)
            }
            Effect::Returns => Rest::Loads(Register::P, Width::Qword, self.pop(Width::Qword)),
        }
    }

    // Does the access that is left; the end, where the instruction ends the run.
    #[inline(always)]
    fn finish(&mut self, rest: Rest) -> Option<End>
        ensures end { result ≡ (finished rest (config_of self.old)).end }
        ensures next { Reaches self.old self.new (finished rest (config_of self.old)).next }
    {
        match rest {
            Rest::Ends(end) => return Some(end),
            Rest::Nothing => {}
            Rest::Loads(register, width, address) => {
                let value = self.window.view().load(width, address);
                self.set(register, value);
            }
            Rest::Stores(width, address, value) => self.window.store(width, address, value),
        }
        None
    }

    // P moves on, the sources are read, and the effect follows.
    #[tactic(auto, using(crate::proofs::Passing::begun_is))]
    #[inline(always)]
    fn obey(&mut self, instruction: Instruction)
        ensures end { self.new.ended ≡ (obeyed (config_of self.old) instruction).end }
        ensures next { Reaches self.old self.new (obeyed (config_of self.old) instruction).next }
    {
        let Instruction {
            operation,
            operands,
            length,
        } = instruction;
        let p = self.get(Register::P);
        self.set(Register::P, p.wrapping_add(u64::from(length)));
        let effect = self.weigh(operation, operands);
        let rest = self.settle(p, effect);
        self.ended = self.finish(rest);
    }

    // The end, where the instruction ends the run.
    pub fn perform(&mut self, instruction: Instruction) -> Option<End>
        ensures end { result ≡ (obeyed (config_of self.old) instruction).end }
        ensures next { Reaches self.old self.new (obeyed (config_of self.old) instruction).next }
    {
        self.obey(instruction);
        self.ended
    }

    // The instruction at P, read and performed, wherever it lies.
    #[tactic(auto, unfolding(isa::specs::Steps::stepped))]
    pub(crate) fn step(&mut self) -> Option<End>
        ensures end { result ≡ (stepped (config_of self.old)).end }
        ensures next { Reaches self.old self.new (stepped (config_of self.old)).next }
    {
        let instruction = self.read();
        self.perform(instruction)
    }

    // The same of one that lies in the window whole, by its opcode's arm.
    #[tactic(auto, unfolding(isa::specs::Steps::stepped, isa::specs::Reading::decoded))]
    fn step_inside(&mut self) -> Option<End>
        requires { Ready self.old }
        ensures end { result ≡ (stepped (config_of self.old)).end }
        ensures next { Reaches self.old self.new (stepped (config_of self.old)).next }
    {
        let opcode = self.window.opcode(self.get(Register::P));
        do_row(self, opcode);
        self.ended
    }

    // Goes on as long as instructions lie in the window whole; the end, where one ends the run, and how many were begun.
    pub(crate) fn dash(&mut self, count: u64, budget: u64) -> (Option<End>, u64)
        requires { count ≤ budget }
        ensures left { left_of result.0 budget result.1 (config_of self.new) ≡ left_of None budget count (config_of self.old) }
        ensures next { Reaches self.old self.new (config_of self.new) }
        ensures onward { count ≤ result.1 }
        ensures within { result.1 ≤ budget }
    {
        let mut count = count;
        while count < budget && self.window.extent.has_code(self.get(Register::P)) {
            count += 1;
            if let Some(end) = self.step_inside() {
                return (Some(end), count);
            }
        }
        (None, count)
    }
}

impl<M: Memory> Rows for Processor<'_, '_, '_, M> {
    ghost use Rattle.cpu.specs.Processors.{Ready, Does};

    ghost ready = { Ready };

    ghost does = { Does };

    // Built into each opcode's arm with all that it calls (`inline`), where the instruction is a constant but for its operands.
    #[inline(always)]
    fn row(&mut self, row: Entry) {
        let instruction = self.window.instruction_inside(self.get(Register::P), row);
        self.obey(instruction);
    }
}
