// The run of a budget on a memory.
ghost use Rattle.std.specs.Prelude.{◌≡◌, ◌≤◌, None, length};
ghost use Rattle.bank.specs.Banks.{words_of, lender};
ghost use Rattle.isa.specs.Runs.{ran};
ghost use Rattle.isa.specs.Steps.{stepped};
ghost use Rattle.window.specs.Views.{seen, replaced, Whole};
ghost use Rattle.window.specs.Windows.{memory_parts};
ghost use Rattle.cpu.specs.Configs.{config, left_of};

use super::processor::Processor;
use bank::{Bank, Register};
use isa::End;
use memory::Memory;
use window::{Extent, Window};

// One instruction, wherever it lies. As in the other two, memory and bank stay the caller's, so clauses name both.
fn step<M: Memory>(memory: &mut M, extent: Extent, bank: &mut Bank<'_>) -> Option<End>
    requires { Whole (M.Memory.bytes memory.old) extent }
    ensures end { result ≡ (stepped (config (M.Memory.bytes memory.old) extent bank.old)).end }
    ensures next { config (M.Memory.bytes memory.new) extent bank.new ≡ (stepped (config (M.Memory.bytes memory.old) extent bank.old)).next }
    ensures around { memory_parts (M.Memory.bytes memory.new) extent ≡ record (memory_parts (M.Memory.bytes memory.old) extent) { window = seen (M.Memory.bytes memory.new) extent } }
    ensures whole { Whole (M.Memory.bytes memory.new) extent }
    ensures lent { lender bank.new ≡ lender bank.old }
{
    let mut processor = Processor {
        window: Window { memory, extent },
        p: bank.get(Register::P),
        bank,
        ended: None,
    };
    let ended = processor.step();
    let p = processor.p;
    bank.set(Register::P, p);
    ended
}

// As many instructions as lie in the window whole; the end, where one ends the run, and how many are begun of the budget.
fn dash<M: Memory>(
    memory: &mut M,
    extent: Extent,
    bank: &mut Bank<'_>,
    count: u64,
    budget: u64,
) -> (Option<End>, u64)
    requires whole { Whole (M.Memory.bytes memory.old) extent }
    requires begun { count ≤ budget }
    ensures left { left_of result.0 budget result.1 (config (M.Memory.bytes memory.new) extent bank.new) ≡ left_of None budget count (config (M.Memory.bytes memory.old) extent bank.old) }
    ensures around { memory_parts (M.Memory.bytes memory.new) extent ≡ record (memory_parts (M.Memory.bytes memory.old) extent) { window = seen (M.Memory.bytes memory.new) extent } }
    ensures whole { Whole (M.Memory.bytes memory.new) extent }
    ensures lent { lender bank.new ≡ lender bank.old }
    ensures onward { count ≤ result.1 }
    ensures within { result.1 ≤ budget }
{
    let mut processor = Processor {
        window: Window { memory, extent },
        p: bank.get(Register::P),
        bank,
        ended: None,
    };
    let gone = processor.dash(count, budget);
    let next = processor.p;
    bank.set(Register::P, next);
    gone
}

// How the run ends, and how many instructions were begun. What is called twice is not built in, so that the loop of `dash`
// has the machine's registers for itself.
pub fn run<M: Memory>(
    memory: &mut M,
    extent: Extent,
    bank: &mut Bank<'_>,
    budget: u64,
) -> (End, u64)
    requires { Whole (M.Memory.bytes memory.old) extent }
    ensures end { result.0 ≡ (ran budget (config (M.Memory.bytes memory.old) extent bank.old)).end }
    ensures count { result.1 ≡ (ran budget (config (M.Memory.bytes memory.old) extent bank.old)).count }
    ensures words { words_of bank.new ≡ (ran budget (config (M.Memory.bytes memory.old) extent bank.old)).last.registers }
    ensures bytes { M.Memory.bytes memory.new ≡ replaced (M.Memory.bytes memory.old) extent (ran budget (config (M.Memory.bytes memory.old) extent bank.old)).last.window }
    ensures size { length (M.Memory.bytes memory.new) ≡ length (M.Memory.bytes memory.old) }
    ensures lent { lender bank.new ≡ lender bank.old }
    ensures within { result.1 ≤ budget }
{
    let (mut ended, mut count) = dash(memory, extent, bank, 0, budget);
    while ended.is_none() && count < budget {
        ended = step(memory, extent, bank);
        count += 1;
        if ended.is_none() {
            (ended, count) = dash(memory, extent, bank, count, budget);
        }
    }
    (ended.unwrap_or(End::Budget), count)
}
