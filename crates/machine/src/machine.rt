// A machine owns its memory. Each call names a compartment, and its contract says that its answer and the state at its
// exit are the outcome of the state at its entry.
ghost use Rattle.std.specs.Prelude.{◌≡◌, ℕ, ◌+◌, ◌≤◌, true, List, length as size, replicate, is_ok, is_err, IfOk};
ghost use Rattle.machine.specs.Answers.{done_answer, ended_answer, filled_answer, latest_answer, word_answer};
ghost use Rattle.machine.specs.Calls.{Put, Fetch, Set, Get, Run, Last};
ghost use Rattle.machine.specs.Outcomes.{Outcome, admission, grant};
ghost use Rattle.machine.specs.Inside.{Inside};
ghost use Rattle.machine.specs.Machines.{state, opening};
ghost use Rattle.machine.specs.Separation.{KeptApart};

use super::blocks::{read_all, write_all};
use super::ended::RunEnd;
use super::records::Runs;
use super::refusal::Refusal;
use memory::{Memory, Width, load, store};
use plan::{Plan, Row};
use window::Extent;

#[derive(Drop)]
pub struct Machine<M> {
    memory: M,
    plan: Plan,
    runs: Runs,
}

impl<M: Memory> Machine<M> {
    // The memory as it is, this plan, and no run on record. From here on the compartments are kept apart.
    pub fn make(memory: M, plan: Plan) -> Machine<M>
        ensures opening { state M.Memory.bytes result ≡ opening (M.Memory.bytes memory) plan }
        ensures apart { KeptApart (state M.Memory.bytes result) }
    {
        Machine {
            memory,
            plan,
            runs: Runs::none(),
        }
    }

    // Ends the machine; the memory has the bytes that the machine held.
    pub fn release(self) -> M
        ensures bytes { M.Memory.bytes result ≡ (state M.Memory.bytes self).held }
        ensures whole { result ≡ self.memory }
    {
        let Machine {
            memory,
            plan: _plan,
            runs: _runs,
        } = self;
        memory
    }

    // The row of compartment k, or the refusal that every call on k gives.
    fn admit(&self, k: u16) -> Result<Row, Refusal>
        ensures is { result ≡ admission (state M.Memory.bytes self.now) k }
        ensures inside { IfOk result (λ row. Inside (state M.Memory.bytes self.now) k row) }
    {
        if self.memory.size() < self.plan.size() {
            return Err(Refusal::Memory);
        }
        self.plan.row(k).ok_or(Refusal::Compartment)
    }

    // The row, where so many bytes from an address on lie in the window of compartment k.
    fn span(&self, k: u16, address: u64, length: u64) -> Result<Row, Refusal>
        ensures is { result ≡ grant (state M.Memory.bytes self.now) (Fetch k address length) }
        ensures inside { IfOk result (λ row. Inside (state M.Memory.bytes self.now) k row × (address + length ≤ row.max + 1)) }
    {
        let row = self.admit(k)?;
        if u128::from(address) + u128::from(length) > u128::from(row.max) + 1 {
            return Err(Refusal::Span);
        }
        Ok(row)
    }

    // The row, where the register file of compartment k has an entry of this index.
    fn entry(&self, k: u16, index: u64) -> Result<Row, Refusal>
        ensures is { result ≡ grant (state M.Memory.bytes self.now) (Get k index) }
        ensures inside { IfOk result (λ row. Inside (state M.Memory.bytes self.now) k row × (index ≤ 257)) }
    {
        let row = self.admit(k)?;
        if index > 257 {
            return Err(Refusal::Index);
        }
        Ok(row)
    }

    pub fn put(&mut self, k: u16, address: u64, bytes: &[u8]) -> Result<(), Refusal>
        ensures { Outcome (Put k address bytes.now) (state M.Memory.bytes self.old) (done_answer result) (state M.Memory.bytes self.new) }
    {
        let row = self.span(k, address, bytes.len() as u64)?;
        write_all(&mut self.memory, row.off + address, bytes);
        Ok(())
    }

    pub fn fetch(&self, k: u16, address: u64, buffer: &mut [u8]) -> Result<(), Refusal>
        ensures outcome { Outcome (Fetch k address (size buffer.old)) (state M.Memory.bytes self.now) (filled_answer buffer.new result) (state M.Memory.bytes self.now) }
        ensures unfilled { is_err result ≡ true → buffer.new ≡ buffer.old }
    {
        let row = self.span(k, address, buffer.len() as u64)?;
        read_all(&self.memory, row.off + address, buffer);
        Ok(())
    }

    // What a fetch of so many bytes would answer, without the bytes.
    pub fn spans(&self, k: u16, address: u64, length: u64) -> Result<(), Refusal>
        ensures { (bs : List ℕ) × Outcome (Fetch k address length) (state M.Memory.bytes self.now) (filled_answer bs result) (state M.Memory.bytes self.now) }
    {
        self.span(k, address, length)?;
        Ok(())
    }

    pub fn set(&mut self, k: u16, index: u64, word: u64) -> Result<(), Refusal>
        ensures { Outcome (Set k index word) (state M.Memory.bytes self.old) (done_answer result) (state M.Memory.bytes self.new) }
    {
        let row = self.entry(k, index)?;
        store(&mut self.memory, row.file + 8 * index, Width::Qword, word);
        Ok(())
    }

    pub fn get(&self, k: u16, index: u64) -> Result<u64, Refusal>
        ensures { Outcome (Get k index) (state M.Memory.bytes self.now) (word_answer result) (state M.Memory.bytes self.now) }
    {
        let row = self.entry(k, index)?;
        Ok(load(&self.memory, row.file + 8 * index, Width::Qword))
    }

    // Runs compartment k. The work area holds the registers during the run, and is all zero after it.
    pub fn run(&mut self, k: u16, budget: u64, work: &mut [u64]) -> Result<RunEnd, Refusal>
        ensures outcome { Outcome (Run k budget (size work.old)) (state M.Memory.bytes self.old) (ended_answer result) (state M.Memory.bytes self.new) }
        ensures wiped { is_ok result ≡ true → work.new ≡ replicate 258 0 }
        ensures kept { is_err result ≡ true → work.new ≡ work.old }
        ensures within { IfOk result (λ e. e.count ≤ budget) }
    {
        let row = self.admit(k)?;
        if budget > 1_000_000 {
            return Err(Refusal::Budget);
        }
        if work.len() != 258 {
            return Err(Refusal::Work);
        }
        let window = Extent {
            off: row.off,
            max: row.max,
        };
        let file = Extent {
            off: row.file,
            max: 2063,
        };
        let (end, count) = compartment::run(
            &mut self.memory,
            window,
            file,
            row.saved,
            budget,
            work,
        );
        self.runs.record(k, u8::from(end), count);
        Ok(RunEnd { end, count })
    }

    // The error code and the count of compartment k's latest accepted run, or nothing before the first.
    pub fn last(&self, k: u16) -> Result<Option<(u8, u64)>, Refusal>
        ensures { Outcome (Last k) (state M.Memory.bytes self.now) (latest_answer result) (state M.Memory.bytes self.now) }
    {
        self.admit(k)?;
        Ok(self.runs.latest(k))
    }
}
