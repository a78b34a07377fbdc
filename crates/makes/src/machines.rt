// A machine over the memory of a script, of whichever make it is.
ghost use Rattle.std.specs.Prelude.{◌≡◌, ℕ, true, List, length, replicate, is_err, is_ok};
ghost use Rattle.machine.specs.Answers.{done_answer, ended_answer, filled_answer, latest_answer, word_answer};
ghost use Rattle.machine.specs.Calls.{Put, Fetch, Set, Get, Run, Last};
ghost use Rattle.machine.specs.Machines.{opening};
ghost use Rattle.machine.specs.Outcomes.{Outcome};
ghost use Rattle.machine.specs.Separation.{KeptApart};
ghost use Rattle.makes.specs.Stores.{store_bytes, machine_state};

use super::store::{Store, for_make, map_make};
use machine::{Machine, Refusal, RunEnd};
use memory::{Flat, Spliced, Words};
use plan::Plan;

// A machine of each make, and not one over `Store`: so the make is chosen once a call and not once a byte.
#[derive(Drop)]
pub enum AnyMachine {
    Flat(Machine<Flat>),
    Words(Machine<Words>),
    Spliced(Machine<Spliced<Flat, Words>>),
}

impl AnyMachine {
    pub fn make(store: Store, plan: Plan) -> AnyMachine
        ensures opening { machine_state result ≡ opening (store_bytes store) plan }
        ensures apart { KeptApart (machine_state result) }
    {
        map_make!(Store, store, memory => AnyMachine, Machine::make(memory, plan))
    }

    pub fn release(self) -> Store
        ensures { store_bytes result ≡ (machine_state self).held }
    {
        map_make!(AnyMachine, self, machine => Store, machine.release())
    }

    pub fn put(&mut self, k: u16, address: u64, bytes: &[u8]) -> Result<(), Refusal>
        ensures { Outcome (Put k address bytes.now) (machine_state self.old) (done_answer result) (machine_state self.new) }
    {
        for_make!(AnyMachine, self, machine => machine.put(k, address, bytes))
    }

    pub fn fetch(&self, k: u16, address: u64, buffer: &mut [u8]) -> Result<(), Refusal>
        ensures outcome { Outcome (Fetch k address (length buffer.old)) (machine_state self.now) (filled_answer buffer.new result) (machine_state self.now) }
        ensures unfilled { is_err result ≡ true → buffer.new ≡ buffer.old }
    {
        for_make!(AnyMachine, self, machine => machine.fetch(k, address, buffer))
    }

    pub fn spans(&self, k: u16, address: u64, size: u64) -> Result<(), Refusal>
        ensures { (bs : List ℕ) × Outcome (Fetch k address size) (machine_state self.now) (filled_answer bs result) (machine_state self.now) }
    {
        for_make!(AnyMachine, self, machine => machine.spans(k, address, size))
    }

    pub fn set(&mut self, k: u16, index: u64, word: u64) -> Result<(), Refusal>
        ensures { Outcome (Set k index word) (machine_state self.old) (done_answer result) (machine_state self.new) }
    {
        for_make!(AnyMachine, self, machine => machine.set(k, index, word))
    }

    pub fn get(&self, k: u16, index: u64) -> Result<u64, Refusal>
        ensures { Outcome (Get k index) (machine_state self.now) (word_answer result) (machine_state self.now) }
    {
        for_make!(AnyMachine, self, machine => machine.get(k, index))
    }

    pub fn run(&mut self, k: u16, budget: u64, work: &mut [u64]) -> Result<RunEnd, Refusal>
        ensures outcome { Outcome (Run k budget (length work.old)) (machine_state self.old) (ended_answer result) (machine_state self.new) }
        ensures wiped { is_ok result ≡ true → work.new ≡ replicate 258 0 }
        ensures kept { is_err result ≡ true → work.new ≡ work.old }
    {
        for_make!(AnyMachine, self, machine => machine.run(k, budget, work))
    }

    pub fn last(&self, k: u16) -> Result<Option<(u8, u64)>, Refusal>
        ensures { Outcome (Last k) (machine_state self.now) (latest_answer result) (machine_state self.now) }
    {
        for_make!(AnyMachine, self, machine => machine.last(k))
    }
}
