// Two machines over memories of two makes, under two plans. Of the first one another compartment is used as well.
ghost use Rattle.std.specs.Prelude.{◌≡◌, ◌≢◌};
ghost use Rattle.machine.specs.Answers.{latest_answer};
ghost use Rattle.machine.specs.Calls.{Run, Last};
ghost use Rattle.machine.specs.Machines.{opening};
ghost use Rattle.machine.specs.Outcomes.{outcome};
ghost use Rattle.machine.specs.Separation.{Alike, Roomy};

use machine::{Machine, Refusal};
use memory::Memory;
use plan::Plan;

// How the latest run of a compartment has ended, if the call was accepted.
pub type Latest = Result<Option<(u8, u64)>, Refusal>;

// Runs compartment k of both, and asks both how that has ended: as it does where nothing else is called. `make` and the
// calls promise all that this one promises.
pub fn latest_of_both<M: Memory + Drop, N: Memory + Drop>(
    one: M,
    left: Plan,
    two: N,
    right: Plan,
    k: u16,
    other: u16,
    bytes: &[u8],
    budget: u64,
) -> (Latest, Latest)
    requires roomy { Roomy (opening (M.Memory.bytes one) left) }
    requires spacious { Roomy (opening (N.Memory.bytes two) right) }
    requires alike { Alike k (opening (M.Memory.bytes one) left) (opening (N.Memory.bytes two) right) }
    requires another { other ≢ k }
    ensures same { latest_answer result.0 ≡ latest_answer result.1 }
    ensures alone { latest_answer result.1 ≡ (outcome (outcome (opening (N.Memory.bytes two) right) (Run k budget 258)).1 (Last k)).0 }
{
    let mut a = Machine::make(one, left);
    let mut b = Machine::make(two, right);
    let _put = a.put(other, 0, bytes);
    let _other = a.run(other, budget, &mut [0u64; 258]);
    let _mine = a.run(k, budget, &mut [0u64; 258]);
    let _theirs = b.run(k, budget, &mut [0u64; 258]);
    let latest = (a.last(k), b.last(k));
    let _one = a.release();
    let _two = b.release();
    latest
}
