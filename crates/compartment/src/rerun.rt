// The whole run of a compartment, over any memory.
ghost use Rattle.std.specs.Prelude.{◌≡◌, ◌≤◌, ◌⊎◌, length, replicate};
ghost use Rattle.isa.specs.Compartments.{compartment_ran};
ghost use Rattle.isa.specs.Ends.{end_code};
ghost use Rattle.window.specs.Views.{seen, replaced, Whole, Before};
ghost use Rattle.compartment.specs.Files.{IsFile};

use super::file::{put_back, take_in};
use bank::Bank;
use isa::End;
use memory::Memory;
use window::{Extent, View, Window};

// How the run ends, and how many instructions were begun. The work area holds the registers, and is wiped. What is asked
// of memory, window and file is asked here, where they come together.
pub fn run<M: Memory>(
    memory: &mut M,
    window: Extent,
    file: Extent,
    saved: u16,
    budget: u64,
    work: &mut [u64],
) -> (End, u64)
    requires window { Whole (M.Memory.bytes memory.old) window }
    requires file { Whole (M.Memory.bytes memory.old) file }
    requires long { IsFile file }
    requires apart { Before window file ⊎ Before file window }
    requires full { length work.old ≡ 258 }
    ensures code { end_code result.0 ≡ (compartment_ran (seen (M.Memory.bytes memory.old) window) (seen (M.Memory.bytes memory.old) file) saved budget).code }
    ensures count { result.1 ≡ (compartment_ran (seen (M.Memory.bytes memory.old) window) (seen (M.Memory.bytes memory.old) file) saved budget).count }
    ensures bytes { M.Memory.bytes memory.new ≡ replaced (replaced (M.Memory.bytes memory.old) window (compartment_ran (seen (M.Memory.bytes memory.old) window) (seen (M.Memory.bytes memory.old) file) saved budget).window) file (compartment_ran (seen (M.Memory.bytes memory.old) window) (seen (M.Memory.bytes memory.old) file) saved budget).file }
    ensures wiped { work.new ≡ replicate 258 0 }
    ensures within { result.1 ≤ budget }
{
    take_in(&View::new(memory, file), saved, work);
    let mut bank = Bank::open(work);
    let ended = cpu::run(memory, window, &mut bank, budget);
    let mut file = Window {
        memory,
        extent: file,
    };
    put_back(&mut file, saved, &bank);
    ended
}
