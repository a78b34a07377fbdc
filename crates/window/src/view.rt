// A window as it is read.
ghost use Rattle.std.specs.Prelude.{◌≡◌, ◌+◌, ◌≤◌};
ghost use Rattle.isa.specs.Reading.{decoded};
ghost use Rattle.isa.specs.Windows.{load as loaded, placed};
ghost use Rattle.memory.specs.Widths.{width_bytes};
ghost use Rattle.window.specs.Views.{seen, Whole};

use super::code::Anywhere;
use super::extent::Extent;
use isa::{Instruction, decode};
use memory::{Memory, Width, load_inside};
use std::marker::Model;

// The bytes of an extent that the memory has whole; a clause sees them as a list.
#[derive(Drop)]
pub struct View<'a, M: Memory> {
    memory: &'a M,
    extent: Extent,
}

impl<'a, M: Memory> Model for View<'a, M> {
    ghost use Rattle.std.specs.Prelude.{ℕ, List};
    ghost use Rattle.window.specs.Views.{seen, Whole};

    ghost Value = { List ℕ };

    ghost view = { λ v. seen (M.Memory.bytes v.memory.now) v.extent };

    ghost invariant = { λ v. Whole (M.Memory.bytes v.memory.now) v.extent };
}

impl<'a, M: Memory> View<'a, M> {
    // That the memory has the extent whole is asked here, where the two come together, and of no access.
    pub fn new(memory: &'a M, extent: Extent) -> View<'a, M>
        requires { Whole (M.Memory.bytes memory.now) extent }
        ensures { result ≡ seen (M.Memory.bytes memory.now) extent }
    {
        View { memory, extent }
    }
}

impl<M: Memory> View<'_, M> {
    // The instruction at an address, wherever it lies.
    pub fn instruction(&self, p: u64) -> Instruction
        ensures { result ≡ decoded self.now p }
    {
        decode(&Anywhere {
            memory: self.memory,
            extent: self.extent,
            p,
        })
    }

    #[tactic(auto, using(crate::proofs::Seeing::load_seen))]
    fn number(&self, width: Width, address: u64) -> u64
        ensures { result ≡ loaded self.now (width_bytes width) address }
    {
        load_inside(self.memory, place(self.extent, width, address), width)
    }

    // An arm for each width, so that the compiler builds each one in for itself.
    pub fn load(&self, width: Width, address: u64) -> u64
        ensures { result ≡ loaded self.now (width_bytes width) address }
    {
        match width {
            Width::Byte => self.number(Width::Byte, address),
            Width::Short => self.number(Width::Short, address),
            Width::Long => self.number(Width::Long, address),
            Width::Qword => self.number(Width::Qword, address),
        }
    }

    // The same of a qword, for what is loaded seldom: `load` is built into the loop of a run where nothing else uses it.
    #[tactic(auto, using(crate::proofs::Seeing::load_seen))]
    pub fn qword(&self, address: u64) -> u64
        ensures { result ≡ loaded self.now 8 address }
    {
        load_inside(
            self.memory,
            place(self.extent, Width::Qword, address),
            Width::Qword,
        )
    }
}

// The memory address of an access at window address a.
pub(crate) fn place(extent: Extent, width: Width, a: u64) -> u64
    ensures is { result ≡ extent.off + placed (extent.max + 1) (width_bytes width) a }
    ensures fits { placed (extent.max + 1) (width_bytes width) a + width_bytes width ≤ extent.max + 1 }
{
    let last = width.bytes() - 1;
    extent.off + (if a <= extent.max - last { a } else { 0 })
}
