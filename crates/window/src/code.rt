// The code at an address of a window.
ghost use Rattle.std.specs.Prelude.{◌+◌, ◌≤◌};
ghost use Rattle.window.specs.Views.{seen, Whole};

use super::extent::Extent;
use super::view::place;
use isa::Code;
use memory::{Memory, Width, load_inside};

// An instruction that may lie anywhere: each access is placed for itself.
#[derive(Drop)]
pub(crate) struct Anywhere<'a, M: Memory> {
    pub(crate) memory: &'a M,
    pub(crate) extent: Extent,
    pub(crate) p: u64,
    ghost whole: { Whole (M.Memory.bytes memory.now) extent },
}

impl<M: Memory> Code for Anywhere<'_, M> {
    ghost shown = { λ c. seen (M.Memory.bytes c.memory.now) c.extent };

    ghost start = { λ c. c.p };

    #[tactic(auto, using(crate::proofs::Seeing::byte_seen))]
    fn opcode(&self) -> u8 {
        self.memory
            .read_inside(place(self.extent, Width::Byte, self.p))
    }

    #[tactic(auto, using(crate::proofs::Seeing::byte_seen))]
    fn byte(&self, i: u64) -> u8 {
        self.memory
            .read_inside(place(self.extent, Width::Byte, self.p.wrapping_add(i)))
    }

    #[tactic(auto, using(crate::proofs::Seeing::load_seen))]
    fn load(&self, width: Width, i: u64) -> u64 {
        load_inside(
            self.memory,
            place(self.extent, width, self.p.wrapping_add(i)),
            width,
        )
    }
}

// An instruction all of whose bytes lie in the window, however many it has: none is placed elsewhere.
#[derive(Drop)]
pub(crate) struct Inside<'a, M: Memory> {
    pub(crate) memory: &'a M,
    pub(crate) extent: Extent,
    pub(crate) p: u64,
    ghost whole: { Whole (M.Memory.bytes memory.now) extent },
    ghost inside: { p + 10 ≤ extent.max + 1 },
}

impl<M: Memory> Code for Inside<'_, M> {
    ghost shown = { λ c. seen (M.Memory.bytes c.memory.now) c.extent };

    ghost start = { λ c. c.p };

    #[tactic(auto, using(crate::proofs::Seeing::byte_seen, isa::proofs::Placing::placed_fits))]
    fn opcode(&self) -> u8 {
        self.memory.read_inside(self.extent.off + self.p)
    }

    #[tactic(auto, using(crate::proofs::Insides::byte_inside_seen))]
    fn byte(&self, i: u64) -> u8 {
        self.memory.read_inside(self.extent.off + self.p + i)
    }

    #[tactic(auto, using(crate::proofs::Insides::load_inside_seen))]
    fn load(&self, width: Width, i: u64) -> u64 {
        load_inside(self.memory, self.extent.off + self.p + i, width)
    }
}
