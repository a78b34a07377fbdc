// A window as it is read and written.
ghost use Rattle.std.specs.Prelude.{◌≡◌, ◌+◌, ◌≤◌};
ghost use Rattle.isa.specs.Reading.{decoded, instruction_of};
ghost use Rattle.isa.specs.Windows.{load as loaded, store as stored};
ghost use Rattle.memory.specs.Widths.{width_bytes};
ghost use Rattle.window.specs.Views.{Whole};

use super::code::Inside;
use super::extent::Extent;
use super::view::{View, place};
use isa::{Code, Entry, Instruction, decode_row};
use memory::{Memory, Width, store_inside};

// The bytes of an extent that the memory has whole, and that may change.
#[derive(Drop)]
pub struct Window<'a, M: Memory> {
    pub memory: &'a mut M,
    pub extent: Extent,
    ghost whole: { Whole (M.Memory.bytes memory.now) extent },
}

impl<M: Memory> Window<'_, M> {
    ghost use Rattle.window.specs.Windows.{parts_of};

    // The window as it now is.
    pub fn view(&self) -> View<'_, M>
        ensures { result ≡ (parts_of self.now).window }
    {
        View::new(self.memory, self.extent)
    }

    // The instruction at an address.
    pub fn instruction(&self, p: u64) -> Instruction
        ensures { result ≡ decoded (parts_of self.now).window p }
    {
        self.view().instruction(p)
    }

    // Of code that lies in the window whole: the opcode, and the instruction that a row of the table makes of it. No access is
    // placed.
    pub fn opcode(&self, p: u64) -> u8
        requires { p + 10 ≤ self.now.extent.max + 1 }
        ensures { result ≡ loaded (parts_of self.now).window 1 p }
    {
        self.code(p).opcode()
    }

    #[inline(always)]
    pub fn instruction_inside(&self, p: u64, row: Entry) -> Instruction
        requires { p + 10 ≤ self.now.extent.max + 1 }
        ensures { result ≡ instruction_of row (parts_of self.now).window p }
    {
        decode_row(&self.code(p), row)
    }

    fn code(&self, p: u64) -> Inside<'_, M>
        requires { p + 10 ≤ self.now.extent.max + 1 }
        ensures memory { result.memory.now ≡ self.now.memory.now }
        ensures extent { result.extent ≡ self.now.extent }
        ensures p { result.p ≡ p }
    {
        Inside {
            memory: self.memory,
            extent: self.extent,
            p,
        }
    }

    pub fn store(&mut self, width: Width, address: u64, value: u64)
        ensures parts { parts_of self.new ≡ record (parts_of self.old) { window = stored (parts_of self.old).window (width_bytes width) address value } }
        ensures lent { self.new.memory.ghost_name ≡ self.old.memory.ghost_name }
    {
        let at = place(self.extent, width, address);
        store_inside(self.memory, at, width, value);
    }

    // The same of a qword, for what is stored seldom.
    pub fn put_qword(&mut self, address: u64, value: u64)
        ensures parts { parts_of self.new ≡ record (parts_of self.old) { window = stored (parts_of self.old).window 8 address value } }
        ensures lent { self.new.memory.ghost_name ≡ self.old.memory.ghost_name }
    {
        let at = place(self.extent, Width::Qword, address);
        store_inside(self.memory, at, Width::Qword, value);
    }
}
