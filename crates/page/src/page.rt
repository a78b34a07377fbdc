// A memory of one page: it has 4,096 bytes and never more, so they stand in an array.
ghost use Rattle.std.specs.Prelude.{◌≡◌, length, replicate};
ghost use Rattle.std.proofs.Common.{rules};

use memory::Memory;

const SIZE: u64 = 4096;

#[derive(Drop)]
pub struct Page {
    cells: [u8; 4096],
    ghost whole: { length cells ≡ 4096 },
}

impl Page {
    // A page of zeros.
    pub fn blank() -> Page
        ensures { result.cells ≡ replicate 4096 0 }
    {
        Page { cells: [0; 4096] }
    }
}

impl Memory for Page {
    ghost bytes = { λ p. p.cells };

    ghost short = { Prim.search rules };

    fn size(&self) -> u64 {
        SIZE
    }

    fn read(&self, address: u64) -> u8 {
        if address < SIZE {
            self.cells[address as usize]
        } else {
            0
        }
    }

    fn write(&mut self, address: u64, byte: u8) {
        if address < SIZE {
            self.cells[address as usize] = byte;
        }
    }
}
