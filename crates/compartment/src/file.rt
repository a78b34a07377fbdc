// A register file and the registers: what a run takes in, and what it puts back.
ghost use Rattle.std.specs.Prelude.{◌≡◌, length};
ghost use Rattle.bank.specs.Banks.{words_of};
ghost use Rattle.isa.specs.Compartments.{started, filed};
ghost use Rattle.window.specs.Windows.{parts_of};

use bank::Bank;
use memory::Memory;
use window::{View, Window};

// Fills the registers with the entries that last; every other one is zero.
pub(crate) fn take_in<M: Memory>(file: &View<'_, M>, saved: u16, registers: &mut [u64])
    requires long { length file.now ≡ 2064 }
    requires full { length registers.old ≡ 258 }
    ensures { registers.new ≡ started file.now saved }
{
    let kept = usize::from(saved).min(256);
    for index in 0..kept {
        registers[index] = file.qword(8 * index as u64);
    }
    registers[kept..256].fill(0);
    // P and S.
    registers[256] = file.qword(8 * 256);
    registers[257] = file.qword(8 * 257);
}

// Writes the entries that last back from the bank; every other byte stays.
pub(crate) fn put_back<M: Memory>(file: &mut Window<'_, M>, saved: u16, bank: &Bank<'_>)
    requires { length (parts_of file.old).window ≡ 2064 }
    ensures parts { parts_of file.new ≡ record (parts_of file.old) { window = filed (parts_of file.old).window saved (words_of bank.now) } }
    ensures lent { file.new.memory.ghost_name ≡ file.old.memory.ghost_name }
{
    let words = bank.words();
    let kept = usize::from(saved).min(256);
    for index in 0..kept {
        file.put_qword(8 * index as u64, words[index]);
    }
    file.put_qword(8 * 256, words[256]);
    file.put_qword(8 * 257, words[257]);
}
