// What an instruction is read from: a window's bytes, by accesses that all happen inside of it.
ghost use Rattle.std.specs.Prelude.{◌≡◌, ℕ, ◌+◌, ◌≤◌, List};
ghost use Rattle.memory.specs.Widths.{width_bytes};
ghost use Rattle.numbers.specs.Values.{plus};
ghost use Rattle.isa.specs.Windows.{load as loaded};

use memory::Width;

pub trait Code {
    // The bytes of the window, and where in it the instruction begins.
    ghost shown: { Self → List ℕ };

    ghost start: { Self → ℕ };

    fn opcode(&self) -> u8
        ensures { result ≡ loaded (shown self.now) 1 (start self.now) };

    // The access at i places behind the opcode. No instruction has more than ten bytes.
    fn byte(&self, i: u64) -> u8
        requires { i + 1 ≤ 10 }
        ensures { result ≡ loaded (shown self.now) 1 (plus (start self.now) i) };

    fn load(&self, width: Width, i: u64) -> u64
        requires { i + width_bytes width ≤ 10 }
        ensures { result ≡ loaded (shown self.now) (width_bytes width) (plus (start self.now) i) };
}
