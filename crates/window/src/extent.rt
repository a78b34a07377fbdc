// Where a window lies in its memory.
ghost use Rattle.std.specs.Prelude.{◌≡◌, ℕ, ◌+◌, ◌^◌, ◌<◌, ◌≤◌, nat_le};

// No byte of an instruction stands further behind its opcode.
const LAST: u64 = 9;

// The max + 1 bytes, at least eight, from address off on.
#[derive(Clone, Copy)]
pub struct Extent {
    pub off: u64,
    pub max: u64,
    ghost ok: { (7 ≤ max) × (off + max < 2 ^ 64) },
}

impl Extent {
    // Whether an instruction at p lies in the window whole, however many bytes it has.
    pub fn has_code(self, p: u64) -> bool
        ensures { result ≡ nat_le (p + 10) (self.max + 1) }
    {
        p < self.max.saturating_sub(LAST - 1)
    }
}
