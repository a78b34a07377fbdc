// The numbers that a memory may be made of: each stands for some bytes, highest first.
ghost use Rattle.std.specs.Prelude.{◌≡◌, ℕ, ◌+◌, ◌*◌, ◌/◌, ◌^◌, ◌<◌, List, length, slice_index, slice_set, Some};
ghost use Rattle.std.specs.List.{slice_get};
ghost use Rattle.memory.specs.Bytes.{bytes_of_all};
ghost use Rattle.memory.specs.Elements.{byte_whole, word_whole};
ghost use Rattle.std.proofs.Common.{rules};

pub trait Element: Copy {
    // How many bytes a number stands for.
    ghost BYTES: { ℕ };

    // The bytes that a list of numbers stands for, one number behind the other.
    ghost spread: { List Self → List ℕ };

    const BYTES: u64;

    // A byte of this number, which stands at place i of some list.
    fn byte(self, r: u64) -> u8
        requires { r < BYTES }
        ensures { (list : List Self) (i : ℕ) → slice_get list i ≡ Some self → result ≡ slice_index (spread list) (BYTES * i + r) };

    // This number with one byte changed.
    fn with_byte(self, r: u64, byte: u8) -> Self
        requires { r < BYTES }
        ensures { (list : List Self) (i : ℕ) → slice_get list i ≡ Some self → spread (slice_set list i result) ≡ slice_set (spread list) (BYTES * i + r) byte };

    ghost whole: { (list : List Self) → length (spread list) ≡ BYTES * length list };

    ghost some: { 0 < BYTES };

    // A memory is not cut off within a number.
    ghost even: { BYTES * (2 ^ 32 / BYTES) ≡ 2 ^ 32 };
}

impl Element for u8 {
    ghost BYTES = { 1 };

    ghost spread = { λ list. list };

    const BYTES: u64 = 1;

    ghost whole = { byte_whole };

    ghost some = { Prim.search rules };

    ghost even = { Prim.search rules };

    fn byte(self, _r: u64) -> u8 {
        self
    }

    fn with_byte(self, _r: u64, byte: u8) -> u8 {
        byte
    }
}

impl Element for u64 {
    ghost BYTES = { 8 };

    ghost spread = { bytes_of_all };

    const BYTES: u64 = 8;

    ghost whole = { word_whole };

    ghost some = { Prim.search rules };

    ghost even = { Prim.search rules };

    fn byte(self, r: u64) -> u8 {
        self.to_be_bytes()[r as usize]
    }

    fn with_byte(self, r: u64, byte: u8) -> u64 {
        let mut bytes = self.to_be_bytes();
        bytes[r as usize] = byte;
        u64::from_be_bytes(bytes)
    }
}
