// The registers by name.
ghost use Rattle.std.specs.Prelude.{◌≡◌, ◌<◌};
ghost use Rattle.bank.specs.Registers.{register_index};

#[derive(Clone, Copy, PartialEq, Eq, Debug)]
pub enum Register {
    General(u8),
    P,
    S,
}

impl Register {
    // Where its word stands in a bank.
    pub(crate) fn index(self) -> usize
        ensures is { result ≡ register_index self }
        ensures below { result < 258 }
    {
        match self {
            Register::General(register) => register as usize,
            Register::P => 256,
            Register::S => 257,
        }
    }
}
