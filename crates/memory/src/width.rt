// How many bytes an access has.
ghost use Rattle.std.specs.Prelude.{◌≡◌};
ghost use Rattle.memory.specs.Widths.{width_bytes};

#[derive(Clone, Copy, PartialEq, Eq, Debug)]
pub enum Width {
    Byte = 1,
    Short = 2,
    Long = 4,
    Qword = 8,
}

impl Width {
    // A method and no `From`, since a width has a number of bytes and is none.
    pub fn bytes(self) -> u64
        ensures { result ≡ width_bytes self }
    {
        self as u64
    }
}
