// The operands of the commands.
ghost use Rattle.std.specs.Prelude.{◌≡◌};
ghost use Rattle.lines.specs.Operands.{most_of, name_of};

#[derive(Clone, Copy, PartialEq, Eq, Debug)]
pub enum Operand {
    N,
    M,
    Off,
    Max,
    File,
    Saved,
    Size,
    K,
    Address,
    Index,
    Word,
    Length,
    Budget,
    Work,
}

impl Operand {
    // Its name in the format. A text and no `Display`, since a message is bytes and takes it whole.
    pub(crate) fn name(self) -> &'static str
        ensures { result.now ≡ name_of self }
    {
        match self {
            Operand::N => "N",
            Operand::M => "M",
            Operand::Off => "OFF",
            Operand::Max => "MAX",
            Operand::File => "FILE",
            Operand::Saved => "SAVED",
            Operand::Size => "SIZE",
            Operand::K => "K",
            Operand::Address => "ADDRESS",
            Operand::Index => "INDEX",
            Operand::Word => "WORD",
            Operand::Length => "LENGTH",
            Operand::Budget => "BUDGET",
            Operand::Work => "WORK",
        }
    }

    // The largest number that it takes.
    pub(crate) fn most(self) -> u64
        ensures { result ≡ most_of self }
    {
        match self {
            Operand::Saved | Operand::K => 0xffff,
            Operand::N
            | Operand::M
            | Operand::Off
            | Operand::Max
            | Operand::File
            | Operand::Size
            | Operand::Address
            | Operand::Index
            | Operand::Word
            | Operand::Length
            | Operand::Budget
            | Operand::Work => u64::MAX,
        }
    }
}
