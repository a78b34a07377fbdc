// How a run ends, with the error code by which each end is known outside.
ghost use Rattle.std.specs.Prelude.{◌≡◌};
ghost use Rattle.isa.specs.Ends.{end_code};

#[derive(Clone, Copy, PartialEq, Eq, Debug)]
pub enum End {
    Halt = 0,
    Privilege = 1,
    Budget = 2,
    Device = 3,
    SystemCall = 4,
    UnknownOpcode = 5,
    IntegerMath = 16,
}

impl From<End> for u8 {
    ghost from_gives = { λ end code. code ≡ end_code end };

    fn from(end: End) -> u8 {
        end as u8
    }
}
