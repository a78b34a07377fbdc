// Why rows are refused.
ghost use Rattle.std.specs.Prelude.{◌≡◌};
ghost use Rattle.plan.specs.Grounds.{ground_number};

// The grounds, in the order in which they are tried, each with the number by which it is known outside.
#[derive(Clone, Copy, PartialEq, Eq, Debug)]
pub enum Ground {
    Rows = 101,
    Size = 102,
    Short = 103,
    Saved = 104,
    Outside = 105,
    Overlap = 106,
}

impl From<Ground> for u16 {
    ghost from_gives = { λ ground number. number ≡ ground_number ground };

    fn from(ground: Ground) -> u16 {
        ground as u16
    }
}

// The ground, the row that fails, and the other row that takes part, which may be the row itself.
// Both are 0 where the ground is the number of rows or the laid size: every refusal carries all three numbers, and an
// enum with rows in some cases would have to give those zeros back by hand.
#[derive(Clone, Copy, PartialEq, Eq, Debug)]
pub struct LayRefusal {
    pub ground: Ground,
    pub row: u16,
    pub other: u16,
}

impl LayRefusal {
    pub(crate) fn new(ground: Ground, row: u16, other: u16) -> LayRefusal
        ensures { (result.ground ≡ ground) × (result.row ≡ row) × (result.other ≡ other) }
    {
        LayRefusal { ground, row, other }
    }
}
