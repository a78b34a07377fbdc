// Spans of addresses, none of them empty, and whether two meet.
ghost use Rattle.std.specs.Prelude.{ℕ, ◌<◌, Decides};
ghost use Rattle.plan.specs.Areas.{Within};

// The addresses from `from` on, below `end`.
#[derive(Clone, Copy)]
pub(crate) struct Span {
    pub(crate) from: u64,
    pub(crate) end: u64,
    ghost nonempty: { from < end },
}

impl Span {
    // Whether some address lies in both.
    pub(crate) fn meets(self, other: Span) -> bool
        ensures { Decides result ((a : ℕ) × (Within self.from self.end a × Within other.from other.end a)) }
    {
        self.from < other.end && other.from < self.end
    }
}
