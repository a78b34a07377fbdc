// The plan and its invariant: a plan whose rows are short, overlap or leave the laid size does not exist.
ghost use Rattle.std.specs.Prelude.{◌≡◌, ◌^◌, ◌≤◌, length};
ghost use Rattle.plan.specs.Areas.{AllBounded, NoneCrossed, NoneShared};

use super::row::Row;

mod parts;

// The first `count` rows are the plan's; what stands behind them says nothing. An array, so that a plan is a plain value
// and needs no heap.
#[derive(Clone, Copy)]
pub struct Plan {
    rows: [Row; 16],
    count: u16,
    size: u64,
    ghost small: { (length rows ≡ 16) × (count ≤ 16) × (size ≤ 2 ^ 32) },
    ghost bounded: { AllBounded rows count size },
    ghost split: { NoneCrossed rows count },
    ghost apart: { NoneShared rows count },
}

impl Plan {
    // The plan of the first `count` rows.
    pub(crate) fn of(rows: [Row; 16], count: u16, size: u64) -> Plan
        requires small { (length rows ≡ 16) × (count ≤ 16) × (size ≤ 2 ^ 32) }
        requires bounded { AllBounded rows count size }
        requires split { NoneCrossed rows count }
        requires apart { NoneShared rows count }
        ensures { (result.rows ≡ rows) × (result.count ≡ count) × (result.size ≡ size) }
    {
        Plan { rows, count, size }
    }
}
