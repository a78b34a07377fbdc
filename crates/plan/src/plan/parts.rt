// The empty plan, and what a plan has: its rows by number, how many, and the laid size.
ghost use Rattle.std.specs.Prelude.{◌≡◌, [], length};
ghost use Rattle.plan.specs.Plans.{rows_of};
ghost use Rattle.std.specs.List.{slice_get};

use super::Plan;
use crate::row::Row;

impl Plan {
    // The plan with no rows and laid size 0.
    pub fn empty() -> Plan
        ensures rows { rows_of result ≡ [] }
        ensures size { result.size ≡ 0 }
    {
        Plan {
            rows: [Row::default(); 16],
            count: 0,
            size: 0,
        }
    }

    // Row k, where the plan has it.
    pub fn row(&self, k: u16) -> Option<Row>
        ensures { result ≡ slice_get (rows_of self.now) k }
    {
        self.rows[..self.count as usize].get(k as usize).copied()
    }

    // The laid size.
    pub fn size(&self) -> u64
        ensures { result ≡ self.now.size }
    {
        self.size
    }

    // How many rows there are.
    pub fn count(&self) -> u16
        ensures { result ≡ length (rows_of self.now) }
    {
        self.count
    }
}
