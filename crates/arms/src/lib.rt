// Doing an opcode's row of the table with an arm for each opcode. In its arm the compiler knows the row, so that one jump
// leads to all that the instruction does.
#![tactic(auto)]

ghost use Rattle.std.specs.Prelude.{◌≤◌};
ghost use Rattle.isa.specs.Opcodes.{entry_of};

use isa::{Entry, Form, Operation, entry};

// What does the rows.
pub trait Rows {
    ghost use Rattle.isa.specs.Opcodes.{Entry};

    // When a row may be done, and what doing it does.
    ghost ready: { Self → Type 0 };

    ghost does: { Self → Entry → Self → Type 0 };

    // Nothing comes back, so that no arm waits for another.
    fn row(&mut self, row: Entry)
        requires { ready self.old }
        ensures { does self.old row self.new };
}

// Does the row of an opcode that is a constant.
fn arm<R: Rows, const K: u8>(rows: &mut R)
    requires { R.Rows.ready rows.old }
    ensures { R.Rows.does rows.old (entry_of K) rows.new }
{
    rows.row(entry(K))
}

fn unknown<R: Rows>(rows: &mut R, opcode: u8)
    requires ready { R.Rows.ready rows.old }
    requires lacking { 94 ≤ opcode }
    ensures { R.Rows.does rows.old (entry_of opcode) rows.new }
{
    rows.row((Operation::Unknown, Form::Plain, 1))
}

// An arm for each number of the list.
macro_rules! by_opcode {
    ($rows:ident, $opcode:ident: $($k:literal)*) => {
        match $opcode {
            $($k => arm::<R, $k>($rows),)*
            _ => unknown($rows, $opcode),
        }
    };
}

// Does the row of an opcode.
pub fn do_row<R: Rows>(rows: &mut R, opcode: u8)
    requires { R.Rows.ready rows.old }
    ensures { R.Rows.does rows.old (entry_of opcode) rows.new }
{
    by_opcode!(rows, opcode:
        0 1 2 3 4 5 6 7 8 9 10 11 12 13 14 15
        16 17 18 19 20 21 22 23 24 25 26 27 28 29 30 31
        32 33 34 35 36 37 38 39 40 41 42 43 44 45 46 47
        48 49 50 51 52 53 54 55 56 57 58 59 60 61 62 63
        64 65 66 67 68 69 70 71 72 73 74 75 76 77 78 79
        80 81 82 83 84 85 86 87 88 89 90 91 92 93)
}
