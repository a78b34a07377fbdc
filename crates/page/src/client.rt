// A word on its way through a machine over a page.
ghost use Rattle.std.specs.Prelude.{◌≡◌, Some};

use super::page::Page;
use machine::Machine;
use plan::{Plan, Row, lay};

// Sets the last entry of a register file to the word, and gets it again. The window and the register file fill the page.
pub fn kept(word: u64) -> Option<u64>
    ensures { result ≡ Some word }
{
    let row = Row {
        off: 0,
        max: 2031,
        file: 2032,
        saved: 1,
    };
    let mut plan = Plan::empty();
    lay(&[row], 4096, &mut plan).ok()?;
    let page = Page::blank();
    let mut machine = Machine::make(page, plan);
    let set = machine.set(0, 257, word);
    let got = machine.get(0, 257);
    let _page = machine.release();
    set.and(got).ok()
}
