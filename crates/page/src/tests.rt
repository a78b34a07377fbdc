// A splice inside a splice: three pages as one memory, with a window across both seams, at 4,096 and at 8,192.
use super::page::Page;
use machine::Machine;
use memory::{Memory, Spliced};
use plan::{Plan, Row, lay};

#[test]
fn bytes_cross_both_seams(rt: HostRuntime) {
    let row = Row {
        off: 4000,
        max: 4999,
        file: 10000,
        saved: 1,
    };
    let mut plan = Plan::empty();
    assert!(rt; lay(&[row], 12288, &mut plan).is_ok());
    let memory = Spliced::new(Page::blank(), Spliced::new(Page::blank(), Page::blank()));
    let mut machine = Machine::make(memory, plan);
    assert!(rt; machine.put(0, 94, &[1, 2, 3, 4]).is_ok());
    assert!(rt; machine.put(0, 4190, &[5, 6, 7, 8]).is_ok());
    let mut first = [0u8; 4];
    let mut second = [0u8; 4];
    assert!(rt; machine.fetch(0, 94, &mut first).is_ok());
    assert!(rt; machine.fetch(0, 4190, &mut second).is_ok());
    assert!(rt; first[0] == 1 && first[1] == 2 && first[2] == 3 && first[3] == 4);
    assert!(rt; second[0] == 5 && second[1] == 6 && second[2] == 7 && second[3] == 8);
    let memory = machine.release();
    assert!(rt; memory.read(4095) == 2 && memory.read(4096) == 3);
    assert!(rt; memory.read(8191) == 6 && memory.read(8192) == 7);
}
