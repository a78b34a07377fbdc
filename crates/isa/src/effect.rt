// What is left to do of an instruction once its sources are read.
use super::end::End;
use memory::Width;

#[derive(Clone, Copy)]
pub enum Effect {
    // Ends the run with P behind the instruction; or with everything as it was before it.
    Ends(End),
    Faults(End),
    Nothing,
    // A general register takes a value; P takes it; S takes it.
    Sets(u8, u64),
    Jumps(u64),
    Stacks(u64),
    // A general register takes what is loaded at an address; a value is stored at an address.
    Loads(u8, Width, u64),
    Stores(Width, u64, u64),
    Pushes(Width, u64),
    Pops(u8, Width),
    Calls(u64),
    Returns,
}
