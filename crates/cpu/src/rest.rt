// What is left of an instruction once the registers have moved: no more than one access.
use bank::Register;
use isa::End;
use memory::Width;

#[derive(Clone, Copy)]
pub(crate) enum Rest {
    Ends(End),
    Nothing,
    // A register takes what is loaded at an address; a value is stored at an address.
    Loads(Register, Width, u64),
    Stores(Width, u64, u64),
}
