// A row of a plan: what one compartment has.

// Its window is the `max + 1` bytes from the address `off`, its register file the 2,064 bytes from the address
// `file`. A run keeps the first `saved` general registers.
#[derive(Clone, Copy, Default, PartialEq, Eq, Debug)]
pub struct Row {
    pub off: u64,
    pub max: u64,
    pub file: u64,
    pub saved: u16,
}
