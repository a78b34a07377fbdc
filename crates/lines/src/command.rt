// What a line of a script asks for.
use plan::Row;

// A memory of zeros: so many bytes, so many numbers, or both, one behind the other.
#[derive(Clone, Copy)]
pub enum MemoryMake {
    Flat(u64),
    Words(u64),
    Spliced(u64, u64),
}

// Calls name a compartment first. The bytes of a put are still written in hexadecimal. A run has its budget and the
// number of qwords of its work area.
#[derive(Clone, Copy)]
pub enum Command<'a> {
    Memory(MemoryMake),
    Row(Row),
    Lay(u64),
    Make,
    Put(u16, u64, &'a [u8]),
    Set(u16, u64, u64),
    Fetch(u16, u64, u64),
    Get(u16, u64),
    Run(u16, u64, u64),
    Last(u16),
    Release,
}
