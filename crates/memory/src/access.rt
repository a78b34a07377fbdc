// Big-endian access of one to eight bytes over any memory, at every address.
ghost use Rattle.std.specs.Prelude.{◌≡◌};
ghost use Rattle.memory.specs.Bytes.{value_at, put_at};
ghost use Rattle.memory.specs.Widths.{width_bytes};

use super::meaning::{LIMIT, Memory};
use super::width::Width;

// The number that the bytes from the address on stand for; a place that the memory lacks counts as 0.
pub fn load<M: Memory>(memory: &M, address: u64, width: Width) -> u64
    ensures { result ≡ value_at (M.Memory.bytes memory.now) address (width_bytes width) }
{
    if address >= LIMIT {
        return 0;
    }
    let first = 8 - width.bytes();
    let mut bytes = [0u8; 8];
    for i in 0..width.bytes() {
        bytes[(first + i) as usize] = memory.read(address + i);
    }
    u64::from_be_bytes(bytes)
}

// Puts the low bytes of the value from the address on, the last byte first; a place that the memory lacks takes nothing.
pub fn store<M: Memory>(memory: &mut M, address: u64, width: Width, value: u64)
    ensures { M.Memory.bytes memory.new ≡ put_at (M.Memory.bytes memory.old) address (width_bytes width) value }
{
    if address >= LIMIT {
        return;
    }
    let first = 8 - width.bytes();
    let bytes = value.to_be_bytes();
    for i in (0..width.bytes()).rev() {
        memory.write(address + i, bytes[(first + i) as usize]);
    }
}
