// Big-endian access of one to eight bytes that a memory has, a byte at a time.
ghost use Rattle.std.specs.Prelude.{◌≡◌, ℕ, ◌+◌, ◌<◌, ◌≤◌, length, nat_le, slice_index};
ghost use Rattle.memory.specs.Bytes.{value_at, put_at};
ghost use Rattle.memory.specs.Widths.{width_bytes};

use super::meaning::Memory;
use super::width::Width;

// The N bytes from the address on.
fn gather<M: Memory, const N: usize>(memory: &M, address: u64) -> [u8; N]
    requires { address + N ≤ length (M.Memory.bytes memory.now) }
    ensures length { length result ≡ N }
    ensures each { (k : ℕ) → k < N → slice_index result k ≡ slice_index (M.Memory.bytes memory.now) (address + k) }
{
    std::array::from_fn(|i| memory.read_inside(address + i as u64))
}

// The number that the bytes from the address on stand for.
pub fn load_inside<M: Memory>(memory: &M, address: u64, width: Width) -> u64
    requires { address + width_bytes width ≤ length (M.Memory.bytes memory.now) }
    ensures { result ≡ value_at (M.Memory.bytes memory.now) address (width_bytes width) }
{
    match width {
        Width::Byte => u64::from(memory.read_inside(address)),
        Width::Short => u64::from(u16::from_be_bytes(gather(memory, address))),
        Width::Long => u64::from(u32::from_be_bytes(gather(memory, address))),
        Width::Qword => u64::from_be_bytes(gather(memory, address)),
    }
}

// Puts the low bytes of the value from the address on, the last byte first.
pub fn store_inside<M: Memory>(memory: &mut M, address: u64, width: Width, value: u64)
    requires { address + width_bytes width ≤ length (M.Memory.bytes memory.old) }
    ensures { M.Memory.bytes memory.new ≡ put_at (M.Memory.bytes memory.old) address (width_bytes width) value }
{
    match width {
        Width::Byte => memory.write_inside(address, (value & 0xff) as u8),
        Width::Short => memory.write_bytes(address, &((value & 0xffff) as u16).to_be_bytes()),
        Width::Long => memory.write_bytes(address, &((value & 0xffff_ffff) as u32).to_be_bytes()),
        Width::Qword => memory.write_qword(address, value.to_be_bytes()),
    }
}
