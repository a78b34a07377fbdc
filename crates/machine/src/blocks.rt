// Several bytes of a memory at once, one after the other.
ghost use Rattle.std.specs.Prelude.{◌≡◌, ◌+◌, ◌^◌, ◌≤◌, length};
ghost use Rattle.std.proofs.lemmas.List.Edits.{sets};
ghost use Rattle.machine.specs.Outcomes.{part};

use memory::Memory;

pub(crate) fn write_all<M: Memory>(memory: &mut M, address: u64, bytes: &[u8])
    requires { address + length bytes.now ≤ 2 ^ 64 }
    ensures { M.Memory.bytes memory.new ≡ sets (M.Memory.bytes memory.old) address bytes.now }
{
    for (i, byte) in bytes.iter().enumerate() {
        memory.write(address + i as u64, *byte);
    }
}

pub(crate) fn read_all<M: Memory>(memory: &M, address: u64, buffer: &mut [u8])
    requires fits { address + length buffer.old ≤ 2 ^ 64 }
    requires inside { address + length buffer.old ≤ length (M.Memory.bytes memory.now) }
    ensures { buffer.new ≡ part (M.Memory.bytes memory.now) address (length buffer.old) }
{
    for (i, byte) in buffer.iter_mut().enumerate() {
        *byte = memory.read(address + i as u64);
    }
}
