// The meaning that every make of a memory keeps: a list of bytes.
ghost use Rattle.std.specs.Prelude.{◌≡◌, ℕ, ◌+◌, ◌^◌, ◌<◌, ◌≤◌, List, length, slice_index, slice_set};
ghost use Rattle.memory.specs.Bytes.{value_at, put_at};

// No memory has more bytes than this.
pub(crate) const LIMIT: u64 = 0x1_0000_0000;

pub trait Memory {
    // The bytes that it holds, by address.
    ghost bytes: { Self → List ℕ };

    fn size(&self) -> u64
        ensures { result ≡ length (bytes self.now) };

    // The byte at the address, or 0 where the memory has none.
    fn read(&self, address: u64) -> u8
        ensures { result ≡ slice_index (bytes self.now) address };

    // Makes that one place hold the byte; where the memory has no such place, nothing changes.
    fn write(&mut self, address: u64, byte: u8)
        ensures value { bytes self.new ≡ slice_set (bytes self.old) address byte };

    // The same where the memory is known to have the places. A further make need not write these four; one that does may
    // leave out the test of the address.
    fn read_inside(&self, address: u64) -> u8
        requires { address < length (bytes self.now) }
        ensures { result ≡ slice_index (bytes self.now) address }
    {
        self.read(address)
    }

    fn write_inside(&mut self, address: u64, byte: u8)
        requires { address < length (bytes self.old) }
        ensures value { bytes self.new ≡ slice_set (bytes self.old) address byte }
    {
        self.write(address, byte);
    }

    // Several bytes, in their places from the address on, the last one first.
    fn write_bytes(&mut self, address: u64, digits: &[u8])
        requires { address + length digits.now ≤ length (bytes self.old) }
        ensures value { bytes self.new ≡ put_at (bytes self.old) address (length digits.now) (value_at digits.now 0 (length digits.now)) }
    {
        for (i, digit) in digits.iter().enumerate().rev() {
            self.write_inside(address + i as u64, *digit);
        }
    }

    // A qword by its eight bytes, one after the other, the last one first.
    fn write_qword(&mut self, address: u64, digits: [u8; 8])
        requires { address + 8 ≤ length (bytes self.old) }
        ensures value { bytes self.new ≡ put_at (bytes self.old) address 8 (value_at digits 0 8) }
    {
        for (i, byte) in digits.iter().enumerate().rev() {
            self.write_inside(address + i as u64, *byte);
        }
    }

    ghost short: { (m : Self) → length (bytes m) ≤ 2 ^ 32 };
}
