// Two memories of any make as one: the bytes of the second follow those of the first.
ghost use Rattle.std.specs.Prelude.{◌≡◌, ◌<◌, ◌++◌, length, slice_set};
ghost use Rattle.memory.specs.Bytes.{cut, past};
ghost use Rattle.memory.specs.Makes.{spliced_all, spliced_bytes};
ghost use Rattle.memory.specs.Cuts.{cut_short};

use super::meaning::{LIMIT, Memory};

#[derive(Drop)]
pub struct Spliced<A, B> {
    first: A,
    second: B,
}

impl<A: Memory, B: Memory> Spliced<A, B> {
    pub fn new(first: A, second: B) -> Spliced<A, B>
        ensures shown { spliced_bytes A.Memory.bytes B.Memory.bytes result ≡ cut (A.Memory.bytes first ++ B.Memory.bytes second) }
        ensures kept { (result.first ≡ first) × (result.second ≡ second) }
    {
        Spliced { first, second }
    }

    // The two memories as they now are.
    pub fn into_parts(self) -> (A, B)
        ensures shown { cut (A.Memory.bytes result.0 ++ B.Memory.bytes result.1) ≡ spliced_bytes A.Memory.bytes B.Memory.bytes self }
        ensures kept { (result.0 ≡ self.first) × (result.1 ≡ self.second) }
    {
        let Spliced { first, second } = self;
        (first, second)
    }
}

impl<A: Memory, B: Memory> Memory for Spliced<A, B> {
    ghost bytes = { spliced_bytes A.Memory.bytes B.Memory.bytes };

    ghost short = { λ m. cut_short _ };

    fn size(&self) -> u64 {
        let n = self.first.size() + self.second.size();
        if n < LIMIT { n } else { LIMIT }
    }

    // By the size of the first part alone: the second part tests the rest of the address itself.
    fn read(&self, address: u64) -> u8 {
        let seam = self.first.size();
        if address < seam {
            self.first.read(address)
        } else if address < LIMIT {
            self.second.read(address - seam)
        } else {
            0
        }
    }

    fn read_inside(&self, address: u64) -> u8 {
        let seam = self.first.size();
        if address < seam {
            self.first.read_inside(address)
        } else {
            self.second.read_inside(address - seam)
        }
    }

    fn write(&mut self, address: u64, byte: u8)
        ensures value { spliced_bytes A.Memory.bytes B.Memory.bytes self.new ≡ slice_set (spliced_bytes A.Memory.bytes B.Memory.bytes self.old) address byte }
        ensures rest { past (spliced_all A.Memory.bytes B.Memory.bytes self.new) ≡ past (spliced_all A.Memory.bytes B.Memory.bytes self.old) }
    {
        let seam = self.first.size();
        if address < seam {
            self.first.write(address, byte);
        } else if address < LIMIT {
            self.second.write(address - seam, byte);
        }
    }

    fn write_inside(&mut self, address: u64, byte: u8)
        requires { address < length (spliced_bytes A.Memory.bytes B.Memory.bytes self.old) }
        ensures value { spliced_bytes A.Memory.bytes B.Memory.bytes self.new ≡ slice_set (spliced_bytes A.Memory.bytes B.Memory.bytes self.old) address byte }
        ensures rest { past (spliced_all A.Memory.bytes B.Memory.bytes self.new) ≡ past (spliced_all A.Memory.bytes B.Memory.bytes self.old) }
    {
        let seam = self.first.size();
        if address < seam {
            self.first.write_inside(address, byte);
        } else {
            self.second.write_inside(address - seam, byte);
        }
    }
}
