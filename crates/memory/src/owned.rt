// A memory over numbers of one kind that are handed in.
ghost use Rattle.std.specs.Prelude.{◌≡◌, ◌+◌, ◌<◌, ◌≤◌, length, slice_set};
ghost use Rattle.memory.specs.Bytes.{cut, past, value_at, put_at};
ghost use Rattle.memory.specs.Makes.{owned_bytes};
ghost use Rattle.memory.specs.Cuts.{cut_short};

use super::element::Element;
use super::meaning::{LIMIT, Memory};

#[derive(Drop)]
pub struct Owned<E> {
    held: Vec<E>,
}

// Bytes, and numbers of 64 bits that each stand for eight bytes.
pub type Flat = Owned<u8>;

pub type Words = Owned<u64>;

impl<E: Element> Owned<E> {
    pub fn new(held: Vec<E>) -> Owned<E>
        ensures shown { owned_bytes E.spread result ≡ cut (E.spread held.items) }
        ensures kept { result.held ≡ held }
    {
        Owned { held }
    }

    // The numbers as they now are, with those past the limit.
    pub fn into_inner(self) -> Vec<E>
        ensures shown { cut (E.spread result.items) ≡ owned_bytes E.spread self }
        ensures kept { result ≡ self.held }
    {
        let Owned { held } = self;
        held
    }
}

impl<E: Element> Memory for Owned<E> {
    ghost bytes = { owned_bytes E.spread };

    ghost short = { λ m. cut_short (E.spread m.held.items) };

    fn size(&self) -> u64 {
        let n = self.held.len() as u64;
        if n < LIMIT / E::BYTES {
            E::BYTES * n
        } else {
            LIMIT
        }
    }

    fn read(&self, address: u64) -> u8 {
        if address < self.size() {
            self.read_inside(address)
        } else {
            0
        }
    }

    fn read_inside(&self, address: u64) -> u8 {
        self.held[(address / E::BYTES) as usize].byte(address % E::BYTES)
    }

    fn write(&mut self, address: u64, byte: u8)
        ensures value { owned_bytes E.spread self.new ≡ slice_set (owned_bytes E.spread self.old) address byte }
        ensures rest { past (E.spread self.new.held.items) ≡ past (E.spread self.old.held.items) }
    {
        if address < self.size() {
            self.write_inside(address, byte);
        }
    }

    fn write_inside(&mut self, address: u64, byte: u8)
        requires { address < length (owned_bytes E.spread self.old) }
        ensures value { owned_bytes E.spread self.new ≡ slice_set (owned_bytes E.spread self.old) address byte }
        ensures rest { past (E.spread self.new.held.items) ≡ past (E.spread self.old.held.items) }
    {
        let i = (address / E::BYTES) as usize;
        self.held[i] = self.held[i].with_byte(address % E::BYTES, byte);
    }

    // Through a slice: no write can then reach what the vector keeps of itself, so the compiler looks up once where the
    // numbers stand, and joins the writes.
    fn write_bytes(&mut self, address: u64, digits: &[u8])
        requires { address + length digits.now ≤ length (owned_bytes E.spread self.old) }
        ensures value { owned_bytes E.spread self.new ≡ put_at (owned_bytes E.spread self.old) address (length digits.now) (value_at digits.now 0 (length digits.now)) }
        ensures rest { past (E.spread self.new.held.items) ≡ past (E.spread self.old.held.items) }
    {
        let held = self.held.as_mut_slice();
        for (i, digit) in digits.iter().enumerate().rev() {
            let at = address + i as u64;
            let number = &mut held[(at / E::BYTES) as usize];
            *number = number.with_byte(at % E::BYTES, *digit);
        }
    }

    fn write_qword(&mut self, address: u64, digits: [u8; 8])
        requires { address + 8 ≤ length (owned_bytes E.spread self.old) }
        ensures value { owned_bytes E.spread self.new ≡ put_at (owned_bytes E.spread self.old) address 8 (value_at digits 0 8) }
        ensures rest { past (E.spread self.new.held.items) ≡ past (E.spread self.old.held.items) }
    {
        self.write_bytes(address, &digits);
    }
}
