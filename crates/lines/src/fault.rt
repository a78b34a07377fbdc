// What is wrong with a line that cannot be read.
ghost use Rattle.std.specs.Prelude.{◌≡◌, ◌++◌, IfOk};
ghost use Rattle.lines.specs.Faults.{fault_text};

use super::operand::Operand;
use std::alloc::{AllocError, Global};

#[derive(Clone, Copy)]
pub enum Fault<'a> {
    NoSuchCommand(&'a [u8]),
    NoMake,
    NoSuchMake(&'a [u8]),
    Missing(Operand),
    NotANumber(Operand, &'a [u8]),
    TooLarge(Operand, &'a [u8]),
    NotBytes(&'a [u8]),
    WordTooMany(&'a [u8]),
}

// Three parts of a text, one behind the other. One lifetime for all three, as their array asks for.
fn joined<'a>(heap: Global, a: &'a [u8], b: &'a [u8], c: &'a [u8]) -> Result<Vec<u8>, AllocError>
    ensures { IfOk result (λ v. v.items ≡ a.now ++ (b.now ++ c.now)) }
{
    [a, b, c].concat(heap)
}

impl Fault<'_> {
    // What is wrong, in words; those of the line stand in it as they were written, whatever bytes they have.
    pub fn message(&self, heap: Global) -> Result<Vec<u8>, AllocError>
        ensures { IfOk result (λ v. v.items ≡ fault_text self.now) }
    {
        match self {
            Fault::NoSuchCommand(word) => joined(heap, b"no such command: ", word, b""),
            Fault::NoMake => joined(heap, b"MAKE is missing", b"", b""),
            Fault::NoSuchMake(word) => joined(heap, b"no such make of memory: ", word, b""),
            Fault::Missing(operand) => joined(heap, operand.name().as_bytes(), b" is missing", b""),
            Fault::NotANumber(operand, word) => joined(
                heap,
                operand.name().as_bytes(),
                b" is not a number: ",
                word,
            ),
            Fault::TooLarge(operand, word) => joined(
                heap,
                operand.name().as_bytes(),
                b" is too large: ",
                word,
            ),
            Fault::NotBytes(word) => joined(heap, b"HEX is not bytes: ", word, b""),
            Fault::WordTooMany(word) => joined(heap, b"a word too many: ", word, b""),
        }
    }
}
