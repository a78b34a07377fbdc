// Which operands follow an opcode.
use memory::Width;

#[derive(Clone, Copy)]
pub enum Form {
    // None.
    Plain,
    // r; r s; r s t: register numbers of one byte.
    One,
    Two,
    Three,
    // Five of one byte.
    Five,
    // r and a literal of the width.
    Literal(Width),
    // r and an address, r and an offset, an address alone.
    Address,
    Offset,
    Far,
}
