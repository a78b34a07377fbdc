// Bytes as a script writes them.
ghost use Rattle.std.specs.Prelude.{◌≡◌, ◌+◌, ◌*◌, ◌%◌, IfOk};
ghost use Rattle.lines.specs.Hexadecimal.{hex_bytes};
ghost use Rattle.lines.specs.Numerals.{digit_of_lem};

use super::digits::digit_of;
use std::alloc::{AllocError, Global};

// The byte that two hexadecimal digits stand for. What is no digit counts as 16, as in the definition.
fn byte_of(high: u8, low: u8) -> u8
    ensures { result ≡ (digit_of_lem high * 16 + digit_of_lem low) % 256 }
{
    let high = digit_of(high).unwrap_or(16);
    let low = digit_of(low).unwrap_or(16);
    ((high * 16 + low) % 256) as u8
}

// The bytes that pairs of hexadecimal digits stand for.
pub fn decode_hex(heap: Global, hex: &[u8]) -> Result<Vec<u8>, AllocError>
    ensures { IfOk result (λ v. v.items ≡ hex_bytes hex.now) }
{
    let (pairs, _) = hex.as_chunks::<2>();
    pairs
        .iter()
        .map(|[high, low]| byte_of(*high, *low))
        .collect(heap)
}
