// Reading the operands that stand behind the fixed words of a line.
ghost use Rattle.std.specs.Prelude.{◌≡◌, ℕ, List, [], ◌∷◌, Decides, MatchResult};
ghost use Rattle.lines.specs.Faulty.{BytesFail, EndFails, LastFails, Misfits, NextFails, OperandsFail};
ghost use Rattle.lines.specs.Hexadecimal.{Hex, HexOperand};
ghost use Rattle.lines.specs.Operands.{Filled, FilledOr, Gives};

use super::digits::{NoNumber, digit_of, numeral};
use super::fault::Fault;
use super::operand::Operand;
use super::scanner::Scanner;

// A word as the value of an operand.
fn value_of(word: &[u8], operand: Operand) -> Result<u64, Fault<'_>>
    ensures { MatchResult result (λ n. Gives operand word.now n) (λ fault. Misfits operand word.now fault) }
{
    match numeral(word) {
        Ok(n) if n <= operand.most() => Ok(n),
        Err(NoNumber::NotANumber) => Err(Fault::NotANumber(operand, word)),
        Ok(_) | Err(NoNumber::TooLarge) => Err(Fault::TooLarge(operand, word)),
    }
}

// The next word as the value of an operand. Not built into its callers: among all that reads a script its loops would
// share their registers with everything else.
#[inline(never)]
pub(crate) fn number<'a>(words: &mut Scanner<'a>, operand: Operand) -> Result<u64, Fault<'a>>
    ensures { MatchResult result (λ n. (w : List ℕ) × (words.old ≡ w ∷ words.new) × Gives operand w n) (λ fault. NextFails operand words.old fault) }
{
    let word = words.next().ok_or(Fault::Missing(operand))?;
    value_of(word, operand)
}

// The line ends here.
pub(crate) fn end<'a>(words: &mut Scanner<'a>) -> Result<(), Fault<'a>>
    ensures { MatchResult result (λ _. words.old ≡ []) (λ fault. EndFails words.old fault) }
{
    match words.next() {
        Some(word) => Err(Fault::WordTooMany(word)),
        None => Ok(()),
    }
}

// The rest of the line as the value of an operand that may be left out, and no more.
pub(crate) fn number_or<'a>(
    words: &mut Scanner<'a>,
    operand: Operand,
    otherwise: u64,
) -> Result<u64, Fault<'a>>
    ensures { MatchResult result (λ n. FilledOr operand otherwise words.old n) (λ fault. LastFails operand words.old fault) }
{
    let Some(word) = words.next() else {
        return Ok(otherwise);
    };
    let value = value_of(word, operand)?;
    end(words)?;
    Ok(value)
}

// The rest of the line as the values of these operands, and no more.
pub(crate) fn numbers<'a, const N: usize>(
    words: &mut Scanner<'a>,
    operands: [Operand; N],
) -> Result<[u64; N], Fault<'a>>
    ensures { MatchResult result (λ ns. Filled operands.entry words.old ns) (λ fault. OperandsFail operands.entry EndFails words.old fault) }
{
    // By index: `try_map` of an array says nothing of the order of its calls, and a `zip` with `iter_mut` nothing of the values.
    let mut values = [0; N];
    for (i, operand) in operands.iter().enumerate() {
        values[i] = number(words, *operand)?;
    }
    end(words)?;
    Ok(values)
}

// Whether the word is pairs of hexadecimal digits.
fn is_hex(word: &[u8]) -> bool
    ensures { Decides result (Hex word.now) }
{
    word.len() % 2 == 0 && word.iter().all(|b| digit_of(*b).is_some())
}

// The rest of the line as bytes in hexadecimal, which may be left out, and no more. Not built into its caller, as `number`.
#[inline(never)]
pub(crate) fn hex_or_none<'a>(words: &mut Scanner<'a>) -> Result<&'a [u8], Fault<'a>>
    ensures { MatchResult result (λ hex. HexOperand words.old hex.now) (λ fault. BytesFail words.old fault) }
{
    let Some(word) = words.next() else {
        return Ok(b"");
    };
    if !is_hex(word) {
        return Err(Fault::NotBytes(word));
    }
    end(words)?;
    Ok(word)
}
