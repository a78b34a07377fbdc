// Numbers as a script writes them.
ghost use Rattle.std.specs.Prelude.{◌≡◌, ℕ, ◌+◌, ◌*◌, ◌^◌, ◌<◌, ◌≤◌, MatchResult, SomeIff};
ghost use Rattle.lines.specs.Numerals.{digit_of_lem, Means, Numeral, WhyNot, Written};

// Why a word is no number.
#[derive(Clone, Copy, PartialEq, Eq, Debug)]
pub(crate) enum NoNumber {
    NotANumber,
    TooLarge,
}

// The hexadecimal digit that the byte stands for; one below ten is a decimal digit too.
pub(crate) fn digit_of(b: u8) -> Option<u64>
    ensures { SomeIff result (digit_of_lem b < 16) (digit_of_lem b) }
{
    match b {
        b'0'..=b'9' => Some(u64::from(b - b'0')),
        b'a'..=b'f' => Some(u64::from(b - b'a') + 10),
        b'A'..=b'F' => Some(u64::from(b - b'A') + 10),
        _ => None,
    }
}

// The value with one digit more, where 64 bits hold it. By way of 128 bits, which takes one test in place of two.
fn with_digit(value: u64, base: u64, digit: u64) -> Option<u64>
    ensures { SomeIff result (value * base + digit < 2 ^ 64) (value * base + digit) }
{
    u64::try_from(u128::from(value) * u128::from(base) + u128::from(digit)).ok()
}

// A byte that is no digit is found also behind a value that is too large. By hand, since the library's `parse` is of text
// and takes a sign too.
fn value_in(base: u64, digits: &[u8]) -> Result<u64, NoNumber>
    requires { base ≤ 16 }
    ensures { MatchResult result (λ n. (n < 2 ^ 64) × Means base digits.now n) (λ why. WhyNot (Means base digits.now) why) }
{
    if digits.is_empty() {
        return Err(NoNumber::NotANumber);
    }
    let mut value = Some(0);
    for b in digits {
        let digit = digit_of(*b)
            .filter(|d| *d < base)
            .ok_or(NoNumber::NotANumber)?;
        value = value.and_then(|v| with_digit(v, base, digit));
    }
    value.ok_or(NoNumber::TooLarge)
}

// The number that the word is written for: decimal digits, or 0x and hexadecimal digits.
pub(crate) fn numeral(word: &[u8]) -> Result<u64, NoNumber>
    ensures { MatchResult result (λ n. Numeral word.now n) (λ why. WhyNot (Written word.now) why) }
{
    match word {
        [b'0', b'x', digits @ ..] => value_in(16, digits),
        _ => value_in(10, word),
    }
}
