// What instructions make of the qwords in registers: shifts, signed division, comparison, extension and reversal.
#![tactic(auto)]

ghost use Rattle.std.specs.Prelude.{◌≡◌, ◌-◌, ◌^◌, if◌then◌else◌, Some, None, nat_eq};
ghost use Rattle.std.specs.Ordering.{match_ordering};
ghost use Rattle.numbers.specs.Laws.{ComparisonsAgree, DivisionStands, ExtensionsStand, LeftShiftsMultiply, RegistersDivide, ReversalsReturn, RightShiftsRoundDown, SignedStands, UnsignedDivisionStands};
ghost use Rattle.numbers.specs.Values.{compared, compared_signed, divided, remaining, reversed, shifted_left, shifted_right, sign_extended, zero_extended};

use memory::Width;
use std::cmp::Ordering;

pub fn shift_left(r: u64, s: u64) -> u64
    ensures { result ≡ shifted_left r s }
{
    r << (s % 64)
}

pub fn shift_right(r: u64, s: u64) -> u64
    ensures { result ≡ shifted_right r s }
{
    (r.cast_signed() >> (s % 64)).cast_unsigned()
}

// The signed quotient, or nothing where s is 0.
pub fn divide(r: u64, s: u64) -> Option<u64>
    ensures { result ≡ (if nat_eq s 0 then None else Some (divided r s)) }
{
    let (dividend, divisor) = (r.cast_signed(), s.cast_signed());
    (s != 0).then(|| dividend.wrapping_div(divisor).cast_unsigned())
}

// The signed remainder, or nothing where s is 0. It differs from the quotient in the operation, a method of its own.
pub fn remainder(r: u64, s: u64) -> Option<u64>
    ensures { result ≡ (if nat_eq s 0 then None else Some (remaining r s)) }
{
    let (dividend, divisor) = (r.cast_signed(), s.cast_signed());
    (s != 0).then(|| dividend.wrapping_rem(divisor).cast_unsigned())
}

// -1, 0 or 1 as a qword.
fn sign(order: Ordering) -> u64
    ensures { result ≡ match_ordering order (2 ^ 64 - 1) 0 1 }
{
    match order {
        Ordering::Less => u64::MAX,
        Ordering::Equal => 0,
        Ordering::Greater => 1,
    }
}

pub fn compare(s: u64, t: u64) -> u64
    ensures { result ≡ compared s t }
{
    sign(s.cmp(&t))
}

pub fn compare_signed(s: u64, t: u64) -> u64
    ensures { result ≡ compared_signed s t }
{
    sign(s.cast_signed().cmp(&t.cast_signed()))
}

// Below, an arm for each width: its type says what is cut off, where one shift by 64 less the width's bits would not.
pub fn zero_extend(width: Width, r: u64) -> u64
    ensures { result ≡ zero_extended width r }
{
    match width {
        Width::Byte => r % 0x100,
        Width::Short => r % 0x1_0000,
        Width::Long => r % 0x1_0000_0000,
        Width::Qword => r,
    }
}

pub fn sign_extend(width: Width, r: u64) -> u64
    ensures { result ≡ sign_extended width r }
{
    match width {
        Width::Byte => i64::from(((r % 0x100) as u8).cast_signed()).cast_unsigned(),
        Width::Short => i64::from(((r % 0x1_0000) as u16).cast_signed()).cast_unsigned(),
        Width::Long => i64::from(((r % 0x1_0000_0000) as u32).cast_signed()).cast_unsigned(),
        Width::Qword => r,
    }
}

pub fn reverse(width: Width, r: u64) -> u64
    ensures { result ≡ reversed width r }
{
    match width {
        Width::Byte => r % 0x100,
        Width::Short => u64::from(((r % 0x1_0000) as u16).swap_bytes()),
        Width::Long => u64::from(((r % 0x1_0000_0000) as u32).swap_bytes()),
        Width::Qword => r.swap_bytes(),
    }
}

// The signed quotient is rounded toward zero, the remainder has the sign of the dividend, and a register is the one that
// stands for its signed number.
pub fn signed_division_stands()
    ensures division { DivisionStands }
    ensures signed { SignedStands }
{}

// Quotient times divisor plus remainder is the dividend, signed and unsigned.
pub fn registers_divide()
    ensures signed { RegistersDivide }
    ensures unsigned { UnsignedDivisionStands }
{}

// To the left a shift multiplies by a power of two, to the right it divides and rounds down.
pub fn shifts_scale()
    ensures left { LeftShiftsMultiply }
    ensures right { RightShiftsRoundDown }
{}

// Signed numbers compare as unsigned ones do once both have moved up by half the range.
pub fn comparisons_agree()
    ensures { ComparisonsAgree }
{}

// A sign extension, of every width, stands for the signed number that the low bits stood for.
pub fn extensions_stand()
    ensures { ExtensionsStand }
{}

// A second reversal takes back the first.
pub fn reversals_return()
    ensures { ReversalsReturn }
{}
