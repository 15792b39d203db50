// Whole numbers read from the bytes of a field.
#![tactic(auto)]

ghost use Rattle.std.specs.Prelude.{◌≡◌, ◌-◌, ◌^◌, ◌<◌, true, false, ℤ, Ok, MatchResult, IfOk};
ghost use Rattle.std.specs.Char.{is_ascii_digit};
ghost use Rattle.std.specs.Fmt.{signed_decimal};
ghost use Rattle.decimals.specs.Decimals.{shaped, natural_of, negative, decimal_of};
ghost use Rattle.decimals.specs.Canonical.{FewDigits};

use faults::Malformed;

// A number has at most so many digits, and so fits an i64.
const MOST_DIGITS: usize = 15;

// One to fifteen bytes, of which the first is no `0` unless it is the only one.
fn is_shaped(digits: &[u8]) -> bool
    ensures { result ≡ shaped digits.now }
{
    match digits {
        [] => false,
        [b'0', _, ..] => false,
        _ => digits.len() <= MOST_DIGITS,
    }
}

// The number that a digit stands for.
fn read_digit(byte: u8) -> Result<u64, Malformed>
    ensures { MatchResult result (λ d. (is_ascii_digit byte ≡ true) × (d ≡ byte - 48)) (λ _. is_ascii_digit byte ≡ false) }
{
    char::from(byte)
        .to_digit(10)
        .map(u64::from)
        .ok_or(Malformed)
}

// The number that digits write.
fn read_natural(digits: &[u8]) -> Result<u64, Malformed>
    ensures value { result ≡ natural_of digits.now }
    ensures few { IfOk result (λ n. n < 10 ^ 15) }
{
    if !is_shaped(digits) {
        return Err(Malformed);
    }
    let mut n = 0;
    for byte in digits {
        n = n * 10 + read_digit(*byte)?;
    }
    Ok(n)
}

// The number below 0 that digits write after a minus.
fn read_negative(digits: &[u8]) -> Result<i64, Malformed>
    ensures { result ≡ negative (natural_of digits.now) }
{
    match read_natural(digits)? {
        0 => Err(Malformed),
        n => Ok(-n.cast_signed()),
    }
}

// The whole number that a field writes: base ten, at most fifteen digits, no plus, no leading zero, and a minus only before a number other than 0.
pub fn read_decimal(field: &[u8]) -> Result<i64, Malformed>
    ensures value { result ≡ decimal_of field.now }
    ensures accepts { (z : ℤ) → FewDigits z → field.now ≡ signed_decimal z → result ≡ Ok z }
    ensures canonical { (z : ℤ) → result ≡ Ok z → (field.now ≡ signed_decimal z) × FewDigits z }
{
    match field.strip_prefix(b"-") {
        Some(digits) => read_negative(digits),
        None => read_natural(field).map(|n| n.cast_signed()),
    }
}
