//! The numbers that texts spell.
ghost use Rattle.std.specs.Prelude.{◌≡◌, None, option_and_then, if◌then◌else◌};
ghost use Rattle.pq_common.specs.Spelled as spec;

/// The most digits of a count.
const MOST_COUNT_DIGITS: usize = 20;

/// The most digits of a number with a sign.
const MOST_DIGITS: usize = 39;

/// The number that 1 to 20 decimal digits spell, if it has 64 bits.
pub fn count(text: &[u8]) -> Option<u64>
    ensures { result ≡ spec.number text.now }
{
    u64::try_from(unsigned(text, MOST_COUNT_DIGITS)?).ok()
}

/// The number that an optional minus and 1 to 39 decimal digits spell, if it has 128 bits.
pub fn signed_number(text: &[u8]) -> Option<i128>
    ensures { result ≡ spec.signed_number text.now }
{
    match text.split_first() {
        Some((b'-', digits)) => 0i128.checked_sub_unsigned(unsigned(digits, MOST_DIGITS)?),
        _ => i128::try_from(unsigned(text, MOST_DIGITS)?).ok(),
    }
}

/// The number that so many decimal digits at most spell, if it has 128 bits.
fn unsigned(digits: &[u8], most: usize) -> Option<u128>
    ensures { result ≡ option_and_then (spec.fits 128) (spec.digits_at_most most digits.now) }
{
    if digits.is_empty() || digits.len() > most {
        return None;
    }
    let mut number: u128 = 0;
    for digit in digits {
        number = with_digit(number, *digit)?;
    }
    Some(number)
}

/// The number with one more digit behind it.
fn with_digit(number: u128, digit: u8) -> Option<u128>
    ensures { result ≡ (if spec.is_digit digit then spec.fits 128 (spec.add_digit number digit) else None) }
{
    if !digit.is_ascii_digit() {
        return None;
    }
    number.checked_mul(10)?.checked_add((digit - b'0') as u128)
}
