//! Numbers as a script writes them: decimal, or hexadecimal after `0x`.
ghost use Rattle.std.specs.Prelude.{◌≡◌, ◌<◌, IfSome};
ghost use Rattle.script.specs.Digits.{digit_of};
ghost use Rattle.script.specs.Numbers.{grown_by, numeral_of, number_of};
ghost use Rattle.script.specs.Spelled.{ReadsDecimal, ReadsHexadecimal};

use crate::problems::Problem;

/// What a character stands for as a hexadecimal digit, in either case.
pub(crate) fn digit(character: u8) -> Option<u32>
    ensures value { result ≡ digit_of character }
    ensures bound { IfSome result (λ d. d < 16) }
{
    char::from(character).to_digit(16)
}

// One digit more: `value` is what the digits before it spell.
fn grown(value: u32, base: u32, character: u8) -> Result<u32, Problem>
    ensures { result ≡ grown_by base value (digit_of character) }
{
    let digit = digit(character)
        .filter(|digit| *digit < base)
        .ok_or(Problem::NoNumber)?;
    let next = value
        .checked_mul(base)
        .and_then(|scaled| scaled.checked_add(digit));
    next.ok_or(Problem::NumberTooLarge)
}

// Digits of a base, at least one. The library's `from_str_radix` would also take a sign in front, which a script has not.
fn numeral(digits: &[u8], base: u32) -> Result<u32, Problem>
    ensures { result ≡ numeral_of base digits.now }
{
    if digits.is_empty() {
        return Err(Problem::NoNumber);
    }
    let mut value = 0;
    for character in digits {
        value = grown(value, base, *character)?;
    }
    Ok(value)
}

/// The number that a text is: decimal, or hexadecimal after `0x`.
pub fn number(text: &[u8]) -> Result<u32, Problem>
    ensures value { result ≡ number_of text.now }
    ensures decimal { ReadsDecimal text.now result }
    ensures hexadecimal { ReadsHexadecimal text.now result }
{
    match text.strip_prefix(b"0x") {
        Some(digits) => numeral(digits, 16),
        None => numeral(text, 10),
    }
}
