//! Numbers in words.
ghost use Rattle.std.specs.Prelude.{◌≡◌, ◌^◌, ◌<◌, ◌≤◌, length, Option, Some, None, IfSome, if◌then◌else◌};
ghost use Rattle.std.specs.Str.Parse.{digits_value};
ghost use Rattle.command_words.specs.Digits.{hex_number, generator_size, are_digits};

/// The number that one to six hexadecimal digits give, in either case. None for any other text.
#[tactic(auto, unfolding(crate::specs::Digits::hex_number))]
pub(crate) fn hex_number(text: &str) -> Option<u32>
    ensures value { result ≡ hex_number text.now }
    ensures small { IfSome result (λ number. number < 2 ^ 24) }
{
    let digits = text.as_bytes();
    if digits.is_empty() || digits.len() > 6 {
        None
    } else {
        number_in(digits, 16)
    }
}

/// The size of a generated deck: a decimal number from 1 to 20000 without leading zeros. None for
/// any other text.
#[tactic(auto, unfolding(crate::specs::Digits::generator_size))]
pub(crate) fn generator_size(text: &str) -> Option<u32>
    ensures value { result ≡ generator_size text.now }
    ensures in_range { IfSome result (λ size. (1 ≤ size) × (size ≤ 20000)) }
{
    let digits = text.as_bytes();
    if digits.is_empty() || digits.len() > 5 || digits[0] == b'0' {
        return None;
    }
    match number_in(digits, 10) {
        Some(size) if 1 <= size && size <= 20_000 => Some(size),
        _ => None,
    }
}

fn number_in(digits: &[u8], base: u32) -> Option<u32>
    requires few { length digits.now ≤ 6 }
    requires low { 2 ≤ base }
    requires small { base ≤ 16 }
    ensures { result ≡ (if are_digits base digits.now then Some (digits_value base digits.now) else None) }
{
    let mut value = 0;
    for digit in digits {
        value = value * base + char::from(*digit).to_digit(base)?;
    }
    Some(value)
}
