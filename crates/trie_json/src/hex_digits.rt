//! Numbers of up to 128 bits in 32 lower-case hex digits.

ghost use Rattle.std.specs.Prelude.{◌≡◌, ◌≢◌, ℕ, ◌^◌, ◌<◌, ◌+◌, IfOk, IfSome, IfNone, string_bytes};
ghost use Rattle.trie_json.specs.Hex.{hex_digit, hex_text};

use nl_core::NoMemory;
use std::alloc::Global;

// The lower-case hex digit of a value below 16.
fn hex_digit(value: u8) -> u8
    requires { value < 16 }
    ensures { result ≡ hex_digit value }
{
    if value < 10 {
        b'0' + value
    } else {
        b'a' + (value - 10)
    }
}

// The value of a lower-case hex digit.
fn digit_value(byte: u8) -> Option<u8>
    ensures digit { IfSome result (λ value. (value < 16) × (byte ≡ hex_digit value)) }
    ensures other { IfNone result ((value : ℕ) → value < 16 → byte ≢ hex_digit value) }
{
    match byte {
        b'0'..=b'9' => Some(byte - b'0'),
        b'a'..=b'f' => Some(byte - b'a' + 10),
        _ => None,
    }
}

/// The number in 32 lower-case hex digits.
pub(crate) fn write_hex(alloc: Global, number: u128) -> Result<String, NoMemory>
    ensures { IfOk result (λ text. string_bytes text ≡ hex_text 32 number) }
{
    let mut text = String::with_capacity(alloc, 32)?;
    'digits: for place in 0..32u32 {
        let digit = hex_digit((number >> (4 * (31 - place)) & 15) as u8);
        text.push(char::from(digit))?;
    }
    Ok(text)
}

/// The number that 32 lower-case hex digits are.
pub(crate) fn read_hex(text: &[u8]) -> Option<u128>
    ensures number { IfSome result (λ number. text.now ≡ hex_text 32 number) }
    ensures fits { IfSome result (λ number. number < 2 ^ 128) }
    ensures other { IfNone result ((number : ℕ) → text.now ≢ hex_text 32 number) }
{
    if text.len() != 32 {
        return None;
    }
    let mut number = 0u128;
    'digits: for byte in text {
        let Some(value) = digit_value(*byte) else {
            return None;
        };
        number = number * 16 + value as u128;
    }
    Some(number)
}
