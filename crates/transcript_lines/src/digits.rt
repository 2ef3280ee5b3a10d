//! Lower-case hex digits, and the bytes that pairs of them spell.
ghost use Rattle.std.specs.Prelude.{◌≡◌, ◌*◌, ◌<◌, flat_map, length, max, take};
ghost use Rattle.session_model.specs.Lines.{hex_byte, hex_digit};
ghost use Rattle.transcript_lines.specs.Digits.{ArePairs, IsDigitValue};

// What stands for a byte that is no digit: more than any digit's value.
const NO_DIGIT: u8 = 16;

/// The value of a digit, and 16 where the byte is none.
pub(crate) fn digit_value(byte: u8) -> u8
    ensures { IsDigitValue byte result }
{
    let decimal = byte.wrapping_sub(b'0');
    let letter = byte.wrapping_sub(b'a');
    if decimal < 10 {
        decimal
    } else if letter < 6 {
        letter + 10
    } else {
        NO_DIGIT
    }
}

// The greater of two.
fn greater(a: u8, b: u8) -> u8
    ensures { result ≡ max a b }
{
    if a < b { b } else { a }
}

/// Writes the bytes that pairs of digits spell, and says whether all were digits.
pub(crate) fn decode_pairs(digits: &[u8], bytes: &mut [u8]) -> bool
    requires { length digits.now ≡ 2 * length bytes.old }
    ensures { ArePairs digits.now bytes.new result }
{
    let mut worst = 0;
    for at in 0..bytes.len() {
        let high = digit_value(digits[2 * at]);
        let low = digit_value(digits[2 * at + 1]);
        bytes[at] = high.wrapping_mul(16).wrapping_add(low);
        worst = greater(greater(worst, high), low);
    }
    worst < NO_DIGIT
}

// The digit of a value.
fn digit(value: u8) -> u8
    requires { value < 16 }
    ensures { result ≡ hex_digit value }
{
    if value < 10 {
        b'0' + value
    } else {
        b'a' - 10 + value
    }
}

/// Writes the digits of the bytes at the front of a row over the whole row, from its end on, so that no byte is
/// written over before it was read.
pub(crate) fn spread_pairs(row: &mut [u8], count: usize)
    requires { length row.old ≡ 2 * count }
    ensures { row.new ≡ flat_map hex_byte (take count row.old) }
{
    let mut at = count;
    while at > 0 {
        at -= 1;
        let byte = row[at];
        row[2 * at + 1] = digit(byte % 16);
        row[2 * at] = digit(byte / 16);
    }
}
