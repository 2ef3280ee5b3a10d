//! Arrays in bytes.

ghost use Rattle.std.specs.Prelude.{◌≡◌, ◌*◌, length};
ghost use Rattle.nl_core.specs.Numbers.{words64};
ghost use Rattle.nl_core.specs.Reading.{exactly};

use nl_core::{DecodeError, emit_u64s};

/// The array that bytes are; `BadLength` unless they are as many.
pub fn parse_array<const N: usize>(bytes: &[u8]) -> Result<[u8; N], DecodeError>
    ensures { result ≡ exactly N bytes.now bytes.now }
{
    if bytes.len() != N {
        return Err(DecodeError::BadLength);
    }
    let mut array = [0; N];
    array.copy_from_slice(bytes);
    Ok(array)
}

/// The bytes of numbers of eight bytes, one after the other, each little endian.
pub fn bytes_of_u64s<const N: usize>(values: &[u64]) -> [u8; N]
    requires { 8 * length values.now ≡ N }
    ensures { result ≡ words64 values.now }
{
    let mut bytes = [0; N];
    emit_u64s(&mut bytes, values);
    bytes
}
