//! Values of attributes as they are written.
#![tactic(auto, using(nl_core::proofs::Wire::writes))]

ghost use Rattle.std.specs.Prelude.{◌≡◌, ◌≤◌, ◌+◌, [], ◌∷◌, ◌++◌, List, ℕ, length};
ghost use Rattle.nl_core.specs.Writing.{Writes, capped};
ghost use Rattle.rt_layout.specs.Value.{value_text};

use nl_core::{emit_bytes, emit_i32, emit_u16, emit_u16_be, emit_u32, emit_u64, put_bytes};
use rt_other::Fixed;

/// What is written as the value of an attribute.
pub trait AttributeValue {
    ghost written: { Self → List ℕ };

    /// The count of bytes, or the largest number where it is larger.
    fn value_len(&self) -> usize
        ensures { result ≡ capped (length (written self.now)) };

    /// Writes the value over the front of a buffer; what stands past it stays.
    fn emit_value(&self, buf: &mut [u8])
        requires fits { length (written self.now) ≤ 65531 }
        requires room { length (written self.now) ≤ length buf.old }
        ensures { Writes (written self.now) buf.old buf.new };
}

impl<F: Fixed> AttributeValue for F {
    ghost written = { λ f. F.text f };

    fn value_len(&self) -> usize {
        F::LEN
    }

    fn emit_value(&self, buf: &mut [u8]) {
        self.emit(buf);
    }
}

/// No struct: of attributes whose values are numbers, bytes and names. It is written as no bytes.
#[derive(Clone, Copy, Debug)]
pub struct NoStruct;

impl AttributeValue for NoStruct {
    ghost written = { λ _. [] };

    fn value_len(&self) -> usize {
        0
    }

    fn emit_value(&self, _buf: &mut [u8]) {}
}

/// The value of an attribute as it is written: a number, little endian unless it says otherwise,
/// bytes, a name, or a struct.
#[derive(Drop)]
pub enum Value<'a, S> {
    U8(u8),
    U16(u16),
    /// The highest byte first.
    U16Be(u16),
    U32(u32),
    U64(u64),
    I32(i32),
    Bytes(&'a [u8]),
    /// A text and a NUL.
    Name(&'a str),
    Struct(S),
}

// Writes a text and a NUL over the front of a buffer.
fn emit_name(buf: &mut [u8], name: &str)
    requires { length name.now + 1 ≤ length buf.old }
    ensures { Writes (name.now ++ 0 ∷ []) buf.old buf.new }
{
    emit_bytes(buf, name.as_bytes());
    put_bytes(buf, name.len(), &[0]);
}

impl<'a, S: AttributeValue> Value<'a, S> {
    /// The count of bytes, or the largest number where it is larger.
    pub fn len(&self) -> usize
        ensures { result ≡ capped (length (value_text S.written self.now)) }
    {
        match self {
            Value::U8(_) => 1,
            Value::U16(_) | Value::U16Be(_) => 2,
            Value::U32(_) | Value::I32(_) => 4,
            Value::U64(_) => 8,
            Value::Bytes(bytes) => bytes.len(),
            Value::Name(name) => name.len().saturating_add(1),
            Value::Struct(value) => value.value_len(),
        }
    }

    /// Writes the value over the front of a buffer; what stands past it stays.
    pub fn emit(&self, buf: &mut [u8])
        requires fits { length (value_text S.written self.now) ≤ 65531 }
        requires room { length (value_text S.written self.now) ≤ length buf.old }
        ensures { Writes (value_text S.written self.now) buf.old buf.new }
    {
        match self {
            Value::U8(number) => emit_bytes(buf, &[*number]),
            Value::U16(number) => emit_u16(buf, *number),
            Value::U16Be(number) => emit_u16_be(buf, *number),
            Value::U32(number) => emit_u32(buf, *number),
            Value::U64(number) => emit_u64(buf, *number),
            Value::I32(number) => emit_i32(buf, *number),
            Value::Bytes(bytes) => emit_bytes(buf, bytes),
            Value::Name(name) => emit_name(buf, name),
            Value::Struct(value) => value.emit_value(buf),
        }
    }
}
