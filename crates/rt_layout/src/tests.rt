//! Tests of buffers, arrays and values.
ghost use Rattle.std.specs.Prelude.{◌≤◌, length};

use crate::*;
use nl_core::DecodeError;
use rt_other::TcActionHeader;
use std::test::Fail;

#[test]
fn buffers_hold_bytes(rt: HostRuntime) -> Result<(), Fail> {
    let buffer = FixedBuffer::<TcActionHeader, 4>::from_bytes([2, 0, 0, 9]);
    assert_eq!(rt; buffer.to_bytes(), [2, 0, 0, 9]);
    assert_eq!(rt; buffer.clone()?, buffer);
    assert_eq!(rt; parse_array::<2>(&[1, 2]), Ok([1, 2]));
    assert_eq!(rt; parse_array::<2>(&[1]), Err(DecodeError::BadLength));
    let bytes = bytes_of_u64s::<8>(&[0x0102]);
    assert_eq!(rt; bytes, [2, 1, 0, 0, 0, 0, 0, 0]);
    Ok(())
}

#[test]
fn values_written(rt: HostRuntime) {
    let table: [(Value<'_, NoStruct>, &[u8]); 8] = [
        (Value::U8(7), b"\x07"),
        (Value::U16(0x0102), b"\x02\x01"),
        (Value::U16Be(0x0102), b"\x01\x02"),
        (Value::U32(0x0102_0304), b"\x04\x03\x02\x01"),
        (Value::U64(1), b"\x01\0\0\0\0\0\0\0"),
        (Value::I32(-2), b"\xfe\xff\xff\xff"),
        (Value::Bytes(b"\0\x09"), b"\0\x09"),
        (Value::Name("lo"), b"lo\0"),
    ];
    for (value, bytes) in table {
        let mut buf = [9; 8];
        let len = value.len();
        assert_eq!(rt; len, bytes.len());
        assert!(rt; len <= 8);
        value.emit(&mut buf);
        assert_eq!(rt; &buf[..len], bytes);
    }
}

// The bytes of a value, which are few.
fn written<V: AttributeValue>(value: &V) -> [u8; 8]
    requires { length (V.written value.now) ≤ 8 }
{
    let mut buf = [9; 8];
    value.emit_value(&mut buf);
    buf
}

#[test]
fn structs_written(rt: HostRuntime) {
    let header = TcActionHeader::default();
    assert_eq!(rt; header.value_len(), 4);
    assert_eq!(rt; written(&header), [0, 0, 0, 0, 9, 9, 9, 9]);
}
