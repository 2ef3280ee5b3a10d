//! Sources and sinks call by call: which pieces move, and what answers where a reader or a writer fails.
ghost use Rattle.std.specs.Prelude.{◌≤◌};

use crate::{
    BytesSource, MemorySink, MemorySource, NullSink, Read, Sink, Source, StdSink, StdSource,
    WriteError, Wrote, write_all,
};
use std::io::{self, ErrorKind};
use std::test::Fail;

#[test]
fn memory_moves_pieces(rt: HostRuntime) -> Result<(), Fail> {
    let alloc = rt.alloc();
    let failing = [2].to_vec(alloc)?;
    let mut input = MemorySource::new(b"abcde".to_vec(alloc)?, 2, failing);
    let mut buffer = [0; 3];
    for want in [
        Read::Got(2),
        Read::Failed,
        Read::Got(2),
        Read::Got(1),
        Read::End,
        Read::End,
    ] {
        assert_eq!(rt; input.read(&mut buffer), want);
    }
    assert_eq!(rt; buffer.as_slice(), b"ed\0".as_slice());
    let mut out = MemorySink::new(alloc, 2, [4].to_vec(alloc)?);
    assert_eq!(rt; write_all(&mut out, b"xyz"), Ok(()));
    assert_eq!(rt; write_all(&mut out, b"uvw"), Err(WriteError::Failed));
    assert_eq!(rt; out.bytes(), b"xyzuv".as_slice());
    Ok(())
}

#[test]
fn plain_ones_move_all(rt: HostRuntime) -> Result<(), Fail> {
    let mut input = BytesSource::new(b"abcd".to_vec(rt.alloc())?);
    let mut buffer = [0; 3];
    for want in [Read::Got(3), Read::Got(1), Read::End] {
        assert_eq!(rt; input.read(&mut buffer), want);
    }
    assert_eq!(rt; buffer.as_slice(), b"dbc".as_slice());
    assert_eq!(rt; write_all(&mut NullSink, b"xyz"), Ok(()));
    Ok(())
}

// A reader that fails, and a writer that fails where it says that it has room, and else takes nothing.
#[derive(Drop)]
struct Broken {
    room: bool,
}

impl io::Read for Broken {
    fn read(&mut self, _: &mut [u8]) -> io::Result<usize> {
        Err(io::Error::from(ErrorKind::Other))
    }
}

impl io::Write for Broken {
    fn write(&mut self, _: &[u8]) -> io::Result<usize> {
        if self.room {
            return Err(io::Error::from(ErrorKind::Other));
        }
        Ok(0)
    }

    fn flush(&mut self) -> io::Result<()> {
        Ok(())
    }
}

#[test]
fn readers_and_writers_are_taken(rt: HostRuntime) -> Result<(), Fail> {
    let mut input = StdSource::new(b"abc".as_slice());
    let mut buffer = [0; 2];
    for want in [Read::Got(2), Read::Got(1), Read::End] {
        assert_eq!(rt; input.read(&mut buffer), want);
    }
    assert_eq!(rt; buffer.as_slice(), b"cb".as_slice());
    let mut text = Vec::new(rt.alloc());
    assert_eq!(rt; StdSink::new(&mut text).write(b"xyz"), Wrote::Took(3));
    assert_eq!(rt; text.write(b"uv"), Wrote::Took(2));
    assert_eq!(rt; text.as_slice(), b"xyzuv".as_slice());
    let mut broken = StdSource::new(Broken { room: true });
    assert_eq!(rt; broken.read(&mut buffer), Read::Failed);
    for room in [true, false] {
        assert_eq!(rt; StdSink::new(Broken { room }).write(b"x"), Wrote::Failed);
    }
    Ok(())
}
