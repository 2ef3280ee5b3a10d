//! A transcript that is run in memory.

use mirror::{MemorySink, MemorySource, Settings, run};
use std::test::Fail;

#[test]
fn transcript_in_memory(rt: HostRuntime) -> Result<(), Fail> {
    let alloc = rt.alloc();
    let transcript = "overrun\nclose\n".as_bytes().to_vec(alloc)?;
    // Pieces of at most 512 bytes are read and written, and no call fails.
    let mut input = MemorySource::new(transcript, 512, Vec::new(alloc));
    let mut out = MemorySink::new(alloc, 512, Vec::new(alloc));
    let report = run(alloc, &mut input, &mut out, &Settings::usual())?;
    assert_eq!(rt; out.bytes(), "unsol 1 0 0 4 0 0 0 -\n".as_bytes());
    assert_eq!(rt; report.lines, 2);
    assert_eq!(rt; report.messages, 1);
    Ok(())
}
