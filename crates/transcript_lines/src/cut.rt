//! Where bytes are cut in two.
ghost use Rattle.transcript_lines.specs.Cut.{IsCutAt};

use memchr::memchr;

/// What stands before and after the first such byte, and `None` where there is none.
pub(crate) fn cut_at(bytes: &[u8], byte: u8) -> Option<(&[u8], &[u8])>
    ensures { IsCutAt byte bytes.now result }
{
    let at = memchr(byte, bytes)?;
    Some((&bytes[..at], &bytes[at + 1..]))
}
