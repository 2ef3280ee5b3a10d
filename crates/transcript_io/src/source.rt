//! Where bytes come from.
ghost use Rattle.std.specs.Prelude.{◌≡◌, ◌<◌, ◌≤◌, List, Option, length, ℕ};
ghost use Rattle.transcript_io.specs.Io.{DidRead, HasRisen};

/// The answer of a read: so many bytes stand at the front of the buffer, the end was reached, or the read failed.
#[derive(Clone, Copy, Debug, PartialEq, Eq)]
pub enum Read {
    Got(usize),
    End,
    Failed,
}

/// Where bytes come from.
pub trait Source {
    // The bytes that are left, where the source tells them.
    ghost left: { Self → Option (List ℕ) };

    // How often it has failed.
    ghost faults: { Self → ℕ };

    /// Reads into a buffer that isn't empty. `Got` gives at least one byte, `End` comes only where none is left, and
    /// `Failed` only where the count of faults rose in this call.
    fn read(&mut self, into: &mut [u8]) -> Read
        requires { 0 < length into.old }
        ensures read { DidRead (left self.old) result into.new (left self.new) }
        ensures cause { result ≡ Read.Failed → HasRisen (faults self.old) (faults self.new) }
        ensures later { faults self.old ≤ faults self.new };
}
