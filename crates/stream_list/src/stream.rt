//! What belongs to a stream.
ghost use Rattle.std.specs.Prelude.{◌≡◌, ℕ};

/// An item of a stream.
pub trait InStream {
    ghost stream: { Self → ℕ };

    /// The number of the item's stream.
    fn stream(&self) -> u64
        ensures { result ≡ stream self.now };
}
