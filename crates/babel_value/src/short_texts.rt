//! Values with a text of few octets.

ghost use Rattle.std.specs.Prelude.{◌≡◌, ℕ, ◌+◌, ◌≤◌, List, ◌++◌, length, take};

/// A value with a text of few octets, which is written into room that the caller has.
pub trait ShortText {
    /// The text.
    ghost text: { Self → List ℕ };

    /// The most octets of a text.
    ghost most: { ℕ };

    /// Writes the text after the first `len` octets of the line, and returns the number of octets
    /// with it.
    fn put(&self, line: &mut [u8], len: usize) -> usize
        requires room { len + most ≤ length line.old }
        ensures text { take result line.new ≡ take len line.old ++ text self.now }
        ensures short { result ≤ len + most };
}
