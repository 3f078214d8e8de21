//! A byte between quotes.
ghost use Rattle.std.specs.Prelude.{◌≡◌};
ghost use Rattle.name_text.specs.Names as spec;

/// The bytes that are printed for one byte between quotes.
#[derive(Clone, Copy)]
pub enum QuotedByte {
    /// The byte itself.
    Shown([u8; 1]),
    /// A backslash and two hexadecimal digits.
    Escaped([u8; 3]),
}

impl QuotedByte {
    /// The bytes.
    pub fn bytes(&self) -> &[u8]
        ensures { result.now ≡ spec.bytes_of self.now }
    {
        match self {
            QuotedByte::Shown(bytes) => bytes,
            QuotedByte::Escaped(bytes) => bytes,
        }
    }
}
