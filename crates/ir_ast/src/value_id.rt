ghost use Rattle.std.specs.Prelude.{◌≡◌};

use std::marker::Model;

/// The place of a local name among those that its function mentions: of a parameter, an instruction's value or a block.
#[derive(Clone, Copy, Debug, PartialEq, Eq)]
pub struct ValueId {
    number: u32,
}

impl Model for ValueId {
    ghost use Rattle.std.specs.Prelude.{ℕ};

    ghost Value = { ℕ };

    ghost view = { λ id. id.number };

    ghost inverse = { λ n. record { number = n } };
}

impl ValueId {
    pub fn new(number: u32) -> Self
        ensures { result ≡ number }
    {
        ValueId { number }
    }

    pub fn number(self) -> u32
        ensures { result ≡ self }
    {
        self.number
    }
}
