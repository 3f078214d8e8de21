ghost use Rattle.std.specs.Prelude.{◌≡◌};

use std::marker::Model;

/// The place of a global name among those that the text mentions: of a global, a declared or a defined function.
#[derive(Clone, Copy, Debug, PartialEq, Eq)]
pub struct SymbolId {
    number: u32,
}

impl Model for SymbolId {
    ghost use Rattle.std.specs.Prelude.{ℕ};

    ghost Value = { ℕ };

    ghost view = { λ id. id.number };

    ghost inverse = { λ n. record { number = n } };
}

impl SymbolId {
    pub fn new(number: u32) -> Self
        ensures { result ≡ number }
    {
        SymbolId { number }
    }

    pub fn number(self) -> u32
        ensures { result ≡ self }
    {
        self.number
    }
}
