ghost use Rattle.std.specs.Prelude.{◌≡◌};

use std::marker::Model;

/// The number of a declared function, in text order from 0.
#[derive(Clone, Copy)]
pub struct DeclareId {
    number: u32,
}

impl Model for DeclareId {
    ghost use Rattle.std.specs.Prelude.{ℕ};

    ghost Value = { ℕ };

    ghost view = { λ id. id.number };

    ghost inverse = { λ n. record { number = n } };
}

impl DeclareId {
    pub fn new(number: u32) -> Self
        ensures { result ≡ number }
    {
        DeclareId { number }
    }

    pub fn number(self) -> u32
        ensures { result ≡ self }
    {
        self.number
    }
}
