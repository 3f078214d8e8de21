ghost use Rattle.std.specs.Prelude.{◌≡◌};

use std::marker::Model;

/// The place of a struct's name among those that the text mentions.
#[derive(Clone, Copy, PartialEq, Eq, Hash)]
pub struct StructNameId {
    number: u32,
}

impl Model for StructNameId {
    ghost use Rattle.std.specs.Prelude.{ℕ};

    ghost Value = { ℕ };

    ghost view = { λ id. id.number };

    ghost inverse = { λ n. record { number = n } };
}

impl StructNameId {
    pub fn new(number: u32) -> Self
        ensures { result ≡ number }
    {
        StructNameId { number }
    }

    pub fn number(self) -> u32
        ensures { result ≡ self }
    {
        self.number
    }
}
