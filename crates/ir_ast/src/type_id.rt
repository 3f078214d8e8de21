ghost use Rattle.std.specs.Prelude.{◌≡◌};

use std::marker::Model;

/// The place of a type in its module's table of types.
#[derive(Clone, Copy, PartialEq, Eq, Hash)]
pub struct TypeId {
    number: u32,
}

impl Model for TypeId {
    ghost use Rattle.std.specs.Prelude.{ℕ};

    ghost Value = { ℕ };

    ghost view = { λ id. id.number };

    ghost inverse = { λ n. record { number = n } };
}

impl TypeId {
    pub fn new(number: u32) -> Self
        ensures { result ≡ number }
    {
        TypeId { number }
    }

    pub fn number(self) -> u32
        ensures { result ≡ self }
    {
        self.number
    }
}
