ghost use Rattle.std.specs.Prelude.{◌≡◌};

use std::marker::Model;

/// The number of a class of equal references, in the order in which they were made.
#[derive(Clone, Copy, Debug, PartialEq, Eq)]
pub struct ClassId {
    number: usize,
}

impl Model for ClassId {
    ghost use Rattle.std.specs.Prelude.{ℕ};

    ghost Value = { ℕ };

    ghost view = { λ id. id.number };

    ghost inverse = { λ n. record { number = n } };
}

impl ClassId {
    pub fn new(number: usize) -> Self
        ensures { result ≡ number }
    {
        ClassId { number }
    }

    pub fn number(self) -> usize
        ensures { result ≡ self }
    {
        self.number
    }
}
