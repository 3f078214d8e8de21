ghost use Rattle.std.specs.Prelude.{◌≡◌};

use std::marker::Model;

/// The number of a global, in text order from 0; it is the global's word in the globals' cell.
#[derive(Clone, Copy)]
pub struct GlobalId {
    number: u32,
}

impl Model for GlobalId {
    ghost use Rattle.std.specs.Prelude.{ℕ};

    ghost Value = { ℕ };

    ghost view = { λ id. id.number };

    ghost inverse = { λ n. record { number = n } };
}

impl GlobalId {
    pub fn new(number: u32) -> Self
        ensures { result ≡ number }
    {
        GlobalId { number }
    }

    pub fn number(self) -> u32
        ensures { result ≡ self }
    {
        self.number
    }
}
