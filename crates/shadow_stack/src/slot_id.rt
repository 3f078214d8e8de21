ghost use Rattle.std.specs.Prelude.{◌≡◌};

use std::marker::Model;

/// The number of a slot: the place of its alloca among those of its function, in text order from 0.
#[derive(Clone, Copy)]
pub struct SlotId {
    number: usize,
}

impl Model for SlotId {
    ghost use Rattle.std.specs.Prelude.{ℕ};

    ghost Value = { ℕ };

    ghost view = { λ id. id.number };

    ghost inverse = { λ n. record { number = n } };
}

impl SlotId {
    pub fn new(number: usize) -> Self
        ensures { result ≡ number }
    {
        SlotId { number }
    }

    pub fn number(self) -> usize
        ensures { result ≡ self }
    {
        self.number
    }
}
