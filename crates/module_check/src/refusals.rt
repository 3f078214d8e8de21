ghost use Rattle.std.specs.Prelude.{◌≡◌, ◌-◌, length, slice_get, take};

use block_rules::Refusal;
use std::marker::Model;

/// Some refusals, in order.
#[derive(Drop)]
pub struct Refusals {
    pub(crate) each: Vec<Refusal>,
}

impl Model for Refusals {
    ghost use Rattle.std.specs.Prelude.{List};
    ghost use Rattle.block_rules.specs.declared.block_fault.Refusal.{Refusal as ARefusal};

    ghost Value = { List ARefusal };

    ghost view = { λ refusals. refusals.each.items };
}

impl Refusals {
    /// These, in this order.
    pub fn of(each: Vec<Refusal>) -> Refusals
        ensures { result ≡ each.items }
    {
        Refusals { each }
    }

    /// The first of them.
    pub fn first(&self) -> Option<Refusal>
        ensures { result ≡ slice_get self.now 0 }
    {
        self.each.as_slice().first().copied()
    }

    /// The first of them, as many as there are up to this number.
    pub fn up_to(&self, limit: usize) -> &[Refusal]
        ensures { result.now ≡ take limit self.now }
    {
        let each = self.each.as_slice();
        if limit < each.len() {
            &each[..limit]
        } else {
            each
        }
    }

    /// How many there are beyond this number.
    pub fn beyond(&self, limit: usize) -> usize
        ensures { result ≡ length self.now - limit }
    {
        self.each.len().saturating_sub(limit)
    }
}
