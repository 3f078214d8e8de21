ghost use Rattle.std.specs.Prelude.{◌≡◌};

use facts::KeptFacts;
use std::marker::Model;

/// What each block of a function begins with.
#[derive(Drop)]
pub struct Rows {
    pub(crate) blocks: Vec<KeptFacts>,
}

impl Model for Rows {
    ghost use Rattle.std.specs.Prelude.{List};
    ghost use Rattle.facts.specs.Facts.{FactSet};

    ghost Value = { List FactSet };

    ghost view = { λ rows. rows.blocks.items };
}

impl Rows {
    /// A block at its number.
    pub(crate) fn blocks(&self) -> &[KeptFacts]
        ensures { result.now ≡ self.now }
    {
        &self.blocks
    }
}
