ghost use Rattle.std.specs.Prelude.{ℕ};
ghost use Rattle.colours.specs.Steps.{Step, ReadPosted};

use std::marker::Brand;

/// The step that a thread makes, by the number that it is told. Each call picks it.
pub trait Makes {
    ghost step: { ℕ → Step };
}

impl Makes for Brand {
    ghost step = { ReadPosted };
}
