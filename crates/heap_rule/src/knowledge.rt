use std::marker::Model;

/// What a seat knows: the shares of its actors. It stands in contracts alone, and no value of it is ever made.
#[derive(Drop)]
pub struct Knowledge {
    unused: (),
}

impl Model for Knowledge {
    ghost use Rattle.heap_rule.specs.View.{View, spent};

    ghost Value = { View };

    ghost view = { λ _. spent };
}
