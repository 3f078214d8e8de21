use atomic_table::Seat;
use heap_rule::Knowledge;
use std::marker::Model;

/// The right to make the steps of one actor. There is one token for each actor of a heap, and it can't be copied.
#[derive(Drop)]
pub struct ActorToken {
    pub(crate) seat: Seat<(), Knowledge>,
}

impl Model for ActorToken {
    ghost use Rattle.heap_words.specs.Tokens.{Holding};

    ghost Value = { Holding };

    ghost use Rattle.heap_words.specs.TokenView.{holding_in, IsActorToken};

    ghost view = { holding_in };

    ghost invariant = { IsActorToken };
}
