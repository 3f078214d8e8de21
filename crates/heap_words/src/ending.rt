ghost use Rattle.std.specs.Prelude.{◌≡◌, [], ◌∷◌};

use crate::closed_words::ClosedWords;
use crate::token::ActorToken;
use crate::words::SharedWords;
use atomic_table::Seat;
use heap_rule::{Gathers, Knowledge};
use std::marker::Model;

/// The words of a heap whose tokens come back one by one. It takes no memory.
#[derive(Drop)]
pub struct ReturningWords<'a> {
    words: SharedWords<'a>,
    seat: Seat<(), Knowledge>,
}

impl<'a> Model for ReturningWords<'a> {
    ghost use Rattle.heap_words.specs.Endings.{Gathered};

    ghost Value = { Gathered };

    ghost use Rattle.heap_words.specs.EndingView.{gathered_in, IsEnding};

    ghost view = { gathered_in };

    ghost invariant = { IsEnding };
}

impl<'a> SharedWords<'a> {
    ghost use Rattle.heap_words.specs.Tokens.{IsOf};

    /// Ends the sharing of the words, with the first token that comes back.
    pub fn end(self, first: ActorToken) -> ReturningWords<'a>
        requires { IsOf self first }
        ensures { result ≡ record { setup = self.entry.setup; table = self.entry.table; shares = first.share ∷ [] } }
    {
        let ActorToken { seat } = first;
        ReturningWords { words: self, seat }
    }
}

impl<'a> ReturningWords<'a> {
    ghost use Rattle.heap_words.specs.Endings.{IsBackAt, Ends};

    /// One token more comes back.
    pub fn take_back(&mut self, token: ActorToken)
        requires { IsBackAt self.old token }
        ensures { self.new ≡ record { setup = self.old.setup; table = self.old.table; shares = token.share ∷ self.old.shares } }
    {
        let ActorToken { seat } = token;
        let words = &self.words;
        words
            .table
            .shared
            .join_seat::<Gathers>(&mut self.seat, seat);
    }

    /// Gives back the words. They are at the end of a run in which each token that came back has its actor's share.
    pub fn close(self) -> ClosedWords<'a>
        ensures setup { result.setup ≡ self.entry.setup }
        ensures run { Ends self.entry.setup self.entry.shares result }
    {
        let ReturningWords { words, seat } = self;
        let SharedWords {
            table,
            plan,
            starts,
        } = words;
        let closed = table.close_with(seat);
        ClosedWords {
            closed,
            plan,
            starts,
        }
    }
}
