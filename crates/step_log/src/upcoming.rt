ghost use Rattle.std.specs.Prelude.{◌≡◌, ◌∷◌, [], MatchOption};
ghost use Rattle.replay.specs.Lists.{actors_of};
ghost use Rattle.step_log.specs.Upcoming.{actors_in};

use moves::Actor;
use trace_text::Steps;

/// The actors of the steps that are still to be made, line by line.
#[derive(Drop)]
pub struct Upcoming<'a> {
    /// The actor of the present line, and how many of its steps are left.
    actor: Actor,
    left: u32,
    lines: &'a [Steps],
}

impl<'a> Upcoming<'a> {
    /// All steps of these lines.
    pub fn new(lines: &'a [Steps]) -> Self
        ensures { actors_in result ≡ actors_of lines.now }
    {
        Upcoming {
            actor: Actor::Collector,
            left: 0,
            lines,
        }
    }

    /// The actor of the next step.
    pub fn next(&mut self) -> Option<Actor>
        ensures { MatchOption result ((actors_in self.old ≡ []) × (actors_in self.new ≡ [])) (λ actor. actors_in self.old ≡ actor ∷ actors_in self.new) }
    {
        while self.left == 0 {
            let [line, more @ ..] = self.lines else {
                return None;
            };
            self.actor = line.actor;
            self.left = line.count;
            self.lines = more;
        }
        self.left -= 1;
        Some(self.actor)
    }
}
