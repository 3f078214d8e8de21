//! What a step tells its caller, and how seats are dealt out and come back.
ghost use Rattle.std.specs.Prelude.{◌≡◌, ℕ, []};
ghost use Rattle.colours.specs.Runs.{Event};
ghost use Rattle.heap_rule.specs.View.{View, dealt, newcomer, joined, spent, logged, share_of, no_event};
ghost use Rattle.heap_rule.specs.Rule.{Ruled, first_view, Happens};

use crate::knowledge::Knowledge;
use crate::plan::Plan;
use atomic_table::{Join, Play, Split, TableRule};
use std::marker::{Brand, PhantomData};

/// The rule: there is one run that ends in the table's words, and what each seat knows is true of it.
pub struct OneRun;

impl<'a> TableRule<(), Knowledge, Plan<'a>> for OneRun {
    ghost holds = { Ruled };

    ghost first = { first_view };
}

/// A step of an actor, by the number that its caller is told. Each call picks it.
pub trait Told {
    ghost event: { ℕ → Event };
}

impl Told for Brand {
    ghost event = { λ _. no_event };
}

/// The seat that made the step has logged it, and it was a step of a run.
pub struct Logs<J> {
    of: PhantomData<J>,
}

impl<J: Told> Play<(), Knowledge> for Logs<J> {
    ghost then = { λ step before found after. (after ≡ (logged before.0 (J.event found), before.1)) × Happens before.0.setup (share_of before.0) (J.event found) };
}

/// The next thread is dealt out, to a seat of its own.
pub struct Deals;

impl Split<Knowledge> for Deals {
    ghost left = { dealt };

    ghost right = { newcomer };
}

/// A seat takes in what another one knows.
pub struct Gathers;

impl Join<Knowledge> for Gathers {
    ghost both = { joined };

    ghost spent = { spent };
}
