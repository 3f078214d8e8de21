//! Steps of one actor, one after the other, as one line.
ghost use Rattle.std.specs.Prelude.{◌≡◌, ℕ, ◌++◌, [], ◌∷◌, IfOk, IfSome, IsTrue, OnOk};
ghost use Rattle.std.specs.List.{AllByRecursion};
ghost use Rattle.moves.specs.Runs.{IsActor};
ghost use Rattle.layout.specs.Layouts.{LaidOut};
ghost use Rattle.trace_text.specs.Traces.{IsTraceOf};
ghost use Rattle.trace_text.specs.declared.trace.Steps.{Steps as SomeSteps};
ghost use Rattle.replay.specs.Lists.{actors_of};

use items::Items;
use moves::Actor;
use std::alloc::{AllocError, Global};
use trace_text::{Steps, Trace};

/// Whether two actors are the same.
fn is_same_actor(one: Actor, other: Actor) -> bool
    ensures { IsTrue result → one ≡ other }
{
    match (one, other) {
        (Actor::Thread(one), Actor::Thread(other)) => one == other,
        (Actor::Collector, Actor::Collector) => true,
        _ => false,
    }
}

/// Two lines as one, where it says the same.
fn joined(one: Steps, other: Steps) -> Option<Steps>
    ensures actors { IfSome result (λ both. actors_of (both ∷ []) ≡ actors_of (one ∷ other ∷ [])) }
    ensures either { IfSome result (λ both. (threads : ℕ) → IsActor threads one.actor → IsActor threads other.actor → IsActor threads both.actor) }
{
    if other.count == 0 {
        return Some(one);
    }
    if one.count == 0 {
        return Some(other);
    }
    if !is_same_actor(one.actor, other.actor) {
        return None;
    }
    if one.count > u32::MAX - other.count {
        return None;
    }
    Some(Steps {
        actor: one.actor,
        count: one.count + other.count,
    })
}

/// Lines that are merged so far; the last one may become longer.
#[derive(Drop)]
struct Merging {
    lines: Items<Steps>,
    last: Steps,
}

impl Merging {
    /// One more line.
    fn add(&mut self, next: Steps) -> Result<(), AllocError>
        ensures actors { OnOk result (actors_of (self.new.lines ++ self.new.last ∷ []) ≡ actors_of (self.old.lines ++ self.old.last ∷ []) ++ actors_of (next ∷ [])) }
        ensures either { (threads : ℕ) → AllByRecursion (λ (s : SomeSteps). IsActor threads s.actor) (self.old.lines ++ self.old.last ∷ []) → IsActor threads next.actor
            → OnOk result (AllByRecursion (λ (s : SomeSteps). IsActor threads s.actor) (self.new.lines ++ self.new.last ∷ [])) }
    {
        if let Some(both) = joined(self.last, next) {
            self.last = both;
            return Ok(());
        }
        self.lines.push(self.last)?;
        self.last = next;
        Ok(())
    }

    /// All lines.
    fn close(self) -> Result<Items<Steps>, AllocError>
        ensures actors { IfOk result (λ merged. actors_of merged ≡ actors_of (self.lines ++ self.last ∷ [])) }
        ensures either { (threads : ℕ) → AllByRecursion (λ (s : SomeSteps). IsActor threads s.actor) (self.lines ++ self.last ∷ [])
            → IfOk result (AllByRecursion (λ (s : SomeSteps). IsActor threads s.actor)) }
    {
        let Merging { mut lines, last } = self;
        lines.push(last)?;
        Ok(lines)
    }
}

/// The same steps, with one line for those of an actor that come one after the other. Where there are none, one line says so.
pub fn merged(alloc: Global, steps: &[Steps]) -> Result<Items<Steps>, AllocError>
    ensures actors { IfOk result (λ merged. actors_of merged ≡ actors_of steps.now) }
    ensures either { (threads : ℕ) → AllByRecursion (λ (s : SomeSteps). IsActor threads s.actor) steps.now → IfOk result (AllByRecursion (λ (s : SomeSteps). IsActor threads s.actor)) }
{
    let mut merging = Merging {
        lines: Items::new(alloc),
        last: Steps {
            actor: Actor::Collector,
            count: 0,
        },
    };
    for next in steps {
        merging.add(*next)?;
    }
    merging.close()
}

/// The trace with one line for the steps of an actor that come one after the other.
pub fn in_fewer_lines(alloc: Global, trace: Trace) -> Result<Trace, AllocError>
    ensures is_trace { (p : LaidOut) → IsTraceOf p trace → IfOk result (IsTraceOf p) }
    ensures setup { IfOk result (λ merged. merged.setup ≡ trace.setup) }
    ensures actors { IfOk result (λ merged. actors_of merged.steps ≡ actors_of trace.steps) }
{
    let Trace { setup, steps } = trace;
    match merged(alloc, steps.as_slice()) {
        Ok(steps) => Ok(Trace { setup, steps }),
        Err(_refused) => Err(AllocError),
    }
}
