ghost use Rattle.std.specs.Prelude.{◌≡◌, ◌≤◌, length, IfOk};
ghost use Rattle.std.specs.List.{AllByRecursion};
ghost use Rattle.moves.specs.Runs.{IsActor};
ghost use Rattle.layout.specs.Layouts.{LaidOut};
ghost use Rattle.trace_text.specs.Traces.{IsTraceOf, step_sum};
ghost use Rattle.trace_text.specs.declared.trace.Steps.{Steps as SomeSteps};
ghost use Rattle.replay.specs.Lists.{actors_of};
ghost use Rattle.replay.specs.Soaks.{actor_drawn, actors_drawn};

use crate::seeds::{draw, seeded};
use items::Items;
use moves::Actor;
use std::alloc::{AllocError, Global};
use trace_text::{Steps, Trace};

/// A number that was drawn, as an actor: the count of threads means the collector.
pub fn actor_drawn(threads: u32, draw: u32) -> Actor
    requires { draw ≤ threads }
    ensures actor { result ≡ actor_drawn threads draw }
    ensures is_actor { IsActor threads result }
{
    if draw == threads {
        return Actor::Collector;
    }
    Actor::Thread(draw)
}

/// The steps that a seed draws for this number of threads and the collector.
fn drawn_steps(
    alloc: Global,
    threads: u32,
    seed: u32,
    steps: u32,
) -> Result<Items<Steps>, AllocError>
    requires { threads ≤ 64 }
    ensures actors { IfOk result (λ drawn. actors_of drawn ≡ actors_drawn threads seed steps) }
    ensures are_actors { IfOk result (AllByRecursion (λ (s : SomeSteps). IsActor threads s.actor)) }
    ensures count { IfOk result (λ drawn. step_sum drawn ≡ steps) }
{
    let mut rng = seeded(u64::from(seed));
    let mut drawn = Items::new(alloc);
    for _step in 0..steps {
        let actor = actor_drawn(threads, draw(&mut rng, threads));
        drawn.push(Steps { actor, count: 1 })?;
    }
    Ok(drawn)
}

/// A trace with the steps that a seed draws in place of its own.
pub fn drawn_trace(alloc: Global, trace: Trace, seed: u32, steps: u32) -> Result<Trace, AllocError>
    requires { length trace.setup.starts ≤ 64 }
    ensures setup { IfOk result (λ drawn. drawn.setup ≡ trace.setup) }
    ensures steps { IfOk result (λ drawn. actors_of drawn.steps ≡ actors_drawn (length trace.setup.starts) seed steps) }
    ensures is_trace { (p : LaidOut) → IsTraceOf p trace → steps ≤ 10000000 → IfOk result (IsTraceOf p) }
{
    let threads = trace.setup.starts.len() as u32;
    let steps = drawn_steps(alloc, threads, seed, steps)?;
    Ok(Trace {
        setup: trace.setup,
        steps,
    })
}
