//! What is read so far of a trace.
ghost use Rattle.std.specs.Prelude.{◌≡◌, ◌<◌, ◌^◌, ◌+◌, IfOk, OnOk, length};
ghost use Rattle.trace_text.specs.Input as spec;

use crate::trace::{Arrival, Start, Steps};
use ir_ast::FuncId;
use items::Items;
use moves::Actor;
use pools::LayoutId;
use std::alloc::{AllocError, Global};
use std::mem;

#[derive(Drop)]
pub struct TraceProgress {
    /// How many cells each layout has, where that is listed so far.
    pub counts: Items<Option<u32>>,
    /// How each thread begins, by its number.
    pub starts: Items<Start>,
    pub steps: Items<Steps>,
    /// How many steps are listed so far.
    pub made: u32,
}

impl TraceProgress {
    /// Nothing is read so far, for a program with this number of layouts.
    pub fn new(alloc: Global, layouts: usize) -> Result<TraceProgress, AllocError>
        ensures { IfOk result (λ progress. progress ≡ spec.nothing_read layouts) }
    {
        let none = vec![in alloc; None; layouts]?;
        Ok(TraceProgress {
            counts: Items::from_vec(none),
            starts: Items::new(alloc),
            steps: Items::new(alloc),
            made: 0,
        })
    }

    /// How many cells each layout has, where that is listed so far.
    pub fn counts(&self) -> &[Option<u32>]
        ensures { result.now ≡ self.now.counts }
    {
        self.counts.as_slice()
    }

    /// How many threads begin so far.
    pub fn threads(&self) -> usize
        ensures { result ≡ length self.now.starts }
    {
        self.starts.len()
    }

    /// How many steps are listed with `count` more.
    pub fn made_with(&self, count: u32) -> u64
        ensures { result ≡ self.now.made + count }
    {
        self.made as u64 + count as u64
    }

    /// The pool of this layout has `count` cells; where there is no such layout it is ignored.
    #[tactic(auto, unfolding(crate::specs::Input::with_pool))]
    pub fn put_pool(&mut self, layout: LayoutId, count: u32)
        ensures { self.new ≡ spec.with_pool layout count self.old }
    {
        let at = layout.number() as usize;
        if at < self.counts.len() {
            self.counts.set(at, Some(count));
        }
    }

    /// One more thread begins.
    #[tactic(auto, unfolding(crate::specs::Input::with_start))]
    pub fn put_start(
        &mut self,
        arrival: Arrival,
        function: FuncId,
        arguments: Items<u64>,
        values: Items<u64>,
    ) -> Result<(), AllocError>
        ensures { OnOk result (self.new ≡ spec.with_start arrival function arguments values self.old) }
    {
        self.starts.push(Start {
            arrival,
            function,
            arguments,
            values,
        })?;
        Ok(())
    }

    /// `count` more steps of this actor.
    #[tactic(auto, unfolding(crate::specs::Input::with_steps))]
    pub fn put_steps(&mut self, actor: Actor, count: u32) -> Result<(), AllocError>
        requires { self.old.made + count < 2 ^ 32 }
        ensures { OnOk result (self.new ≡ spec.with_steps actor count self.old) }
    {
        self.steps.push(Steps { actor, count })?;
        self.made += count;
        Ok(())
    }

    /// Takes the starts and the steps out.
    #[tactic(auto, unfolding(crate::specs::Input::emptied))]
    pub fn take_all(&mut self, alloc: Global) -> (Items<Start>, Items<Steps>)
        ensures starts { result.0 ≡ self.old.starts }
        ensures steps { result.1 ≡ self.old.steps }
        ensures rest { self.new ≡ spec.emptied self.old }
    {
        let starts = mem::replace(&mut self.starts, Items::new(alloc));
        let steps = mem::replace(&mut self.steps, Items::new(alloc));
        (starts, steps)
    }
}
