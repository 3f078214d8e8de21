ghost use Rattle.std.specs.Prelude.{ℕ, ◌≡◌, ◌+◌, ◌<◌, ◌^◌, List, [], ◌∷◌, length, IfOk, IfSome, IfNone, IsTrue, All, slice_get};
ghost use Rattle.std.specs.Option.{option_copied};
ghost use Rattle.pools.specs.Heap.{Setup, IsSetup};
ghost use Rattle.colours.specs.Runs.{Event, ByThread, ByCollector, turns_of};
ghost use Rattle.record_text.specs.Records.{step_with};
ghost use Rattle.conform.specs.Rules.{Breaks, is_turn_rule};
ghost use Rattle.conform.specs.Checks.{AreThreadsAtStart, IsCheckAfter};

use crate::operations::{ask_of, is_found, is_found_by, place_of, turn_of};
use crate::rule::Rule;
use crate::thread_check::CheckedThread;
use collector_places::CollectorPlaces;
use colours::{Turn, cycle_of};
use heap_rule::Plan;
use record_text::ThreadStep;
use run_words::RunWords;
use std::alloc::{AllocError, Global};
use trace_sweep::word_law;

/// A run of threads that keep the discipline, as far as it was recorded.
#[derive(Drop)]
pub struct RunCheck<'a> {
    pub plan: &'a Plan<'a>,
    pub words: RunWords<'a>,
    pub threads: Vec<CheckedThread<'a>>,
    pub collector: CollectorPlaces<'a>,
}

impl<'a> RunCheck<'a> {
    /// The run before its first step.
    pub fn new(alloc: Global, plan: &'a Plan<'a>) -> Result<Self, AllocError>
        requires setup { IsSetup plan.now }
        requires threads { plan.now.threads < 2 ^ 32 }
        requires globals { length plan.now.globals < 2 ^ 32 }
        requires words { All (λ words. length words < 2 ^ 32) plan.now.layouts }
        ensures { IfOk result (IsCheckAfter plan.now []) }
    {
        let words = RunWords::new(alloc, plan)?;
        let collector = CollectorPlaces::new(alloc, plan)?;
        let threads = threads_of(alloc, plan)?;
        Ok(RunCheck {
            plan,
            words,
            threads,
            collector,
        })
    }

    /// A thread's step was recorded, with these roots if it is an answer. The rule that it breaks, if there is one; then nothing is
    /// known of the run afterwards, and so it is without memory.
    pub fn step(
        &mut self,
        thread: u32,
        step: ThreadStep,
        roots: &[u32],
    ) -> Result<Option<Rule>, AllocError>
        requires { (s : Setup) × (run : List Event) × IsCheckAfter s run self.old }
        ensures none { (s : Setup) (run : List Event) → IsCheckAfter s run self.old
            → IfOk result (λ broken. IfNone broken (IsCheckAfter s (ByThread thread (step_with roots.now step) ∷ run) self.new)) }
        ensures some { (s : Setup) (run : List Event) → IsCheckAfter s run self.old
            → IfOk result (λ broken. IfSome broken (λ rule. Breaks rule s run (ByThread thread (step_with roots.now step)))) }
    {
        word_law();
        let index = thread as usize;
        let Some(checked) = thread_at(&self.threads, index) else {
            return Ok(Some(Rule::NoStep));
        };
        if let Some(rule) = checked.broken_rule(self.plan, &self.words, step, roots) {
            return Ok(Some(rule));
        }
        let ask = ask_of(index, checked.order.stage(), step);
        if !is_found(step, self.words.word(place_of(ask))) {
            return Ok(Some(Rule::Value));
        }
        self.threads[index].follow(&self.words, step, roots)?;
        self.words.perform(ask);
        Ok(None)
    }

    /// A step of the collector was recorded. The rule that it breaks, if there is one; then nothing is known of the run afterwards,
    /// and so it is without memory.
    pub fn turn(&mut self, alloc: Global, turn: Turn) -> Result<Option<Rule>, AllocError>
        requires { (s : Setup) × (run : List Event) × IsCheckAfter s run self.old × (length (turns_of run) + 1 < 2 ^ 32) }
        ensures none { (s : Setup) (run : List Event) → IsCheckAfter s run self.old
            → IfOk result (λ broken. IfNone broken (IsCheckAfter s (ByCollector turn ∷ run) self.new)) }
        ensures some { (s : Setup) (run : List Event) → IsCheckAfter s run self.old
            → IfOk result (λ broken. IfSome broken (λ rule. Breaks rule s run (ByCollector turn))) }
    {
        word_law();
        self.collector.words_law();
        let ask = turn_of(cycle_of(self.collector.posted()), turn);
        if !self.words.has(place_of(ask)) {
            return Ok(Some(rule_of_turn(turn)));
        }
        if !is_found_by(turn, self.words.word(place_of(ask))) {
            return Ok(Some(Rule::Value));
        }
        if !self.collector.take(alloc, turn)? {
            return Ok(Some(rule_of_turn(turn)));
        }
        self.words.perform(ask);
        Ok(None)
    }
}

/// The thread with this number.
fn thread_at<'a, 'b>(
    threads: &'b Vec<CheckedThread<'a>>,
    thread: usize,
) -> Option<&'b CheckedThread<'a>>
    ensures { option_copied result ≡ slice_get threads.now.items thread }
{
    threads.get(thread)
}

/// The threads before their first steps.
fn threads_of<'a>(alloc: Global, plan: &'a Plan<'a>) -> Result<Vec<CheckedThread<'a>>, AllocError>
    ensures { IfOk result (λ threads. AreThreadsAtStart plan.now plan.now.threads threads.items) }
{
    let mut threads = Vec::new(alloc);
    for thread in 0..plan.threads {
        threads.push(CheckedThread::new(alloc, plan, thread)?)?;
    }
    Ok(threads)
}

/// The rule that a step of the collector breaks which its order does not allow.
fn rule_of_turn(turn: Turn) -> Rule
    ensures { IsTrue (is_turn_rule result turn) }
{
    match turn {
        Turn::ReadColour(_, _) => Rule::Look,
        Turn::ClearWord(_, _) | Turn::Free(_) => Rule::Sweep,
        Turn::PostStage(_) => Rule::Post,
        Turn::ReadStage(_, _)
        | Turn::MarkFound(_, _)
        | Turn::ScanWord(_, _, _)
        | Turn::Blacken(_) => Rule::Turn,
    }
}
