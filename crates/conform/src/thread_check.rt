ghost use Rattle.std.specs.Prelude.{ℕ, ◌≡◌, ◌<◌, ◌^◌, List, [], ◌∷◌, IfOk, OnOk, IfSome, IfNone, IsTrue};
ghost use Rattle.pools.specs.Heap.{Setup, cells};
ghost use Rattle.colours.specs.Steps.{Step, ReadWord, ReadOldValue, StorePlain};
ghost use Rattle.colours.specs.Mutator.{IsDisciplined};
ghost use Rattle.watch.specs.Knows.{Knows};
ghost use Rattle.record_text.specs.Records.{step_with};
ghost use Rattle.conform.specs.Rules.{ComesNext, AsksOfStep, is_order_rule};
ghost use Rattle.conform.specs.Threads.{IsThreadAt, MayHold, IsMade};

use crate::discipline::broken_rule;
use crate::rule::Rule;
use heap_rule::Plan;
use record_text::ThreadStep;
use run_words::RunWords;
use std::alloc::{AllocError, Global};
use thread_order::ThreadOrder;
use watch::{Holdings, others_law};

/// A thread of a recorded run.
#[derive(Drop)]
pub struct CheckedThread<'a> {
    pub order: ThreadOrder<'a>,
    pub holdings: Holdings,
}

impl<'a> CheckedThread<'a> {
    /// A thread before its first step. It has 12 bytes for each cell of the heap.
    pub fn new(alloc: Global, plan: &'a Plan<'a>, thread: usize) -> Result<Self, AllocError>
        ensures { IfOk result (IsThreadAt plan.now thread []) }
    {
        let order = ThreadOrder::new(alloc, plan, thread)?;
        let holdings = Holdings::new(alloc, plan.pools.cells())?;
        Ok(CheckedThread { order, holdings })
    }

    /// The rule of its order or of the discipline that the step breaks, if there is one.
    pub fn broken_rule(
        &self,
        plan: &Plan<'_>,
        words: &RunWords<'_>,
        step: ThreadStep,
        roots: &[u32],
    ) -> Option<Rule>
        requires heap { words.now.heap ≡ plan.now }
        requires at { (thread : ℕ) × (log : List Step) × IsThreadAt plan.now thread log self.now }
        ensures none { (thread : ℕ) (log : List Step) → IsThreadAt plan.now thread log self.now → IfNone result (ComesNext plan.now thread log (step_with roots.now step) × IsDisciplined plan.now log (step_with roots.now step)) }
        ensures some { (thread : ℕ) (log : List Step) → IsThreadAt plan.now thread log self.now → IfSome result (λ rule. ¬ AsksOfStep rule plan.now thread log (step_with roots.now step)) }
    {
        if !self.order.may_follow(step, roots) {
            return Some(rule_of_order(step, self.order.is_to_answer(step)));
        }
        broken_rule(plan, words, &self.holdings, step, roots)
    }

    /// The step was made.
    pub fn follow(
        &mut self,
        words: &RunWords<'_>,
        step: ThreadStep,
        roots: &[u32],
    ) -> Result<(), AllocError>
        requires { (thread : ℕ) × (log : List Step) × IsThreadAt words.now.heap thread log self.old × IsMade words.now.heap thread log (step_with roots.now step) }
        ensures { (thread : ℕ) (log : List Step) → IsThreadAt words.now.heap thread log self.old → IsMade words.now.heap thread log (step_with roots.now step)
            → OnOk result (IsThreadAt words.now.heap thread (step_with roots.now step ∷ log) self.new) }
    {
        self.order.follow(step, roots)?;
        hold(&mut self.holdings, words, step, roots);
        Ok(())
    }
}

/// The rule that a step breaks which its thread's order does not allow.
fn rule_of_order(step: ThreadStep, is_answer: bool) -> Rule
    ensures { (roots : List ℕ) → IsTrue (is_order_rule result (step_with roots step)) }
{
    match step {
        ThreadStep::StoreAfterBarrier(_, _, _) => Rule::UnmarkedStore,
        ThreadStep::Claim(_, _) => Rule::Try,
        ThreadStep::StoreStage(_) if is_answer => Rule::UnmarkedRoots,
        ThreadStep::StoreStage(_) | ThreadStep::EnterStage(_) => Rule::Stage,
        ThreadStep::ReadWord(_, _, _)
        | ThreadStep::ReadOldValue(_, _, _)
        | ThreadStep::Mark(_)
        | ThreadStep::StorePlain(_, _, _)
        | ThreadStep::ReadPosted(_)
        | ThreadStep::ReadPostedFirst(_)
        | ThreadStep::ReadPostedAgain(_) => Rule::Order,
    }
}

/// What the thread holds after a step.
fn hold(holdings: &mut Holdings, words: &RunWords<'_>, step: ThreadStep, roots: &[u32])
    requires { (log : List Step) × Knows words.now.heap log holdings.old × MayHold words.now.heap log (step_with roots.now step) }
    ensures { (log : List Step) → Knows words.now.heap log holdings.old → MayHold words.now.heap log (step_with roots.now step) → Knows words.now.heap (step_with roots.now step ∷ log) holdings.new }
{
    others_law();
    match step {
        ThreadStep::ReadWord(cell, word, value) => hold_read(holdings, words, cell, word, value),
        ThreadStep::ReadOldValue(cell, word, value) => hold_old(holdings, words, cell, word, value),
        ThreadStep::StoreAfterBarrier(_, _, value) => holdings.stored(reference_in(words, value)),
        ThreadStep::StorePlain(cell, word, value) => hold_stored(
            holdings, words, cell, word, value,
        ),
        ThreadStep::Claim(cell, true) => holdings.won(cell),
        ThreadStep::StoreStage(_stage) => holdings.answered(roots),
        _ => {}
    }
}

/// After a read: the thread holds the cell that it found in a word of references.
fn hold_read(holdings: &mut Holdings, words: &RunWords<'_>, cell: u32, word: u32, value: u64)
    requires { (log : List Step) × MayHold words.now.heap log (ReadWord cell word value) }
    ensures { (log : List Step) → Knows words.now.heap log holdings.old → Knows words.now.heap (ReadWord cell word value ∷ log) holdings.new }
{
    others_law();
    if words.is_reference(cell, word) {
        holdings.found(reference_in(words, value));
    }
}

/// After the read of what a barriered store will replace.
fn hold_old(holdings: &mut Holdings, words: &RunWords<'_>, _cell: u32, _word: u32, value: u64)
    requires { (log : List Step) × MayHold words.now.heap log (ReadOldValue _cell _word value) }
    ensures { (log : List Step) → Knows words.now.heap log holdings.old → Knows words.now.heap (ReadOldValue _cell _word value ∷ log) holdings.new }
{
    holdings.found(reference_in(words, value));
}

/// After a plain store: a cell that was stored in a word of references is not fresh.
fn hold_stored(holdings: &mut Holdings, words: &RunWords<'_>, cell: u32, word: u32, value: u64)
    requires { (log : List Step) × MayHold words.now.heap log (StorePlain cell word value) }
    ensures { (log : List Step) → Knows words.now.heap log holdings.old → Knows words.now.heap (StorePlain cell word value ∷ log) holdings.new }
{
    others_law();
    if words.is_reference(cell, word) {
        holdings.stored(reference_in(words, value));
    }
}

/// A reference as the number of its cell.
fn reference_in(words: &RunWords<'_>, value: u64) -> u32
    requires { value < cells words.now.heap }
    ensures { result ≡ value }
{
    let _cells = words.cells();
    value as u32
}
