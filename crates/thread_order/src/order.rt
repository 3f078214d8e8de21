ghost use Rattle.std.specs.Prelude.{ℕ, ◌≡◌, ◌<◌, Bool, List, [], ◌∷◌, slice_index, if◌then◌else◌, IsTrue, IfOk, OnOk, OnErr};
ghost use Rattle.pools.specs.Heap.{Setup, cells, layout_of, is_late};
ghost use Rattle.colours.specs.Steps.{Step};
ghost use Rattle.colours.specs.Mutator.{stage_of, phase_of, MayFollow};
ghost use Rattle.record_text.specs.Records.{step_with};
ghost use Rattle.thread_order.specs.Standings.{Standing};
ghost use Rattle.thread_order.specs.Follows as follows;
ghost use Rattle.thread_order.specs.Follows.{is_answer, may_follow, stands_after, MayLose};
ghost use Rattle.thread_order.specs.Orders.{Stands, Tells, TellsAsked, GoesOn};

use crate::at::At;
use crate::marks::are_marked;
use colours::{DONE, is_async};
use heap_rule::Plan;
use items::Items;
use pools::LayoutId;
use record_text::ThreadStep;
use std::alloc::{AllocError, Global};
use std::marker::Model;
use watch::CellSet;

/// A thread, by the order of its steps: the stage that it stored last, and where it is in a call.
#[derive(Drop)]
pub struct ThreadOrder<'a> {
    plan: &'a Plan<'a>,
    stage: u64,
    at: At,
    /// Of the request under way: its pool, how many of its cells are left to try, and which were tried.
    pool: LayoutId,
    left: u32,
    is_tried: CellSet,
    /// The roots that the answer under way marked.
    marked: Items<u32>,
}

impl<'a> Model for ThreadOrder<'a> {
    ghost use Rattle.thread_order.specs.Standings.{Standing};

    ghost Value = { Standing };

    ghost use Rattle.thread_order.specs.View.{standing_in};

    ghost view = { standing_in };
}

impl<'a> ThreadOrder<'a> {
    /// A thread before its first step. It has 4 bytes for each cell of the heap.
    pub fn new(alloc: Global, plan: &'a Plan<'a>, thread: usize) -> Result<Self, AllocError>
        ensures { IfOk result (Stands plan.now thread []) }
    {
        let at = first_place(is_late(plan, thread));
        let is_tried = CellSet::new(alloc, plan.pools.cells())?;
        Ok(ThreadOrder {
            plan,
            stage: 0,
            at,
            pool: LayoutId::new(0),
            left: 0,
            is_tried,
            marked: Items::new(alloc),
        })
    }

    /// The stage that it stored last.
    pub fn stage(&self) -> u64
        ensures { result ≡ self.now.stage }
    {
        self.stage
    }

    /// Whether the step stores the stage that is to be answered.
    pub fn is_to_answer(&self, step: ThreadStep) -> bool
        ensures asked { (roots : List ℕ) → TellsAsked self.now (step_with roots step) result }
    {
        match self.at {
            At::Answering(next) => stores(step, next),
            _ => false,
        }
    }

    /// Whether the step, with these roots if it is an answer, may come next.
    pub fn may_follow(&self, step: ThreadStep, roots: &[u32]) -> bool
        ensures tells { Tells self.now (step_with roots.now step) result }
    {
        self.is_next(step, roots)
    }

    /// The step was made, with these roots if it is an answer. Without memory nothing changes.
    pub fn follow(&mut self, step: ThreadStep, roots: &[u32]) -> Result<(), AllocError>
        requires { (s : Setup) × (thread : ℕ) × (log : List Step) × Stands s thread log self.old × MayFollow s (stage_of log) (phase_of s thread log) (step_with roots.now step) }
        ensures ok { OnOk result (GoesOn self.old (step_with roots.now step) self.new) }
        ensures err { OnErr result (self.new ≡ self.old) }
    {
        self.go_on(step)?;
        Ok(())
    }

    fn is_next(&self, step: ThreadStep, roots: &[u32]) -> bool
        ensures { result ≡ may_follow self.now self.now.at (step_with roots.now step) }
    {
        match self.at {
            At::Ready => self.is_first(step, roots),
            At::MarkingOld(_cell, _word, old) => is_old(step, old),
            At::MarkingNew(cell, word, _old) => self.is_new(step, cell, word),
            At::Writing(cell, word, _old, new) => is_store(step, cell, word, new),
            At::Trying => self.is_try(step),
            At::Answering(next) => self.is_answer(step, roots, next),
            At::Ended => false,
            At::Absent => matches!(step, ThreadStep::ReadPostedFirst(_)),
            At::Arriving(posted) => is_entry(step, posted),
            At::Entering => matches!(step, ThreadStep::ReadPostedAgain(_)),
            At::Leaving => is_end(step, roots),
        }
    }

    /// Between two calls.
    fn is_first(&self, step: ThreadStep, roots: &[u32]) -> bool
        ensures { result ≡ may_follow self.now At.Ready (step_with roots.now step) }
    {
        match step {
            ThreadStep::ReadWord(_, _, _)
            | ThreadStep::ReadOldValue(_, _, _)
            | ThreadStep::StorePlain(_, _, _)
            | ThreadStep::ReadPosted(_) => true,
            ThreadStep::Claim(cell, _) => self.is_cell(cell),
            ThreadStep::StoreStage(next) => next == DONE && roots.is_empty(),
            _ => false,
        }
    }

    /// The old value is marked.
    fn is_new(&self, step: ThreadStep, cell: u32, word: u32) -> bool
        ensures { (old : ℕ) (roots : List ℕ) → result ≡ may_follow self.now (At.MarkingNew cell word old) (step_with roots step) }
    {
        match step {
            ThreadStep::Mark(marked) => !is_async(self.stage) && marked != 0,
            ThreadStep::StoreAfterBarrier(to, at, value) => to == cell
                && at == word
                && (is_async(self.stage) || value == 0),
            _ => false,
        }
    }

    /// Each try so far was lost.
    fn is_try(&self, step: ThreadStep) -> bool
        ensures { (roots : List ℕ) → result ≡ may_follow self.now At.Trying (step_with roots step) }
    {
        match step {
            ThreadStep::Claim(cell, _) => self.may_try(cell),
            _ => false,
        }
    }

    /// Another stage is posted.
    fn is_answer(&self, step: ThreadStep, roots: &[u32], next: u64) -> bool
        ensures { result ≡ may_follow self.now (At.Answering next) (step_with roots.now step) }
    {
        match step {
            ThreadStep::Mark(marked) => is_async(next) && marked != 0,
            ThreadStep::StoreStage(to) => to == next
                && (!is_async(next) || are_marked(self.marked.as_slice(), roots)),
            _ => false,
        }
    }

    /// Whether the cell may be tried, after those that were.
    fn may_try(&self, cell: u32) -> bool
        ensures { result ≡ follows.may_try self.now cell }
    {
        self.is_cell(cell) && self.pool_of(cell) == self.pool && !self.is_tried.has(cell)
    }

    /// Whether it is a cell that may be claimed.
    fn is_cell(&self, cell: u32) -> bool
        ensures { result ≡ follows.is_cell self.now.heap cell }
    {
        let plan = self.plan;
        0 < cell && cell < plan.pools.cells()
    }

    /// The layout of a cell.
    fn pool_of(&self, cell: u32) -> LayoutId
        requires first { 0 < cell }
        requires cell { cell < cells self.now.heap }
        ensures { result ≡ layout_of self.now.heap cell }
    {
        let plan = self.plan;
        plan.pools.pool_of(cell)
    }

    fn go_on(&mut self, step: ThreadStep) -> Result<(), AllocError>
        requires { (cell : ℕ) (won : Bool) → step ≡ ThreadStep.Claim cell won → MayLose self.old cell }
        ensures ok { (roots : List ℕ) → OnOk result (self.new ≡ stands_after self.old (step_with roots step)) }
        ensures err { OnErr result (self.new ≡ self.old) }
    {
        match step {
            ThreadStep::ReadWord(_, _, _)
            | ThreadStep::StoreAfterBarrier(_, _, _)
            | ThreadStep::StorePlain(_, _, _) => self.at = At::Ready,
            ThreadStep::ReadOldValue(cell, word, value) => {
                self.at = if value == 0 {
                    At::MarkingNew(cell, word, value)
                } else {
                    At::MarkingOld(cell, word, value)
                };
            }
            ThreadStep::Mark(cell) => return self.mark(cell),
            ThreadStep::Claim(cell, won) => self.claim(cell, won),
            ThreadStep::ReadPosted(posted) => self.look(posted),
            ThreadStep::StoreStage(next) => {
                self.at = after_store(self.at, next);
                self.stage = next;
            }
            ThreadStep::ReadPostedFirst(posted) => self.at = At::Arriving(posted),
            ThreadStep::EnterStage(next) => {
                self.at = At::Entering;
                self.stage = next;
            }
            ThreadStep::ReadPostedAgain(posted) => {
                self.at = if posted == self.stage {
                    At::Ready
                } else {
                    At::Leaving
                };
            }
        }
        Ok(())
    }

    /// The thread marked a cell.
    fn mark(&mut self, cell: u32) -> Result<(), AllocError>
        ensures ok { OnOk result (self.new ≡ follows.after_mark self.old self.old.at cell) }
        ensures err { OnErr result (self.new ≡ self.old) }
    {
        match self.at {
            At::MarkingOld(base, word, old) => self.at = At::MarkingNew(base, word, old),
            At::MarkingNew(base, word, old) => {
                self.at = At::Writing(base, word, old, u64::from(cell));
            }
            At::Answering(_) => self.marked.push(cell)?,
            _ => self.at = At::Ready,
        }
        Ok(())
    }

    /// The thread read the posted stage.
    fn look(&mut self, posted: u64)
        ensures { self.new ≡ follows.after_poll self.old posted }
    {
        if posted == self.stage {
            self.at = At::Ready;
        } else {
            self.at = At::Answering(posted);
            self.marked.clear();
        }
    }

    /// The thread tried to take a cell.
    fn claim(&mut self, cell: u32, won: bool)
        requires { MayLose self.old cell }
        ensures { self.new ≡ follows.after_claim self.old self.old.at cell won }
    {
        if won {
            self.at = At::Ready;
        } else {
            self.lose(cell);
        }
    }

    /// The thread tried a cell in vain.
    fn lose(&mut self, cell: u32)
        requires first { 0 < cell }
        requires cell { cell < cells self.old.heap }
        requires more { IsTrue (follows.is_trying self.old.at) → 0 < self.old.left }
        requires some { 0 < slice_index self.old.heap.pools (layout_of self.old.heap cell) }
        ensures { self.new ≡ follows.after_try (follows.tried_too self.old (follows.is_trying self.old.at) cell) }
    {
        if matches!(self.at, At::Trying) {
            self.left -= 1;
        } else {
            self.begin_tries(cell);
        }
        self.is_tried.add(cell);
        self.at = if self.left == 0 {
            At::Ready
        } else {
            At::Trying
        };
    }

    /// A request begins with a try of this cell.
    fn begin_tries(&mut self, cell: u32)
        requires first { 0 < cell }
        requires cell { cell < cells self.old.heap }
        requires some { 0 < slice_index self.old.heap.pools (layout_of self.old.heap cell) }
        ensures { self.new ≡ follows.with_request self.old cell }
    {
        let pool = self.pool_of(cell);
        let count = self.pool_size(cell);
        self.pool = pool;
        self.left = count - 1;
        self.is_tried.clear();
    }

    /// How many cells the pool of a cell has.
    fn pool_size(&self, cell: u32) -> u32
        requires first { 0 < cell }
        requires cell { cell < cells self.now.heap }
        ensures { result ≡ slice_index self.now.heap.pools (layout_of self.now.heap cell) }
    {
        let plan = self.plan;
        plan.pools.count(self.pool_of(cell))
    }
}

/// Whether a thread is absent at the start.
fn is_late(plan: &Plan<'_>, thread: usize) -> bool
    ensures { result ≡ is_late plan.now thread }
{
    plan.late.get(thread).copied().unwrap_or(false)
}

/// Where a thread is before its first step.
fn first_place(is_late: bool) -> At
    ensures { result ≡ (if is_late then At.Absent else At.Ready) }
{
    if is_late { At::Absent } else { At::Ready }
}

/// Whether the step stores this stage.
fn stores(step: ThreadStep, next: u64) -> bool
    ensures { (roots : List ℕ) → result ≡ is_answer (At.Answering next) (step_with roots step) }
{
    matches!(step, ThreadStep::StoreStage(to) if to == next)
}

/// The old value is to be marked.
fn is_old(step: ThreadStep, old: u64) -> bool
    ensures { (v : Standing) (cell word : ℕ) (roots : List ℕ) → result ≡ may_follow v (At.MarkingOld cell word old) (step_with roots step) }
{
    matches!(step, ThreadStep::Mark(cell) if u64::from(cell) == old)
}

/// The new value is marked too.
fn is_store(step: ThreadStep, cell: u32, word: u32, new: u64) -> bool
    ensures { (v : Standing) (old : ℕ) (roots : List ℕ) → result ≡ may_follow v (At.Writing cell word old new) (step_with roots step) }
{
    matches!(step, ThreadStep::StoreAfterBarrier(to, at, value) if to == cell && at == word && value == new)
}

/// A late thread has read this stage.
fn is_entry(step: ThreadStep, posted: u64) -> bool
    ensures { (v : Standing) (roots : List ℕ) → result ≡ may_follow v (At.Arriving posted) (step_with roots step) }
{
    matches!(step, ThreadStep::EnterStage(next) if next == posted)
}

/// A late thread leaves.
fn is_end(step: ThreadStep, roots: &[u32]) -> bool
    ensures { (v : Standing) → result ≡ may_follow v At.Leaving (step_with roots.now step) }
{
    matches!(step, ThreadStep::StoreStage(next) if next == DONE && roots.is_empty())
}

/// Where a thread is after the store of its stage.
fn after_store(at: At, next: u64) -> At
    ensures { result ≡ follows.after_store at next }
{
    match at {
        At::Leaving => At::Absent,
        _ if next == DONE => At::Ended,
        _ => At::Ready,
    }
}
