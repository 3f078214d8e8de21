ghost use Rattle.std.specs.Prelude.{◌≡◌, ◌+◌, ◌≤◌, ◌<◌, ◌^◌, List, [], ◌∷◌, ◌++◌, length, reverse, slice_get, IfOk, OnOk, All};
ghost use Rattle.std.specs.Option.{option_copied};
ghost use Rattle.pools.specs.Heap.{Setup, IsSetup};
ghost use Rattle.record_text.specs.declared.entry.Entry.{Entry as AnEntry};
ghost use Rattle.record_text.specs.declared.steps.Recorded.TheVariants as said;
ghost use Rattle.record_text.specs.Entries.{entries_of};
ghost use Rattle.conform.specs.Verdicts.{IsVerdict, AreNamed, IsReadTo, IsRead, IsChecked, with_root, with_step};

use crate::rule::Rule;
use crate::run_check::RunCheck;
use crate::verdict::Verdict;
use colours::Turn;
use heap_rule::Plan;
use items::Items;
use record_text::{ENTRY_BYTES, Entry, Recorded, ThreadStep, read_entry};
use std::alloc::{AllocError, Global};
use trace_sweep::heap_law;

/// A record, as far as its entries were read.
#[derive(Drop)]
pub struct RecordCheck<'a> {
    pub run: RunCheck<'a>,
    /// The roots that each thread has named since its last answer.
    pub roots: Vec<Items<u32>>,
    /// How many steps were made.
    pub steps: u32,
    /// The first step that breaks a rule.
    pub broken: Option<Verdict>,
}

impl<'a> RecordCheck<'a> {
    /// A record before its first entry.
    pub fn new(alloc: Global, plan: &'a Plan<'a>) -> Result<Self, AllocError>
        requires setup { IsSetup plan.now }
        requires threads { plan.now.threads < 2 ^ 32 }
        requires globals { length plan.now.globals < 2 ^ 32 }
        requires words { All (λ words. length words < 2 ^ 32) plan.now.layouts }
        ensures { IfOk result (IsChecked plan.now []) }
    {
        let run = RunCheck::new(alloc, plan)?;
        let roots = no_roots(alloc, plan.threads)?;
        Ok(RecordCheck {
            run,
            roots,
            steps: 0,
            broken: None,
        })
    }

    /// What is told of the record so far.
    pub fn verdict(&self) -> Verdict
        ensures { (s : Setup) (entries : List AnEntry) → IsChecked s entries self.now → IsVerdict s (reverse entries) result }
    {
        heap_law();
        match self.broken {
            Some(broken) => broken,
            None => Verdict::Conforms(self.steps),
        }
    }

    /// Reads one entry more, unless a step before it breaks a rule.
    pub fn read(&mut self, alloc: Global, entry: Entry) -> Result<(), AllocError>
        requires { (s : Setup) × (entries : List AnEntry) × IsChecked s entries self.old × (length entries + 1 < 2 ^ 31) }
        ensures { (s : Setup) (entries : List AnEntry) → IsChecked s entries self.old → OnOk result (IsChecked s (entry ∷ entries) self.new) }
    {
        if let Some(_broken) = self.broken {
            return Ok(());
        }
        if let Some(rule) = self.read_said(alloc, read_entry(entry))? {
            self.broken = Some(Verdict::Broken(self.steps + 1, entry.actor, rule));
        }
        Ok(())
    }

    /// Reads what an entry says. The rule that its step breaks, if there is one.
    fn read_said(&mut self, alloc: Global, said: Recorded) -> Result<Option<Rule>, AllocError>
        requires { (s : Setup) × (entries : List AnEntry) × IsReadTo s entries self.old × (length entries + 1 < 2 ^ 31) }
        ensures read { (s : Setup) (entries : List AnEntry) → IsReadTo s entries self.old → IfOk result (IsRead s entries said self.old self.new) }
        ensures broken { self.new.broken ≡ self.old.broken }
    {
        match said {
            Recorded::Thread(thread, step) => self.read_step(thread, step),
            Recorded::Root(thread, cell) => {
                name_root(&mut self.roots, thread, cell)?;
                Ok(None)
            }
            Recorded::Collector(turn) => self.read_turn(alloc, turn),
            Recorded::Unknown => Ok(Some(Rule::NoStep)),
        }
    }

    /// A thread's step; an answer names the roots that were named before it.
    fn read_step(&mut self, thread: u32, step: ThreadStep) -> Result<Option<Rule>, AllocError>
        requires { (s : Setup) × (entries : List AnEntry) × IsReadTo s entries self.old × (length entries + 1 < 2 ^ 31) }
        ensures read { (s : Setup) (entries : List AnEntry) → IsReadTo s entries self.old → IfOk result (IsRead s entries (said.Thread thread step) self.old self.new) }
        ensures broken { self.new.broken ≡ self.old.broken }
    {
        let Some(roots) = roots_at(&self.roots, thread as usize) else {
            return Ok(Some(Rule::NoStep));
        };
        if let Some(rule) = self.run.step(thread, step, roots.as_slice())? {
            return Ok(Some(rule));
        }
        forget_roots(&mut self.roots, thread as usize, step);
        self.steps += 1;
        Ok(None)
    }

    /// A step of the collector.
    fn read_turn(&mut self, alloc: Global, turn: Turn) -> Result<Option<Rule>, AllocError>
        requires { (s : Setup) × (entries : List AnEntry) × IsReadTo s entries self.old × (length entries + 1 < 2 ^ 31) }
        ensures read { (s : Setup) (entries : List AnEntry) → IsReadTo s entries self.old → IfOk result (IsRead s entries (said.Collector turn) self.old self.new) }
        ensures broken { self.new.broken ≡ self.old.broken }
    {
        if let Some(rule) = self.run.turn(alloc, turn)? {
            return Ok(Some(rule));
        }
        self.steps += 1;
        Ok(None)
    }
}

/// No root is named yet.
fn no_roots(alloc: Global, threads: usize) -> Result<Vec<Items<u32>>, AllocError>
    ensures { IfOk result (λ roots. (s : Setup) → s.threads ≡ threads → AreNamed s [] roots.items) }
{
    let mut roots = Vec::new(alloc);
    for _thread in 0..threads {
        roots.push(Items::new(alloc))?;
    }
    Ok(roots)
}

/// The roots that a thread has named.
fn roots_at(roots: &Vec<Items<u32>>, thread: usize) -> Option<&Items<u32>>
    ensures { option_copied result ≡ slice_get roots.now.items thread }
{
    roots.get(thread)
}

/// A root of a thread's next answer.
fn name_root(roots: &mut Vec<Items<u32>>, thread: u32, cell: u32) -> Result<(), AllocError>
    ensures { OnOk result (roots.new.items ≡ with_root roots.old.items thread cell) }
{
    let index = thread as usize;
    if index < roots.len() {
        roots[index].push(cell)?;
    }
    Ok(())
}

/// A thread that has answered has named its roots.
fn forget_roots(roots: &mut Vec<Items<u32>>, thread: usize, step: ThreadStep)
    requires { thread < length roots.old.items }
    ensures { roots.new.items ≡ with_step roots.old.items thread step }
{
    if let ThreadStep::StoreStage(_stage) = step {
        roots[thread].clear();
    }
}

/// What is told of the bytes of a record of a heap that is set up so. What is left after its last whole entry does not count.
pub fn conform(alloc: Global, plan: &Plan<'_>, bytes: &[u8]) -> Result<Verdict, AllocError>
    requires setup { IsSetup plan.now }
    requires threads { plan.now.threads < 2 ^ 32 }
    requires globals { length plan.now.globals < 2 ^ 32 }
    requires words { All (λ words. length words < 2 ^ 32) plan.now.layouts }
    requires long { length bytes.now ≤ 2 ^ 30 }
    ensures { IfOk result (IsVerdict plan.now (entries_of bytes.now)) }
{
    let mut check = RecordCheck::new(alloc, plan)?;
    for number in 0..bytes.len() / ENTRY_BYTES {
        check.read(alloc, Entry::of(&bytes[number * ENTRY_BYTES..]))?;
    }
    Ok(check.verdict())
}
