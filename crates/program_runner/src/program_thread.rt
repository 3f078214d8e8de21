ghost use Rattle.std.specs.Prelude.{◌≡◌, ◌<◌, slice_get};
ghost use Rattle.pools.specs.Heap.{Setup as Heap, cells, kind_of, words_of_cell};
ghost use Rattle.machine.specs.Endings.{ending};
ghost use Rattle.machine.specs.Machine.{action};
ghost use Rattle.moves.specs.Calls.{answer_in};
ghost use Rattle.moves.specs.Kinds.{MayAnswer};
ghost use Rattle.program_safety.specs.Threads.{asks, given_as};
ghost use Rattle.program_runner.specs.Kinds.{FitsThread};
ghost use Rattle.program_runner.specs.Heaps.{heap_of};

use crate::answers::{asked_as, next_value, null_or_cell, reference_in, values_after, word_read};
use crate::newest::{CHANGED, add_newest, compared, kept};
use layout::Program;
use machine::{Action, Answer as ThreadAnswer, Ending, Thread, wrapped};
use moves::{Answer, Call, RootsAfter, Runner, WordValue};
use pools::WordKind;
use runs::Machine;
use std::alloc::{AllocError, Global};
use std::marker::Model;
use trace_text::Setup;

/// A thread of a program, over the heap of a setup.
#[derive(Drop)]
pub struct ProgramThread<'a> {
    alloc: Global,
    program: &'a Program,
    setup: &'a Setup,
    thread: Thread<'a>,
    /// The numbers from outside that it did not get yet.
    values: &'a [u64],
    /// What the thread asks for. Its instruction is looked at once, when the thread reaches it.
    asked: Action,
    /// What its newest frames' roots were before the last answer; here, so that an answer seldom takes memory for it.
    before: Vec<WordValue>,
}

impl<'a> Model for ProgramThread<'a> {
    ghost use Rattle.program_safety.specs.Threads.{ProgramThread};

    ghost Value = { ProgramThread };

    ghost use Rattle.program_runner.specs.View.{thread_seen, IsOfProgram};

    ghost view = { thread_seen };

    ghost invariant = { IsOfProgram };
}

impl<'a> Machine for ProgramThread<'a> {
    ghost use Rattle.program_safety.specs.Threads.{asks, goes_on, names};

    ghost action = { asks };

    ghost after_answer = { goes_on };

    ghost roots = { names };
}

impl<'a> ProgramThread<'a> {
    /// A thread over the heap of a setup, with these numbers from outside.
    pub fn new(
        alloc: Global,
        program: &'a Program,
        setup: &'a Setup,
        thread: Thread<'a>,
        values: &'a [u64],
    ) -> Self
        requires { thread.program ≡ program.now }
        ensures { result ≡ record { heap = heap_of program.now setup.now; program = program.now; state = thread.entry.state; values = values.now } }
    {
        let asked = thread.next();
        ProgramThread {
            alloc,
            program,
            setup,
            thread,
            values,
            asked,
            before: Vec::new(alloc),
        }
    }

    /// How the thread ends, where it asks to end.
    pub fn ending(&self) -> Ending
        ensures { result ≡ ending self.now.program self.now.state }
    {
        match self.asked {
            Action::End | Action::Wrong => self.thread.ending(),
            _ => Ending::Over,
        }
    }

    /// The thread itself.
    pub fn thread(&self) -> &Thread<'a>
        ensures program { result.now.program ≡ self.now.program }
        ensures state { result.now.state ≡ self.now.state }
    {
        &self.thread
    }

    /// What the words of a cell hold.
    fn words(&self, cell: u32) -> &[WordKind]
        requires { cell < cells self.now.heap }
        ensures { result.now ≡ words_of_cell self.now.heap cell }
    {
        if cell == 0 {
            return self.program.globals();
        }
        self.program.layouts().words(self.setup.pools.pool_of(cell))
    }

    /// What a word of a cell holds.
    #[tactic(auto, using(crate::proofs::Words::kind_is))]
    fn kind(&self, cell: u32, word: u32) -> Option<WordKind>
        requires { cell < cells self.now.heap }
        ensures { result ≡ kind_of self.now.heap cell word }
    {
        word_in(self.words(cell), word)
    }

    /// An answer to what the thread asked for, as an answer to the thread.
    fn given_as(&self, answer: Answer) -> ThreadAnswer
        requires { (s : Heap) × MayAnswer s (FitsThread s) asks self.now (answer_in answer) }
        ensures { result ≡ given_as self.now.heap self.now.values (action self.now.program self.now.state) (answer_in answer) }
    {
        match (self.asked, answer) {
            (Action::Foreign { bits }, _) => {
                ThreadAnswer::Number(wrapped(bits, next_value(self.values)))
            }
            (Action::Read { at, word }, Answer::Got(found)) => {
                word_read(self.kind(at.cell, word), found)
            }
            (Action::Alloc(_), Answer::Got(found)) => null_or_cell(found),
            (Action::Safepoint, Answer::Answered(Some(_))) => ThreadAnswer::Answered,
            _ => ThreadAnswer::Done,
        }
    }
}

impl<'a> Runner for ProgramThread<'a> {
    ghost use Rattle.program_runner.specs.Kinds.{FitsThread};
    ghost use Rattle.program_runner.specs.Keeps.{thread_keeps_kinds};
    ghost use Rattle.program_runner.specs.Newest.{newest, thread_adds_newest};

    ghost fits = { FitsThread };

    ghost newest = { newest };

    ghost keeps_kinds = { thread_keeps_kinds };

    ghost keeps_roots = { thread_adds_newest };

    fn call(&self) -> Call {
        asked_as(self.asked)
    }

    fn root_references(&self) -> Result<Vec<WordValue>, AllocError> {
        let values = self.thread.roots()?;
        values
            .iter()
            .map(|value| reference_in(*value))
            .collect(self.alloc)
    }

    fn newest_roots(&self) -> Result<Vec<WordValue>, AllocError> {
        let mut newest = Vec::new(self.alloc);
        add_newest(&self.thread, self.thread.frames().min(CHANGED), &mut newest)?;
        Ok(newest)
    }

    fn answer(&mut self, answer: Answer) -> Result<RootsAfter, AllocError> {
        let given = self.given_as(answer);
        let kept = kept(&self.thread, &self.asked);
        self.before.clear();
        add_newest(&self.thread, self.thread.frames() - kept, &mut self.before)?;
        self.thread.resume(given)?;
        self.values = values_after(&self.asked, self.values);
        self.asked = self.thread.next();
        Ok(compared(&self.thread, kept, self.before.as_slice()))
    }
}

/// The word with this number of a list, if there is one.
fn word_in(words: &[WordKind], word: u32) -> Option<WordKind>
    ensures { result ≡ slice_get words.now word }
{
    words.get(word as usize).copied()
}
