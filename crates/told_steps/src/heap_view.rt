//! The words of the heap, the colours and the stages, as the steps of a log leave them, and what each step does.
use crate::events::Event;
use crate::shade::{Shade, claimed_at, cycle_at, marked_at};
use colours::{DONE, Turn};
use items::Items;
use layout::Program;
use moves::{Move, WordValue};
use pools::{Layouts, Pools, WordKind};
use program_runner::values_at_start;
use std::alloc::{AllocError, Global};
use step_log::LogStep;
use stepping::Happening;
use trace_text::Setup;

/// What is known of a thread.
#[derive(Clone, Copy)]
struct ThreadView {
    /// The stage that it stored last.
    stage: u64,
    /// Whether it is marking its roots.
    is_answering: bool,
}

/// The heap between two steps of a log.
#[derive(Drop)]
pub struct HeapView<'a> {
    pools: &'a Pools,
    layouts: &'a Layouts,
    globals: &'a [WordKind],
    /// Where the words of each cell begin.
    firsts: Items<usize>,
    words: Items<u64>,
    colours: Items<u64>,
    threads: Items<ThreadView>,
    posted: u64,
    /// How many looks of a pass of the trace met no grey cell, from the first cell on; none after one that did.
    clean_looks: Option<u32>,
    is_sweeping: bool,
}

/// Adds this number of words that are 0.
fn add_words(words: &mut Items<u64>, count: usize) -> Result<(), AllocError> {
    for _word in 0..count {
        words.push(0)?;
    }
    Ok(())
}

/// This number of cells, all free but that of the globals.
fn colours_at_start(alloc: Global, cells: u32) -> Result<Items<u64>, AllocError> {
    let mut colours = Items::new(alloc);
    colours.push(1)?;
    for _cell in 1..cells {
        colours.push(0)?;
    }
    Ok(colours)
}

/// This number of threads before their first steps.
fn threads_at_start(alloc: Global, count: usize) -> Result<Items<ThreadView>, AllocError> {
    let mut threads = Items::new(alloc);
    for _thread in 0..count {
        threads.push(ThreadView {
            stage: 0,
            is_answering: false,
        })?;
    }
    Ok(threads)
}

/// What the words of the globals hold at the start.
fn globals_at_start(alloc: Global, program: &Program) -> Result<Items<u64>, AllocError> {
    let values = values_at_start(alloc, program.module())?;
    Ok(Items::from_vec(values))
}

/// A local step, which may take a number from outside.
fn worked(from_outside: Option<u64>) -> Event {
    match from_outside {
        Some(value) => Event::FromOutside(value),
        None => Event::Local,
    }
}

impl<'a> HeapView<'a> {
    /// The heap before the first step.
    pub fn new(alloc: Global, program: &'a Program, setup: &'a Setup) -> Result<Self, AllocError> {
        let mut view = HeapView {
            pools: &setup.pools,
            layouts: program.layouts(),
            globals: program.globals(),
            firsts: Items::new(alloc),
            words: globals_at_start(alloc, program)?,
            colours: colours_at_start(alloc, setup.pools.cells())?,
            threads: threads_at_start(alloc, setup.starts.len())?,
            posted: 0,
            clean_looks: None,
            is_sweeping: false,
        };
        view.add_cells()?;
        Ok(view)
    }

    /// The words of all cells after those of the globals.
    fn add_cells(&mut self) -> Result<(), AllocError> {
        let (pools, layouts) = (self.pools, self.layouts);
        self.firsts.push(0)?;
        for cell in 1..pools.cells() {
            self.firsts.push(self.words.len())?;
            let count = layouts.words(pools.pool_of(cell)).len();
            add_words(&mut self.words, count)?;
        }
        Ok(())
    }

    /// How many cells there are, that of the globals among them.
    pub fn cells(&self) -> u32 {
        self.pools.cells()
    }

    /// The kinds of the words of a cell.
    pub fn kinds(&self, cell: u64) -> &[WordKind] {
        if cell == 0 {
            return self.globals;
        }
        if cell < u64::from(self.pools.cells()) {
            return self.layouts.words(self.pools.pool_of(cell as u32));
        }
        &[]
    }

    /// Whether a word holds references.
    pub fn is_reference(&self, cell: u64, word: u32) -> bool {
        matches!(
            self.kinds(cell).get(word as usize),
            Some(WordKind::Reference(_))
        )
    }

    fn place(&self, cell: u64, word: u32) -> usize {
        match self.firsts.get(cell as usize) {
            Some(first) => first.saturating_add(word as usize),
            None => usize::MAX,
        }
    }

    /// What a word holds.
    pub fn word(&self, cell: u64, word: u32) -> u64 {
        self.words.get(self.place(cell, word)).copied().unwrap_or(0)
    }

    fn put_word(&mut self, cell: u64, word: u32, value: u64) {
        let at = self.place(cell, word);
        if at < self.words.len() {
            self.words.set(at, value);
        }
    }

    fn colour(&self, cell: u64) -> u64 {
        self.colours.get(cell as usize).copied().unwrap_or(0)
    }

    fn put_colour(&mut self, cell: u64, colour: u64) {
        if (cell as usize) < self.colours.len() {
            self.colours.set(cell as usize, colour);
        }
    }

    /// The colour of a cell in the collector's cycle.
    pub fn shade(&self, cell: u64) -> Shade {
        Shade::of(self.colour(cell), cycle_at(self.posted))
    }

    fn thread(&self, number: u32) -> ThreadView {
        self.threads
            .get(number as usize)
            .copied()
            .unwrap_or(ThreadView {
                stage: 0,
                is_answering: false,
            })
    }

    /// The stage that the collector posted last; of a thread the one that it stored last, and none where it has ended.
    pub fn stage(&self, thread: Option<u32>) -> Option<u64> {
        let Some(number) = thread else {
            return Some(self.posted);
        };
        let stage = self.thread(number).stage;
        if stage == DONE { None } else { Some(stage) }
    }

    fn put_thread(&mut self, number: u32, view: ThreadView) {
        if (number as usize) < self.threads.len() {
            self.threads.set(number as usize, view);
        }
    }

    /// The next step of the log: what it does.
    pub fn step(&mut self, step: &LogStep) -> Event {
        match &step.happening {
            None => Event::Nothing,
            Some(Happening::Thread(_, Move::Works)) => worked(step.from_outside),
            Some(Happening::Thread(number, made)) => self.moved(*number, made),
            Some(Happening::Collector(turn)) => self.turned(turn),
        }
    }

    /// A store, with the barrier or without it: what the word held before.
    fn stored(&mut self, base: &WordValue, word: u32, value: &WordValue) -> u64 {
        let before = self.word(base.cell, word);
        self.put_word(base.cell, word, value.cell);
        before
    }

    /// A thread's mark: the colour before it.
    fn marked(&mut self, number: u32, cell: u64) -> Shade {
        let before = self.shade(cell);
        let raised = self.colour(cell).max(marked_at(self.thread(number).stage));
        self.put_colour(cell, raised);
        before
    }

    /// The thread has this stage as its own.
    fn answered(&mut self, number: u32, stage: u64) {
        self.put_thread(
            number,
            ThreadView {
                stage,
                is_answering: false,
            },
        );
    }

    fn moved(&mut self, number: u32, made: &Move) -> Event {
        match made {
            Move::GoesWrong => Event::Wrong,
            Move::ReadsWord { base, word, value } => Event::Read {
                cell: base.cell,
                word: *word,
                value: value.cell,
            },
            Move::ReadsOldValue { base, word, value } => Event::ReadOld {
                cell: base.cell,
                word: *word,
                value: value.cell,
            },
            Move::StoresPlain { base, word, value } => Event::Store {
                cell: base.cell,
                word: *word,
                value: value.cell,
                before: self.stored(base, *word, value),
            },
            Move::StoresAfterBarrier { base, word, value } => Event::StoreLast {
                cell: base.cell,
                word: *word,
                value: value.cell,
                before: self.stored(base, *word, value),
            },
            Move::Marks(found) => self.marking(number, found.cell),
            Move::Claims { claimed, won } => self.claiming(number, claimed.cell, *won),
            _ => self.handshaking(number, made),
        }
    }

    fn marking(&mut self, number: u32, cell: u64) -> Event {
        let before = self.marked(number, cell);
        if self.thread(number).is_answering {
            Event::MarkRoot { cell, before }
        } else {
            Event::Mark { cell, before }
        }
    }

    fn claiming(&mut self, number: u32, cell: u64, won: bool) -> Event {
        if !won {
            return Event::Taken { cell };
        }
        self.put_colour(cell, claimed_at(self.thread(number).stage));
        Event::Claim {
            cell,
            after: self.shade(cell),
        }
    }

    /// The steps of a thread on stages.
    fn handshaking(&mut self, number: u32, made: &Move) -> Event {
        match made {
            Move::ReadsPosted(stage) => self.polling(number, *stage),
            Move::Answers(stage) => {
                self.answered(number, *stage);
                Event::Answer(*stage)
            }
            Move::Ends => {
                self.answered(number, DONE);
                Event::End
            }
            Move::ReadsPostedFirst(stage) => Event::Arrive(*stage),
            Move::EntersStage(stage) => {
                self.answered(number, *stage);
                Event::Enter(*stage)
            }
            Move::ReadsPostedAgain(stage) => Event::LookAgain(*stage),
            _ => Event::Local,
        }
    }

    fn polling(&mut self, number: u32, posted: u64) -> Event {
        let own = self.thread(number).stage;
        if own == posted {
            return Event::Poll;
        }
        self.put_thread(
            number,
            ThreadView {
                stage: own,
                is_answering: true,
            },
        );
        Event::SeePosted(posted)
    }

    fn turned(&mut self, turn: &Turn) -> Event {
        match turn {
            Turn::PostStage(stage) => self.posting(*stage),
            Turn::ReadStage(number, stage) => {
                if *stage == DONE {
                    Event::Ended(*number)
                } else if *stage == self.posted {
                    Event::Answered(*number)
                } else {
                    Event::Wait(*number)
                }
            }
            Turn::MarkFound(cell, found) => self.found(u64::from(*cell), *found),
            Turn::ReadColour(cell, found) => self.looking(u64::from(*cell), *found),
            Turn::ScanWord(cell, word, value) => Event::Scan {
                cell: u64::from(*cell),
                word: *word,
                value: *value,
            },
            Turn::Blacken(cell) => self.blackening(u64::from(*cell)),
            Turn::ClearWord(cell, word) => {
                self.put_word(u64::from(*cell), *word, 0);
                Event::Clear {
                    cell: u64::from(*cell),
                    word: *word,
                }
            }
            Turn::Free(cell) => {
                self.put_colour(u64::from(*cell), 0);
                Event::Free {
                    cell: u64::from(*cell),
                }
            }
        }
    }

    fn posting(&mut self, stage: u64) -> Event {
        self.posted = stage;
        self.is_sweeping = false;
        self.clean_looks = None;
        Event::Post(stage)
    }

    fn grey(&self) -> u64 {
        cycle_at(self.posted).saturating_mul(2)
    }

    fn found(&mut self, cell: u64, found: u64) -> Event {
        let before = self.shade(cell);
        self.put_colour(cell, found.max(self.grey()));
        if cell == 0 {
            Event::MarkGlobals
        } else {
            Event::MarkFound { cell, before }
        }
    }

    fn blackening(&mut self, cell: u64) -> Event {
        self.put_colour(cell, self.grey().saturating_add(1));
        Event::Blacken { cell }
    }

    /// A look of the trace, or of the sweep, which begins after a pass from the first cell to the last that met no grey one.
    fn looking(&mut self, cell: u64, found: u64) -> Event {
        let shade = Shade::of(found, cycle_at(self.posted));
        if self.is_sweeping {
            return Event::Sweep { cell, shade };
        }
        let before = if cell == 0 { Some(0) } else { self.clean_looks };
        self.clean_looks = match (shade, before) {
            (Shade::Grey, _) | (_, None) => None,
            (_, Some(looks)) => Some(looks.saturating_add(1)),
        };
        self.is_sweeping = self.clean_looks == Some(self.pools.cells());
        Event::Look { cell, shade }
    }
}
