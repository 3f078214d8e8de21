ghost use Rattle.std.specs.Prelude.{◌≡◌, ℕ, List, [], ◌∷◌, ◌+◌, ◌<◌, ◌≤◌, ◌^◌, ◌↔◌, length, nat_lt, if◌then◌else◌, IsTrue, IsSome, IsNone, IfSome, IfNone, Some, None, slice_get, All};
ghost use Rattle.pools.specs.Heap.{Setup, cells, words_of_cell};
ghost use Rattle.pools.specs.Layouts.{is_reference_kind};
ghost use Rattle.colours.specs.Collector.{looked, in_turn, wait_from, pass_from, sweep_from};
ghost use Rattle.colours.specs.Steps as steps;
ghost use Rattle.trace_sweep.specs.Turns.{is_at_limit, next_reference, next_cell, pass_after_look, list_after, kept_list, afterwards};
ghost use Rattle.trace_sweep.specs.Collecting.{plan, in_order, plan_of, begun, ask_of, turn_of, posted_by, moved, FitsNext, NamesCells, stored_by};
ghost use Rattle.trace_sweep.specs.Stands.{StandsAfter, IsStepOn, ExtendsLogs, ExtendsRuns};
ghost use Rattle.trace_sweep.specs.Cycles.{swept, collector_after, LeadsOn, HasSwept};
ghost use Rattle.colours.specs.Runs.{Event, turns_of, word_after};
ghost use Rattle.colours.specs.declared.place.Place.{Place};
ghost use Rattle.trace_sweep.specs.Words.{reference_in};
ghost use Rattle.colours.specs.declared.turn.Turn.{Turn};
ghost use Rattle.trace_sweep.specs.Positions.{pass_of, collection_of, hand_of, IsPlacedAt};
ghost use Rattle.trace_sweep.specs.Below.{AreBelow};
ghost use Rattle.colours.specs.Colours.{cycle_of, grey};

use crate::motion::Motion;
use crate::position::{CyclePosition, Pass};
use crate::shades::Shades;
use crate::words::Words;
use colours::{Ask, Place, Turn, cycle_of, mark_value};
use handshake::has_answered;
use pools::{Layouts, Pools, WordKind};
use std::marker::Model;

/// A cycle with this number is never begun.
const CYCLE_LIMIT: u64 = 1 << 60;

/// The collector of a heap, between two of its steps. It borrows the pools, and no call takes memory.
#[derive(Drop)]
pub struct Collector<'a> {
    pools: &'a Pools,
    layouts: &'a Layouts,
    globals: &'a [WordKind],
    threads: usize,
    cells: u32,
    posted: u64,
    position: CyclePosition,
    /// The grey cells that are looked at out of turn.
    shades: Shades,
}

impl<'a> Model for Collector<'a> {
    ghost use Rattle.trace_sweep.specs.Collecting.{Collecting};

    ghost Value = { Collecting };

    ghost use Rattle.trace_sweep.specs.View.{view_of, IsPlaced};

    ghost view = { view_of };

    ghost invariant = { IsPlaced };
}

impl<'a> Collector<'a> {
    /// The collector before its first step, for a heap with these globals and this number of threads.
    pub fn new(
        pools: &'a Pools,
        layouts: &'a Layouts,
        globals: &'a [WordKind],
        threads: usize,
    ) -> Self
        requires globals { length globals.now < 2 ^ 32 }
        requires words { All (λ words. length words < 2 ^ 32) layouts.now }
        ensures begun { result ≡ begun (plan threads layouts.now pools.now globals.now) }

        // It is after the empty log of each heap with this plan.
        ensures stands { (s : Setup) → plan_of s ≡ result.heap → StandsAfter s [] result }
    {
        Collector {
            pools,
            layouts,
            globals,
            threads,
            cells: pools.cells(),
            posted: 0,
            position: CyclePosition::Posting,
            shades: Shades::new(),
        }
    }

    /// The operation of the next step; None where no further cycle may begin.
    pub fn ask(&self) -> Option<Ask>
        ensures { result ≡ ask_of self.now }
    {
        if self.is_at_limit() {
            return None;
        }
        Some(operation_of(self.turn(0), cycle_of(self.posted)))
    }

    /// Takes what the word of the step held, and returns the step.
    pub fn took(&mut self, answer: u64) -> Turn
        requires asked { IsSome (ask_of self.old) }
        requires fits { FitsNext self.old answer }
        ensures turn { result ≡ turn_of self.old answer }
        ensures moved { self.new ≡ moved self.old answer }

        // The step is the next one of the order after each log that led here.
        ensures collects { ExtendsLogs self.old result self.new }

        // The collector of a log is that of the log with the step then.
        ensures leads { LeadsOn self.old result self.new }
    {
        self.step(answer)
    }

    /// Makes one step on these words: looks at its word, and returns the step and what the caller has to store.
    /// None at the limit of the cycles alone, and then nothing changes.
    pub fn next<W: Words>(&mut self, words: &W) -> Option<Motion>
        requires { NamesCells self.old.heap (W.word_at words.now) }
        ensures limit { IsNone result ↔ IsTrue (is_at_limit self.old.posted self.old.at) }
        ensures unmoved { IfNone result (self.new ≡ self.old) }
        ensures step { IfSome result (λ motion. IsStepOn (W.word_at words.now) self.old motion self.new) }

        // The step is the next one of the order after each log that led here.
        ensures collects { IfSome result (λ motion. ExtendsLogs self.old motion.turn self.new) }

        // On the words of a run it is the run's next step, and gives the words after it.
        ensures extends { IfSome result (λ motion. ExtendsRuns self.old (W.word_at words.now) motion) }
    {
        let ask = self.ask()?;
        let place = place_of(ask);
        let found = words.look(place);
        let turn = self.took(found);
        Some(Motion {
            turn,
            place,
            stored: stored_by(ask, found),
        })
    }

    /// How many sweeps have looked at their last cell; without cells, how many traces have ended.
    pub fn cycles(&self) -> u64
        ensures count { result ≡ swept self.now.heap self.now.posted self.now.at }

        // After a log of which it is the collector that many sweeps are over.
        ensures swept { (s : Setup) (log : List Turn) → StandsAfter s log self.now → self.now ≡ collector_after s log → HasSwept s log result }
    {
        let cycle = cycle_of(self.posted);
        match self.position {
            CyclePosition::Posting => self.posted / 3,
            CyclePosition::Clearing(cell, _) if cell + 1 == self.cells => cycle,
            _ => cycle.saturating_sub(1),
        }
    }

    /// The next step in turn, whose word held this number.
    fn step(&mut self, answer: u64) -> Turn
        requires asked { IsSome (ask_of self.old) }
        requires fits { FitsNext self.old answer }
        ensures turn { result ≡ turn_of self.old answer }
        ensures moved { self.new ≡ moved self.old answer }
    {
        let turn = self.turn(answer);
        let position = self.afterwards(answer);
        let grey = mark_value(cycle_of(self.posted));
        keep_shades(&mut self.shades, self.position, grey, answer, position);
        if let Turn::PostStage(stage) = turn {
            self.posted = stage;
        }
        self.position = position;
        turn
    }

    /// Whether the next cycle is past the limit.
    fn is_at_limit(&self) -> bool
        ensures { result ≡ is_at_limit self.now.posted self.now.at }
    {
        matches!(self.position, CyclePosition::Posting) && cycle_of(self.posted + 1) >= CYCLE_LIMIT
    }

    /// The next step in turn, where its word holds this number.
    fn turn(&self, found: u64) -> Turn
        ensures { result ≡ turn_of self.now found }
    {
        match self.position {
            CyclePosition::Posting => Turn::PostStage(self.posted + 1),
            CyclePosition::Waiting(thread) => Turn::ReadStage(thread, found),
            CyclePosition::MarkingGlobals => Turn::MarkFound(0, found),
            CyclePosition::Passing(pass) => Turn::ReadColour(self.next_cell(pass), found),
            CyclePosition::Scanning(cell, word, _) => match self.reference_from(cell, word) {
                Some(word) => Turn::ScanWord(cell, word, found),
                None => Turn::Blacken(cell),
            },
            CyclePosition::Marking(value, _, _, _) => Turn::MarkFound(value, found),
            CyclePosition::Sweeping(cell) => Turn::ReadColour(cell, found),
            CyclePosition::Clearing(cell, word) if (word as usize) < self.words(cell).len() =>
                Turn::ClearWord(cell, word),
            CyclePosition::Clearing(cell, _) => Turn::Free(cell),
        }
    }

    /// Where the collector is after that step.
    fn afterwards(&self, found: u64) -> CyclePosition
        requires asked { IsSome (ask_of self.now) }
        requires fits { FitsNext self.now found }
        ensures place { collection_of result ≡ in_order (afterwards self.now.heap self.now.posted self.now.listed self.now.at found) }
        ensures placed { IsPlacedAt self.now.heap result }
        ensures hand { hand_of result < cells self.now.heap }
    {
        let _threads = self.threads;
        match self.position {
            CyclePosition::Posting => self.wait_from(self.posted + 1, 0),
            CyclePosition::Waiting(thread) if has_answered(self.posted, found) => self.wait_from(
                self.posted,
                thread + 1,
            ),
            CyclePosition::Waiting(thread) => CyclePosition::Waiting(thread),
            CyclePosition::MarkingGlobals => CyclePosition::Posting,
            CyclePosition::Passing(pass) => self.after_look(pass, found),
            CyclePosition::Scanning(cell, word, pass) => match self.reference_from(cell, word) {
                Some(word) if found == 0 => CyclePosition::Scanning(cell, word + 1, pass),
                Some(word) => CyclePosition::Marking(found as u32, cell, word + 1, pass),
                None => self.pass_from(pass),
            },
            CyclePosition::Marking(_, cell, word, pass) => CyclePosition::Scanning(
                cell, word, pass,
            ),
            CyclePosition::Sweeping(cell)
                if 0 < found && found < mark_value(cycle_of(self.posted)) =>
                CyclePosition::Clearing(cell, 0),
            CyclePosition::Sweeping(cell) => self.sweep_from(cell + 1),
            CyclePosition::Clearing(cell, word) if (word as usize) < self.words(cell).len() =>
                CyclePosition::Clearing(cell, word + 1),
            CyclePosition::Clearing(cell, _) => self.sweep_from(cell + 1),
        }
    }

    /// The cell that a pass looks at: its first cell in turn; after that the newest of the list, or where there is none the next in turn.
    fn next_cell(&self, pass: Pass) -> u32
        requires { pass.next < cells self.now.heap }
        ensures cell { result ≡ next_cell pass.next self.now.listed }
        ensures is_cell { result < cells self.now.heap }
    {
        match self.shades.newest() {
            Some(cell) if pass.next > 0 => cell,
            _ => pass.next,
        }
    }

    /// After a look of a pass: a grey cell is scanned.
    fn after_look(&self, pass: Pass, colour: u64) -> CyclePosition
        requires { pass.next < cells self.now.heap }
        ensures place { collection_of result
            ≡ in_order (looked self.now.heap self.now.posted (pass_after_look (pass_of pass) pass.next self.now.listed) (next_cell pass.next self.now.listed) colour) }
        ensures placed { IsPlacedAt self.now.heap result }
        ensures hand { hand_of result ≡ 0 }
    {
        let grey = mark_value(cycle_of(self.posted));
        let cell = self.next_cell(pass);
        let next = self.next_after_look(pass);
        if colour == grey {
            return CyclePosition::Scanning(
                cell,
                0,
                Pass {
                    next,
                    met_grey: true,
                },
            );
        }
        self.pass_from(Pass {
            next,
            met_grey: pass.met_grey,
        })
    }

    /// The next cell in turn after a look of a pass.
    fn next_after_look(&self, pass: Pass) -> u32
        requires { pass.next < cells self.now.heap }
        ensures { result ≡ (pass_after_look (pass_of pass) pass.next self.now.listed).next }
    {
        match self.shades.newest() {
            Some(_) if pass.next > 0 => pass.next,
            _ => pass.next + 1,
        }
    }

    /// The next thread of a wait, or what comes after the last one's answer.
    fn wait_from(&self, stage: u64, thread: usize) -> CyclePosition
        requires { thread ≤ self.now.heap.threads }
        ensures place { collection_of result ≡ in_order (wait_from self.now.heap stage thread) }
        ensures placed { IsPlacedAt self.now.heap result }
        ensures hand { hand_of result ≡ 0 }
    {
        if thread < self.threads {
            return CyclePosition::Waiting(thread);
        }
        match stage % 3 {
            1 => CyclePosition::Posting,
            2 => CyclePosition::MarkingGlobals,
            _ => CyclePosition::Passing(FIRST_PASS),
        }
    }

    /// The next cell of a pass, the next pass where a grey cell was met, or the sweep.
    fn pass_from(&self, pass: Pass) -> CyclePosition
        requires { pass.next ≤ cells self.now.heap }
        ensures place { collection_of result ≡ in_order (pass_from self.now.heap (pass_of pass)) }
        ensures placed { IsPlacedAt self.now.heap result }
        ensures hand { hand_of result ≡ 0 }
    {
        if pass.next < self.cells {
            return CyclePosition::Passing(pass);
        }
        if pass.met_grey {
            return CyclePosition::Passing(FIRST_PASS);
        }
        self.sweep_from(1)
    }

    /// The next cell of the sweep, or the next stage.
    fn sweep_from(&self, cell: u32) -> CyclePosition
        ensures place { collection_of result ≡ in_order (sweep_from self.now.heap cell) }
        ensures placed { IsPlacedAt self.now.heap result }
        ensures hand { hand_of result ≡ 0 }
    {
        if cell < self.cells {
            return CyclePosition::Sweeping(cell);
        }
        CyclePosition::Posting
    }

    /// The place of the cell's next reference word from this one on; None where there is none.
    fn reference_from(&self, cell: u32, word: u32) -> Option<u32>
        requires is_cell { cell < cells self.now.heap }
        requires within { word ≤ length (words_of_cell self.now.heap cell) }
        ensures { result ≡ next_reference self.now.heap cell word }
    {
        let _invariant = &self.pools;
        first_reference(self.words(cell), word)
    }

    /// The kinds of a cell's words.
    fn words(&self, cell: u32) -> &[WordKind]
        requires { cell < cells self.now.heap }
        ensures { result.now ≡ words_of_cell self.now.heap cell }
    {
        if cell == 0 {
            return self.globals;
        }
        self.layouts.words(self.pools.pool_of(cell))
    }
}

/// The list after a step whose word held this number: a cell that was looked at is taken off, one that was made grey is put on.
fn keep_shades(
    shades: &mut Shades,
    at: CyclePosition,
    grey_value: u64,
    found: u64,
    after: CyclePosition,
)
    ensures list { (stage : ℕ) → grey_value ≡ grey (cycle_of stage)
        → shades.new ≡ kept_list (collection_of after) (list_after stage shades.old (collection_of at) found) }
    ensures cells { (count : ℕ) → hand_of at < count → AreBelow count shades.old → AreBelow count shades.new }
{
    match at {
        CyclePosition::Passing(pass) if pass.next > 0 => shades.take_off(),
        CyclePosition::Marking(value, _, _, _) if found < grey_value => shades.add(value),
        _ => {}
    }
    if !is_in_trace(after) {
        shades.clear();
    }
}

/// Whether the collector traces there.
fn is_in_trace(position: CyclePosition) -> bool
    ensures { (listed : List ℕ) → kept_list (collection_of position) listed ≡ (if result then listed else []) }
{
    matches!(
        position,
        CyclePosition::Passing(_)
            | CyclePosition::Scanning(_, _, _)
            | CyclePosition::Marking(_, _, _, _)
    )
}

const FIRST_PASS: Pass = Pass {
    next: 0,
    met_grey: false,
};

/// The word of an operation.
fn place_of(ask: Ask) -> Place
    ensures { result ≡ steps.place_of ask }
{
    match ask {
        Ask::Load(place)
        | Ask::Store(place, _)
        | Ask::FetchMax(place, _)
        | Ask::CompareExchange(place, _, _) => place,
    }
}

/// What an operation stores in its word, which held this number.
fn stored_by(ask: Ask, found: u64) -> Option<u64>
    ensures { result ≡ stored_by ask found }
{
    match ask {
        Ask::Load(_) => None,
        Ask::Store(_, value) => Some(value),
        Ask::FetchMax(_, value) => Some(found.max(value)),
        Ask::CompareExchange(_, old, new) => Some(if found == old { new } else { found }),
    }
}

/// The operation of a step in this cycle.
fn operation_of(turn: Turn, cycle: u64) -> Ask
    requires { cycle < 2 ^ 62 }
    ensures { result ≡ steps.turn_of cycle turn }
{
    match turn {
        Turn::PostStage(stage) => Ask::Store(Place::Posted, stage),
        Turn::ReadStage(thread, _) => Ask::Load(Place::Stage(thread)),
        Turn::MarkFound(cell, _) => Ask::FetchMax(Place::Colour(cell), mark_value(cycle)),
        Turn::ReadColour(cell, _) => Ask::Load(Place::Colour(cell)),
        Turn::ScanWord(cell, word, _) => Ask::Load(Place::Word(cell, word)),
        Turn::Blacken(cell) => Ask::Store(Place::Colour(cell), 2 * cycle + 1),
        Turn::ClearWord(cell, word) => Ask::Store(Place::Word(cell, word), 0),
        Turn::Free(cell) => Ask::Store(Place::Colour(cell), 0),
    }
}

/// The place of the first reference from this one on; None where there is none.
fn first_reference(words: &[WordKind], from: u32) -> Option<u32>
    requires within { from ≤ length words.now }
    requires numbered { length words.now < 2 ^ 32 }
    ensures { result ≡ reference_in words.now from }
{
    let mut at = from;
    while (at as usize) < words.len() {
        if is_reference(words, at) {
            return Some(at);
        }
        at += 1;
    }
    None
}

/// Whether the word at this place is there, and holds references.
fn is_reference(words: &[WordKind], at: u32) -> bool
    ensures { result ≡ is_reference_kind (slice_get words.now at) }
{
    matches!(words.get(at as usize), Some(WordKind::Reference(_)))
}
