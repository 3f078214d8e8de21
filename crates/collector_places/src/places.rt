ghost use Rattle.std.specs.Prelude.{◌≡◌, ℕ, List, [], ◌∷◌, ◌++◌, ◌+◌, ◌-◌, ◌<◌, ◌≤◌, ◌^◌, ◌↔◌, length, slice_get, slice_index, replicate, IsTrue, IsFalse, IfOk, OnOk, OnErr, All};
ghost use Rattle.lemmas.specs.Lists.{IsIn};
ghost use Rattle.pools.specs.Heap.{Setup, cells, words_of_cell};
ghost use Rattle.pools.specs.Layouts.{is_reference_kind};
ghost use Rattle.colours.specs.declared.turn.Turn.{Turn as ATurn};
ghost use Rattle.colours.specs.Colours.{cycle_of};
ghost use Rattle.colours.specs.Collector.{Collection, Collects, reference_from};
ghost use Rattle.colours.specs.Steps.{place_of, turn_of};
ghost use Rattle.heap_rule.specs.Rule.{HasPlace};
ghost use Rattle.trace_sweep.specs.Words.{place_from};
ghost use Rattle.collector_places.specs.Counted.{counted, with_one_more};
ghost use Rattle.collector_places.specs.Spots.{IsPlaced};
ghost use Rattle.collector_places.specs.Nexts as nexts;
ghost use Rattle.collector_places.specs.Nexts.{cell_looked};
ghost use Rattle.collector_places.specs.Places.{Stands, NamesCell};

use crate::spot::{Pass, Spot};
use colours::{Turn, cycle_of, mark_value};
use handshake::has_answered;
use heap_rule::Plan;
use items::Items;
use pools::WordKind;
use std::alloc::{AllocError, Global};
use std::marker::Model;

/// A cycle with this number is never begun.
const CYCLE_LIMIT: u64 = 1 << 60;

/// Where the collector of a heap may be after its steps so far.
#[derive(Drop)]
pub struct CollectorPlaces<'a> {
    plan: &'a Plan<'a>,
    cells: u32,
    posted: u64,
    turns: u32,
    /// How often each cell was looked at since the last post.
    looks: Vec<u32>,
    /// How often a mark of the collector made each cell grey since the last post.
    shades: Vec<u32>,
    spots: Items<Spot>,
}

impl<'a> Model for CollectorPlaces<'a> {
    ghost use Rattle.collector_places.specs.Places.{Places};

    ghost Value = { Places };

    ghost use Rattle.collector_places.specs.View.{view_of, IsCounted};

    ghost view = { view_of };

    ghost invariant = { IsCounted };
}

impl<'a> CollectorPlaces<'a> {
    /// Where the collector may be before its first step. The tables take 8 bytes for each cell.
    pub fn new(alloc: Global, plan: &'a Plan<'a>) -> Result<Self, AllocError>
        requires globals { length plan.now.globals < 2 ^ 32 }
        requires words { All (λ words. length words < 2 ^ 32) plan.now.layouts }
        ensures { IfOk result (λ places. Stands plan.now [] places) }
    {
        let cells = plan.pools.cells();
        let mut spots = Items::new(alloc);
        spots.push(Spot::Posting)?;
        Ok(CollectorPlaces {
            plan,
            cells,
            posted: 0,
            turns: 0,
            looks: zeros(alloc, cells)?,
            shades: zeros(alloc, cells)?,
            spots,
        })
    }

    /// The stage that was posted last.
    pub fn posted(&self) -> u64
        ensures { result ≡ self.now.posted }
    {
        self.posted
    }

    /// The law of the words: a step that the order allows is one on a word of the heap.
    pub fn words_law(&self)
        ensures { (s : Setup) (log : List ATurn) (turn : ATurn) (c : Collection) (cycle : ℕ) → Stands s log self.now → Collects s (turn ∷ log) c → HasPlace s (place_of (turn_of cycle turn)) }
    {
        let _plan = self.plan;
    }

    /// The collector made this step, as far as the order of its steps allows it: then it is true. Otherwise nothing changes. So it
    /// is without memory.
    pub fn take(&mut self, alloc: Global, turn: Turn) -> Result<bool, AllocError>
        requires { (s : Setup) × (log : List ATurn) × Stands s log self.old × NamesCell s turn × (length log + 1 < 2 ^ 32) }
        ensures allowed { (s : Setup) (log : List ATurn) → Stands s log self.old → NamesCell s turn → IfOk result (λ taken. IsTrue taken ↔ ((c : Collection) × Collects s (turn ∷ log) c)) }
        ensures stands { (s : Setup) (log : List ATurn) → Stands s log self.old → NamesCell s turn → IfOk result (λ taken. IsTrue taken → Stands s (turn ∷ log) self.new) }
        ensures same { IfOk result (λ taken. IsFalse taken → self.new ≡ self.old) }
        ensures err { OnErr result (self.new ≡ self.old) }
    {
        let spots = self.spots_after(alloc, turn)?;
        if spots.is_empty() {
            return Ok(false);
        }
        self.go_on(turn, spots);
        Ok(true)
    }

    /// After the step the collector may be in these places.
    fn go_on(&mut self, turn: Turn, spots: Items<Spot>)
        requires few { self.old.turns + 1 < 2 ^ 32 }
        requires looks { (c : ℕ) → slice_index self.old.looks c ≤ self.old.turns }
        requires shades { (c : ℕ) → slice_index self.old.shades c ≤ self.old.turns }
        requires low { cycle_of self.old.posted < 2 ^ 60 }
        ensures { self.new ≡ record (counted turn self.old) { spots = spots } }
    {
        self.count(turn);
        self.spots = spots;
    }

    /// Where the collector may be after that step.
    fn spots_after(&self, alloc: Global, turn: Turn) -> Result<Items<Spot>, AllocError>
        requires placed { (spot : Spot) → IsIn spot self.now.spots → IsPlaced self.now.heap self.now.turns spot }
        requires low { cycle_of self.now.posted < 2 ^ 60 }
        requires few { self.now.turns + 1 < 2 ^ 32 }
        ensures { IfOk result (λ spots. spots ≡ nexts.spots_after self.now.heap self.now.posted (slice_index self.now.looks (cell_looked turn)) (slice_index self.now.shades (cell_looked turn)) turn self.now.spots) }
    {
        let mut spots = Items::new(alloc);
        for spot in self.spots.as_slice() {
            self.add_after(*spot, turn, &mut spots)?;
        }
        Ok(spots)
    }

    /// Adds where it may be after that step, from one place.
    fn add_after(&self, spot: Spot, turn: Turn, spots: &mut Items<Spot>) -> Result<(), AllocError>
        requires placed { IsPlaced self.now.heap self.now.turns spot }
        requires low { cycle_of self.now.posted < 2 ^ 60 }
        requires few { self.now.turns + 1 < 2 ^ 32 }
        ensures { OnOk result (spots.new ≡ spots.old ++ nexts.spots_from self.now.heap self.now.posted (slice_index self.now.looks (cell_looked turn)) (slice_index self.now.shades (cell_looked turn)) turn spot) }
    {
        if let Some(next) = self.after_turn(spot, turn) {
            spots.push(next)?;
        }
        if let Some(next) = self.after_look(spot, turn) {
            spots.push(next)?;
        }
        Ok(())
    }

    /// Counts the step.
    fn count(&mut self, turn: Turn)
        requires few { self.old.turns + 1 < 2 ^ 32 }
        requires looks { (c : ℕ) → slice_index self.old.looks c ≤ self.old.turns }
        requires shades { (c : ℕ) → slice_index self.old.shades c ≤ self.old.turns }
        requires low { cycle_of self.old.posted < 2 ^ 60 }
        ensures { self.new ≡ counted turn self.old }
    {
        self.turns += 1;
        match turn {
            Turn::PostStage(stage) => {
                self.posted = stage;
                clear(self.looks.as_mut_slice());
                clear(self.shades.as_mut_slice());
            }
            Turn::ReadColour(cell, _) => add_one(self.looks.as_mut_slice(), cell),
            Turn::MarkFound(cell, colour) if colour < mark_value(cycle_of(self.posted)) => add_one(
                self.shades.as_mut_slice(),
                cell,
            ),
            _ => {}
        }
    }

    /// Where it is after that step, from one place, if it is no look out of turn.
    fn after_turn(&self, spot: Spot, turn: Turn) -> Option<Spot>
        requires placed { IsPlaced self.now.heap self.now.turns spot }
        requires low { cycle_of self.now.posted < 2 ^ 60 }
        requires few { self.now.turns + 1 < 2 ^ 32 }
        ensures { result ≡ nexts.after_turn self.now.heap self.now.posted spot turn }
    {
        match spot {
            Spot::Posting => self.after_posting(turn),
            Spot::Waiting(thread) => self.after_waiting(thread, turn),
            Spot::ShadingGlobals => after_globals(turn),
            Spot::Passing(pass) => self.after_passing(pass, turn),
            Spot::Scanning(cell, word, pass) => self.after_scanning(cell, word, pass, turn),
            Spot::Shading(value, cell, word, pass) => after_shading(value, cell, word, pass, turn),
            Spot::Sweeping(cell) => self.after_sweeping(cell, turn),
            Spot::Clearing(cell, word) => self.after_clearing(cell, word, turn),
        }
    }

    fn after_posting(&self, turn: Turn) -> Option<Spot>
        requires { cycle_of self.now.posted < 2 ^ 60 }
        ensures { result ≡ nexts.after_turn self.now.heap self.now.posted Spot.Posting turn }
    {
        match turn {
            Turn::PostStage(to) if to == self.posted + 1 && cycle_of(to) < CYCLE_LIMIT => Some(
                self.wait_from(to, 0),
            ),
            _ => None,
        }
    }

    fn after_waiting(&self, thread: usize, turn: Turn) -> Option<Spot>
        requires { thread < self.now.heap.threads }
        ensures { result ≡ nexts.after_turn self.now.heap self.now.posted (Spot.Waiting thread) turn }
    {
        let plan = self.plan;
        let _threads = plan.threads;
        match turn {
            Turn::ReadStage(looked_at, found) if looked_at == thread => {
                if has_answered(self.posted, found) {
                    Some(self.wait_from(self.posted, thread + 1))
                } else {
                    Some(Spot::Waiting(thread))
                }
            }
            _ => None,
        }
    }

    fn after_passing(&self, pass: Pass, turn: Turn) -> Option<Spot>
        requires next { pass.next < cells self.now.heap }
        requires rounds { pass.rounds + 1 < 2 ^ 32 }
        requires low { cycle_of self.now.posted < 2 ^ 60 }
        ensures { result ≡ nexts.after_turn self.now.heap self.now.posted (Spot.Passing pass) turn }
    {
        let _cells = self.cells;
        match turn {
            Turn::ReadColour(cell, colour) if cell == pass.next => Some(self.looked(
                in_turn(pass),
                cell,
                colour,
            )),
            _ => None,
        }
    }

    fn after_scanning(&self, cell: u32, word: u32, pass: Pass, turn: Turn) -> Option<Spot>
        requires cell { cell < cells self.now.heap }
        requires rounds { pass.rounds + 1 < 2 ^ 32 }
        ensures { result ≡ nexts.after_turn self.now.heap self.now.posted (Spot.Scanning cell word pass) turn }
    {
        let words = self.words(cell).len();
        let reference = self.reference_from(cell, word);
        match turn {
            Turn::ScanWord(of, at, value)
                if of == cell && at == reference && (at as usize) < words => {
                if value == 0 {
                    Some(Spot::Scanning(cell, at + 1, pass))
                } else {
                    Some(Spot::Shading(value, cell, at + 1, pass))
                }
            }
            Turn::Blacken(of) if of == cell && words <= reference as usize => Some(self.pass_from(
                pass,
            )),
            _ => None,
        }
    }

    fn after_sweeping(&self, cell: u32, turn: Turn) -> Option<Spot>
        requires cell { cell < cells self.now.heap }
        requires low { cycle_of self.now.posted < 2 ^ 60 }
        ensures { result ≡ nexts.after_turn self.now.heap self.now.posted (Spot.Sweeping cell) turn }
    {
        match turn {
            Turn::ReadColour(looked_at, colour) if looked_at == cell => {
                if 0 < colour && colour < mark_value(cycle_of(self.posted)) {
                    Some(Spot::Clearing(cell, 0))
                } else {
                    Some(self.sweep_from(cell + 1))
                }
            }
            _ => None,
        }
    }

    fn after_clearing(&self, cell: u32, word: u32, turn: Turn) -> Option<Spot>
        requires { cell < cells self.now.heap }
        ensures { result ≡ nexts.after_turn self.now.heap self.now.posted (Spot.Clearing cell word) turn }
    {
        let _cells = self.cells;
        let words = self.words(cell).len();
        match turn {
            Turn::ClearWord(of, at) if of == cell && at == word && (at as usize) < words => Some(
                Spot::Clearing(cell, word + 1),
            ),
            Turn::Free(of) if of == cell && words <= word as usize => Some(self.sweep_from(
                cell + 1,
            )),
            _ => None,
        }
    }

    /// Where it is after a look out of turn, where the look in turn does not leave all that may follow.
    fn after_look(&self, spot: Spot, turn: Turn) -> Option<Spot>
        requires placed { IsPlaced self.now.heap self.now.turns spot }
        requires low { cycle_of self.now.posted < 2 ^ 60 }
        requires few { self.now.turns + 1 < 2 ^ 32 }
        ensures { result ≡ nexts.after_look self.now.heap self.now.posted (slice_index self.now.looks (cell_looked turn)) (slice_index self.now.shades (cell_looked turn)) spot turn }
    {
        match spot {
            Spot::Passing(pass) => match turn {
                Turn::ReadColour(cell, colour)
                    if pass.next > 0
                        && cell < self.cells
                        && self.is_shaded(pass, cell)
                        && !(cell == pass.next && pass.next + 1 < self.cells) => Some(self.looked(
                    pass, cell, colour,
                )),
                _ => None,
            },
            _ => None,
        }
    }

    /// Whether a pass may look at a cell out of turn.
    fn is_shaded(&self, pass: Pass, cell: u32) -> bool
        ensures { result ≡ nexts.is_shaded (slice_index self.now.looks cell) (slice_index self.now.shades cell) pass cell }
    {
        let in_turn = u64::from(pass.rounds) + if cell < pass.next { 1 } else { 0 };
        let looks = u64::from(number_at(self.looks.as_slice(), cell));
        let shades = u64::from(number_at(self.shades.as_slice(), cell));
        looks < shades + in_turn
    }

    /// After a look of a pass: a grey cell is scanned.
    fn looked(&self, pass: Pass, cell: u32, colour: u64) -> Spot
        requires rounds { pass.rounds + 1 < 2 ^ 32 }
        requires low { cycle_of self.now.posted < 2 ^ 60 }
        ensures { result ≡ nexts.looked self.now.heap self.now.posted pass cell colour }
    {
        if colour == mark_value(cycle_of(self.posted)) {
            return Spot::Scanning(
                cell,
                0,
                Pass {
                    rounds: pass.rounds,
                    next: pass.next,
                    met_grey: true,
                },
            );
        }
        self.pass_from(pass)
    }

    /// The next cell of a pass, the next pass where a grey cell was met, or the sweep.
    fn pass_from(&self, pass: Pass) -> Spot
        requires { pass.rounds + 1 < 2 ^ 32 }
        ensures { result ≡ nexts.pass_from self.now.heap pass }
    {
        if pass.next < self.cells {
            return Spot::Passing(pass);
        }
        if pass.met_grey {
            return Spot::Passing(Pass {
                rounds: pass.rounds + 1,
                next: 0,
                met_grey: false,
            });
        }
        self.sweep_from(1)
    }

    /// The next cell of the sweep, or the next stage.
    fn sweep_from(&self, cell: u32) -> Spot
        ensures { result ≡ nexts.sweep_from self.now.heap cell }
    {
        if cell < self.cells {
            return Spot::Sweeping(cell);
        }
        Spot::Posting
    }

    /// The next thread of a wait, or what comes after the last one's answer.
    fn wait_from(&self, stage: u64, thread: usize) -> Spot
        ensures { result ≡ nexts.wait_from self.now.heap stage thread }
    {
        let plan = self.plan;
        if thread < plan.threads {
            return Spot::Waiting(thread);
        }
        match stage % 3 {
            1 => Spot::Posting,
            2 => Spot::ShadingGlobals,
            _ => Spot::Passing(Pass {
                rounds: 0,
                next: 0,
                met_grey: false,
            }),
        }
    }

    /// The reference word in turn, from this one on; past the cell's last word there is none.
    fn reference_from(&self, cell: u32, word: u32) -> u32
        requires { cell < cells self.now.heap }
        ensures { result ≡ reference_from self.now.heap cell word }
    {
        first_reference(self.words(cell), word)
    }

    /// The kinds of a cell's words.
    fn words(&self, cell: u32) -> &[WordKind]
        requires { cell < cells self.now.heap }
        ensures words { result.now ≡ words_of_cell self.now.heap cell }
        ensures few { length result.now < 2 ^ 32 }
    {
        let plan = self.plan;
        if cell == 0 {
            return plan.globals;
        }
        plan.layouts.words(plan.pools.pool_of(cell))
    }
}

/// The globals are marked.
fn after_globals(turn: Turn) -> Option<Spot>
    ensures { (s : Setup) (stage : ℕ) → result ≡ nexts.after_turn s stage Spot.ShadingGlobals turn }
{
    match turn {
        Turn::MarkFound(cell, _) if cell == 0 => Some(Spot::Posting),
        _ => None,
    }
}

/// The value in hand is marked.
fn after_shading(value: u64, cell: u32, word: u32, pass: Pass, turn: Turn) -> Option<Spot>
    ensures { (s : Setup) (stage : ℕ) → result ≡ nexts.after_turn s stage (Spot.Shading value cell word pass) turn }
{
    match turn {
        Turn::MarkFound(marked, _) if u64::from(marked) == value => Some(Spot::Scanning(
            cell, word, pass,
        )),
        _ => None,
    }
}

/// The pass after a look in turn.
fn in_turn(pass: Pass) -> Pass
    requires { pass.next + 1 < 2 ^ 32 }
    ensures { result ≡ nexts.in_turn pass }
{
    Pass {
        rounds: pass.rounds,
        next: pass.next + 1,
        met_grey: pass.met_grey,
    }
}

/// The place of the first reference from this word on, or the place after the words; the word itself where it is past them.
fn first_reference(words: &[WordKind], from: u32) -> u32
    requires { length words.now < 2 ^ 32 }
    ensures { result ≡ place_from words.now from (length words.now - from) }
{
    let mut at = from;
    while (at as usize) < words.len() {
        if is_reference(words, at) {
            return at;
        }
        at += 1;
    }
    at
}

/// Whether the word at this place is there and holds references.
fn is_reference(words: &[WordKind], at: u32) -> bool
    ensures { result ≡ is_reference_kind (slice_get words.now at) }
{
    matches!(words.get(at as usize), Some(WordKind::Reference(_)))
}

/// The number at this place; 0 outside the list.
fn number_at(numbers: &[u32], at: u32) -> u32
    ensures { result ≡ slice_index numbers.now at }
{
    numbers.get(at as usize).copied().unwrap_or(0)
}

/// This number of zeros.
fn zeros(alloc: Global, count: u32) -> Result<Vec<u32>, AllocError>
    ensures { IfOk result (λ numbers. numbers.items ≡ replicate count 0) }
{
    let numbers = Vec::from_elem(alloc, 0, count as usize)?;
    Ok(numbers)
}

/// Each number is 0.
fn clear(numbers: &mut [u32])
    ensures { numbers.new ≡ replicate (length numbers.old) 0 }
{
    for number in numbers.iter_mut() {
        *number = 0;
    }
}

/// The number at this place, if it is one of the list, is one more.
fn add_one(numbers: &mut [u32], at: u32)
    requires { slice_index numbers.old at + 1 < 2 ^ 32 }
    ensures { numbers.new ≡ with_one_more numbers.old at }
{
    let place = at as usize;
    if place < numbers.len() {
        numbers[place] += 1;
    }
}
