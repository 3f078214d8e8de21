//! How layouts spread from value to value.
use crate::evidence::{Access, Evidence, WordUse};
use crate::first_words::{FirstWord, FirstWords};
use number_tables::{Buckets, put, row_or};
use pools::{LayoutId, Layouts, WordKind};
use std::alloc::{AllocError, Global};

/// What flows into a value.
#[derive(Clone, Copy)]
pub enum Found {
    Nothing,
    /// References of this layout.
    One(LayoutId),
    /// Addresses outside of the module.
    Outside,
    /// More than one of these.
    Several,
}

/// The ways from value to value.
#[derive(Drop)]
struct Ways<'a> {
    layouts: &'a Layouts,
    words: &'a FirstWords,
    uses: &'a [WordUse],
    /// What each value may become.
    forward: Buckets,
    /// What may become each value.
    backward: Buckets,
    /// The values of each base's getelementptrs.
    elements: Buckets,
    /// The places of the uses of each reference's cell.
    cells: Buckets,
}

/// What was found of each value.
#[derive(Drop)]
struct Spread {
    found: Vec<Found>,
    /// The values of which more was found, in this order.
    queue: Vec<u32>,
    /// How many of them were passed on.
    passed: usize,
}

/// The layouts of `count` values: first by what flows into each, and then, where nothing does, by how it is used.
pub fn layouts_of_values(
    alloc: Global,
    layouts: &Layouts,
    evidence: &Evidence,
    count: usize,
) -> Result<Vec<Found>, AllocError> {
    let words = FirstWords::of(alloc, layouts)?;
    let found = found_with(alloc, layouts, &words, evidence, count);
    drop(words);
    found
}

fn found_with(
    alloc: Global,
    layouts: &Layouts,
    words: &FirstWords,
    evidence: &Evidence,
    count: usize,
) -> Result<Vec<Found>, AllocError> {
    let ways = Ways::of(alloc, layouts, words, evidence, count)?;
    let found = found_by(alloc, &ways, evidence, count);
    drop(ways);
    found
}

fn found_by(
    alloc: Global,
    ways: &Ways<'_>,
    evidence: &Evidence,
    count: usize,
) -> Result<Vec<Found>, AllocError> {
    let mut spread = Spread {
        found: vec![in alloc; Found::Nothing; count]?,
        queue: Vec::new(alloc),
        passed: 0,
    };
    match spread.go(ways, evidence) {
        Ok(()) => Ok(spread.into_found()),
        Err(refused) => {
            drop(spread);
            Err(refused)
        }
    }
}

impl<'a> Ways<'a> {
    fn of(
        alloc: Global,
        layouts: &'a Layouts,
        words: &'a FirstWords,
        evidence: &'a Evidence,
        count: usize,
    ) -> Result<Ways<'a>, AllocError> {
        let forward = Buckets::of(alloc, &evidence.flows, count)?;
        let Ok(cells) = Buckets::of(alloc, &evidence.bases, count) else {
            drop(forward);
            return Err(AllocError);
        };
        let Ok(backward) = turned(alloc, &evidence.flows, count) else {
            drop(forward);
            drop(cells);
            return Err(AllocError);
        };
        let Ok(elements) = Buckets::of(alloc, &evidence.elements, count) else {
            drop(forward);
            drop(cells);
            drop(backward);
            return Err(AllocError);
        };
        Ok(Ways {
            layouts,
            words,
            uses: &evidence.uses,
            forward,
            backward,
            elements,
            cells,
        })
    }

    /// What is found of a word of a cell.
    fn word_of(&self, cell: Found, word: u32) -> Found {
        match cell {
            Found::One(layout) => match self.layouts.words(layout).get(word as usize) {
                Some(WordKind::Reference(held)) => Found::One(*held),
                _ => Found::Nothing,
            },
            other => other,
        }
    }

    /// The first layout of whose first word this is so.
    fn layout_with(&self, asked: FirstWord) -> Found {
        match self.words.layout(asked) {
            Some(layout) => Found::One(layout),
            None => Found::Nothing,
        }
    }

    fn use_at(&self, place: u32) -> Option<WordUse> {
        self.uses.get(place as usize).copied()
    }
}

/// The ways in the other direction.
fn turned(alloc: Global, flows: &[(usize, u32)], count: usize) -> Result<Buckets, AllocError> {
    let mut pairs = Vec::new(alloc);
    for (from, to) in flows {
        if let Ok(from) = u32::try_from(*from) {
            pairs.push((*to as usize, from))?;
        }
    }
    let backward = Buckets::of(alloc, &pairs, count);
    drop(pairs);
    backward
}

impl Spread {
    fn into_found(self) -> Vec<Found> {
        self.found
    }

    fn go(&mut self, ways: &Ways<'_>, evidence: &Evidence) -> Result<(), AllocError> {
        for (value, layout) in evidence.given.as_slice() {
            self.join(*value, Found::One(*layout))?;
        }
        for value in evidence.outside.as_slice() {
            self.join(*value, Found::Outside)?;
        }
        self.flow_on(ways)?;
        self.ask(ways, evidence)?;
        self.pass_all(ways)?;
        self.lead_out(ways, evidence)?;
        self.guess(ways, evidence)
    }

    /// What is found of the values that wait flows on.
    fn flow_on(&mut self, ways: &Ways<'_>) -> Result<(), AllocError> {
        for _ in 0..usize::MAX {
            let Some(value) = self.queue.get(self.passed).copied() else {
                break;
            };
            self.passed = self.passed.saturating_add(1);
            self.pass_forward(ways, value)?;
        }
        Ok(())
    }

    /// What is left, and is the base of a getelementptr that names no struct, is taken to be an address outside.
    fn lead_out(&mut self, ways: &Ways<'_>, evidence: &Evidence) -> Result<(), AllocError> {
        for base in evidence.bare.as_slice() {
            if let Found::Nothing = self.found_of(*base) {
                self.join(*base, Found::Outside)?;
            }
        }
        self.flow_on(ways)
    }

    /// Passes on what the values are taken to be that wait.
    fn pass_all(&mut self, ways: &Ways<'_>) -> Result<(), AllocError> {
        for _ in 0..usize::MAX {
            let Some(value) = self.queue.get(self.passed).copied() else {
                break;
            };
            self.passed = self.passed.saturating_add(1);
            self.pass_both(ways, value)?;
        }
        Ok(())
    }

    fn found_of(&self, value: u32) -> Found {
        row_or(&self.found, value as usize, Found::Several)
    }

    /// What is found of a value flows on.
    fn pass_forward(&mut self, ways: &Ways<'_>, value: u32) -> Result<(), AllocError> {
        for to in ways.forward.group(value as usize) {
            self.join(*to, self.found_of(value))?;
        }
        for place in ways.cells.group(value as usize) {
            self.join_loaded(ways, self.found_of(value), *place)?;
        }
        if let Found::Outside = self.found_of(value) {
            for element in ways.elements.group(value as usize) {
                self.join(*element, Found::Outside)?;
            }
        }
        Ok(())
    }

    /// What is found of the cell of a reference flows into what is loaded from it.
    fn join_loaded(&mut self, ways: &Ways<'_>, cell: Found, place: u32) -> Result<(), AllocError> {
        match ways.use_at(place) {
            Some(
                WordUse {
                    value,
                    word,
                    access: Access::Load,
                },
            ) => self.join(value, ways.word_of(cell, word)),
            _ => Ok(()),
        }
    }

    /// This flows into a value too.
    fn join(&mut self, value: u32, found: Found) -> Result<(), AllocError> {
        match found {
            Found::Nothing => Ok(()),
            Found::One(layout) => self.join_one(value, layout),
            Found::Outside => self.join_outside(value),
            Found::Several => self.join_several(value),
        }
    }

    fn join_outside(&mut self, value: u32) -> Result<(), AllocError> {
        match self.found_of(value) {
            Found::Nothing => self.set(value, Found::Outside),
            Found::One(_) => self.set(value, Found::Several),
            Found::Outside | Found::Several => Ok(()),
        }
    }

    fn join_one(&mut self, value: u32, layout: LayoutId) -> Result<(), AllocError> {
        match self.found_of(value) {
            Found::Nothing => self.set(value, Found::One(layout)),
            Found::One(other) => {
                if other == layout {
                    Ok(())
                } else {
                    self.set(value, Found::Several)
                }
            }
            Found::Outside => self.set(value, Found::Several),
            Found::Several => Ok(()),
        }
    }

    fn join_several(&mut self, value: u32) -> Result<(), AllocError> {
        match self.found_of(value) {
            Found::Nothing | Found::One(_) | Found::Outside => self.set(value, Found::Several),
            Found::Several => Ok(()),
        }
    }

    /// The values into which nothing flows are taken to be what their uses ask.
    fn ask(&mut self, ways: &Ways<'_>, evidence: &Evidence) -> Result<(), AllocError> {
        for (value, layout) in evidence.wanted.as_slice() {
            self.fill(*value, Found::One(*layout))?;
        }
        for (from, to) in evidence.flows.as_slice() {
            if let Ok(from) = u32::try_from(*from) {
                self.fill(from, self.found_of(*to))?;
            }
        }
        for (base, place) in evidence.bases.as_slice() {
            let found = row_or(&self.found, *base, Found::Nothing);
            self.fill_used(ways, found, *place)?;
        }
        Ok(())
    }

    /// What is left, and is used as a place, is taken to be the first layout that has such a first word.
    fn guess(&mut self, ways: &Ways<'_>, evidence: &Evidence) -> Result<(), AllocError> {
        for (base, place) in evidence.bases.as_slice() {
            if let (Ok(base), Some(word_use)) = (u32::try_from(*base), ways.use_at(*place)) {
                self.guess_used(ways, base, word_use)?;
            }
        }
        for (base, bits) in evidence.integers.as_slice() {
            self.fill(*base, ways.layout_with(FirstWord::Integer(*bits)))?;
            self.pass_all(ways)?;
        }
        Ok(())
    }

    fn guess_used(
        &mut self,
        ways: &Ways<'_>,
        base: u32,
        word_use: WordUse,
    ) -> Result<(), AllocError> {
        if word_use.word != 0 {
            return Ok(());
        }
        let asked = match self.found_of(word_use.value) {
            Found::One(layout) => FirstWord::Reference(layout.number()),
            Found::Nothing | Found::Outside | Found::Several => FirstWord::AnyReference,
        };
        self.fill(base, ways.layout_with(asked))?;
        self.pass_all(ways)
    }

    /// What a value is taken to be, the values around it are taken to be too.
    fn pass_both(&mut self, ways: &Ways<'_>, value: u32) -> Result<(), AllocError> {
        for to in ways.forward.group(value as usize) {
            self.fill(*to, self.found_of(value))?;
        }
        for from in ways.backward.group(value as usize) {
            self.fill(*from, self.found_of(value))?;
        }
        for place in ways.cells.group(value as usize) {
            self.fill_used(ways, self.found_of(value), *place)?;
        }
        Ok(())
    }

    /// What is loaded from a cell or stored there is taken to be what its word holds.
    fn fill_used(&mut self, ways: &Ways<'_>, cell: Found, place: u32) -> Result<(), AllocError> {
        match ways.use_at(place) {
            Some(WordUse { value, word, .. }) => self.fill(value, ways.word_of(cell, word)),
            None => Ok(()),
        }
    }

    /// A value is taken to be this, if nothing is found of it.
    fn fill(&mut self, value: u32, found: Found) -> Result<(), AllocError> {
        match (self.found_of(value), found) {
            (Found::Nothing, Found::One(_)) => self.set(value, found),
            _ => Ok(()),
        }
    }

    fn set(&mut self, value: u32, found: Found) -> Result<(), AllocError> {
        put(&mut self.found, value as usize, found);
        self.queue.push(value)?;
        Ok(())
    }
}
