//! What the blocks of functions begin with, kept while their code and their certificates stay.
ghost use Rattle.std.specs.Prelude.{◌≡◌, List, [], Some, slice_set};
ghost use Rattle.std.specs.Option.{option_copied};
ghost use Rattle.certs.specs.declared.section.Section.{Section};
ghost use Rattle.layout.specs.Layouts.{LaidOut};
ghost use Rattle.answers.specs.KeptRows.{AreEmpty, AreKept, AreOthersKept, StayKept, rows_at};

use block_check::Rows;
use ir_ast::FuncId;
use items::Items;
use std::alloc::Global;
use std::marker::Model;

/// Places for what the blocks of functions begin with, at the numbers of the functions.
#[derive(Drop)]
pub struct KeptRows {
    places: Items<Option<Rows>>,
}

impl Model for KeptRows {
    ghost use Rattle.std.specs.Prelude.{List, Option};
    ghost use Rattle.facts.specs.Facts.{FactSet};

    ghost Value = { List (Option (List FactSet)) };

    ghost view = { λ kept. kept.places };
}

impl KeptRows {
    /// Nothing is kept. There are places for this many functions, as far as there is memory for them.
    pub fn new(alloc: Global, count: usize) -> Self
        ensures { AreEmpty result }
    {
        let mut places = Items::new(alloc);
        add_places(&mut places, count);
        KeptRows { places }
    }

    /// What the blocks of a function begin with, if it is kept.
    pub fn get(&self, func: FuncId) -> Option<&Rows>
        ensures { option_copied result ≡ rows_at self.now func }
    {
        match self.places.get(func.number() as usize) {
            Some(Some(rows)) => Some(rows),
            _ => None,
        }
    }

    /// Keeps what the blocks of a function begin with, if it has a place.
    pub fn keep(&mut self, func: FuncId, rows: Rows)
        ensures { self.new ≡ slice_set self.old func (Some rows) }
    {
        self.put(func, Some(rows));
    }

    /// What the blocks of this function begin with is kept no longer.
    pub fn forget(&mut self, func: FuncId)
        ensures rows { (program : LaidOut) (certs : List Section) → AreKept program certs self.old → AreOthersKept program certs func self.new }
        ensures stay { StayKept func self.old self.new }
    {
        self.put(func, None);
    }

    /// Nothing is kept any longer.
    pub fn forget_all(&mut self)
        ensures { AreEmpty self.new }
    {
        let count = self.places.len();
        self.places.clear();
        add_places(&mut self.places, count);
    }

    fn put(&mut self, func: FuncId, rows: Option<Rows>)
        ensures { self.new ≡ slice_set self.old func rows }
    {
        let place = func.number() as usize;
        if place < self.places.len() {
            self.places.set(place, rows);
        } else {
            drop(rows);
        }
    }
}

/// Adds empty places, as far as there is memory for them.
#[tactic(auto, using(crate::proofs::Rows::empty_first, crate::proofs::Rows::empty_more))]
fn add_places(places: &mut Items<Option<Rows>>, count: usize)
    requires { places.old ≡ [] }
    ensures { AreEmpty places.new }
{
    for _ in 0..count {
        if places.push(None).is_err() {
            return;
        }
    }
}
