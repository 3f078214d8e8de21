//! Rows to spare.
ghost use Rattle.std.specs.Prelude.{IfOk, OnOk};
ghost use Rattle.facts.specs.Contents.{HasRows};

use crate::contents::Contents;
use std::alloc::{AllocError, Global};
use std::rc::Rc;

/// Rows, if there are any, in which facts are written before they take the place of others. What is in them is not used.
#[derive(Drop)]
pub struct SpareRows {
    contents: Option<Rc<Contents>>,
}

impl SpareRows {
    /// No rows are to spare.
    pub fn none() -> Self {
        SpareRows { contents: None }
    }

    /// Rows for this number of values and slots: those to spare, which are sized anew if they do not fit.
    pub(crate) fn take(
        &mut self,
        alloc: Global,
        values: usize,
        slots: usize,
    ) -> Result<Rc<Contents>, AllocError>
        ensures { IfOk result (λ rows. HasRows values slots rows.value) }
    {
        match self.contents.take() {
            Some(rows) => fitted(alloc, rows, values, slots),
            None => Contents::blank(alloc, values, slots),
        }
    }

    /// These rows are to spare.
    pub(crate) fn keep(&mut self, rows: Rc<Contents>) {
        self.contents = Some(rows);
    }
}

/// These rows, if they are for this number of values and slots, or sized anew.
fn fitted(
    alloc: Global,
    mut rows: Rc<Contents>,
    values: usize,
    slots: usize,
) -> Result<Rc<Contents>, AllocError>
    ensures { IfOk result (λ rows. HasRows values slots rows.value) }
{
    if rows.has(values, slots) {
        return Ok(rows);
    }
    match resize(alloc, &mut rows, values, slots) {
        Ok(()) => Ok(rows),
        Err(refused) => {
            drop(rows);
            Err(refused)
        }
    }
}

fn resize(
    alloc: Global,
    rows: &mut Rc<Contents>,
    values: usize,
    slots: usize,
) -> Result<(), AllocError>
    ensures { OnOk result (HasRows values slots rows.new.value) }
{
    Rc::make_mut(rows)?.resize(alloc, values, slots)
}
