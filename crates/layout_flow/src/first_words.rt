use indexmap::IndexMap;
use pools::{LayoutId, Layouts, WordKind};
use std::alloc::{AllocError, Global};

/// What is asked of the first word of a cell.
#[derive(Clone, Copy, PartialEq, Eq, Hash)]
pub enum FirstWord {
    /// That it holds an integer of this number of bits.
    Integer(u32),
    /// That it holds a reference to a cell of the layout of this number.
    Reference(u32),
    AnyReference,
}

/// For each that can be asked of first words, the first layout for which it is so.
#[derive(Drop)]
pub struct FirstWords {
    each: IndexMap<FirstWord, LayoutId>,
}

impl FirstWords {
    pub fn of(alloc: Global, layouts: &Layouts) -> Result<FirstWords, AllocError> {
        let mut words = FirstWords {
            each: IndexMap::new(alloc),
        };
        match words.record_all(layouts) {
            Ok(()) => Ok(words),
            Err(refused) => {
                drop(words);
                Err(refused)
            }
        }
    }

    /// The first layout of whose first word this is so.
    pub fn layout(&self, asked: FirstWord) -> Option<LayoutId> {
        self.each.get(&asked).copied()
    }

    fn record_all(&mut self, layouts: &Layouts) -> Result<(), AllocError> {
        let Ok(count) = u32::try_from(layouts.count()) else {
            return Ok(());
        };
        for number in 0..count {
            let layout = LayoutId::new(number);
            match layouts.words(layout) {
                [WordKind::Integer(bits), ..] => self.record(FirstWord::Integer(*bits), layout)?,
                [WordKind::Reference(held), ..] => {
                    self.record(FirstWord::Reference(held.number()), layout)?;
                    self.record(FirstWord::AnyReference, layout)?;
                }
                _ => {}
            }
        }
        Ok(())
    }

    fn record(&mut self, word: FirstWord, layout: LayoutId) -> Result<(), AllocError> {
        if self.each.get(&word).is_none() {
            self.each.insert(word, layout)?;
        }
        Ok(())
    }
}
