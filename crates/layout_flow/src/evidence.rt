use pools::LayoutId;
use std::alloc::{AllocError, Global};

/// How a word of a cell is used.
#[derive(Clone, Copy)]
pub enum Access {
    Load,
    Store,
}

/// A use of a word of a cell: the number of the value that is loaded from it or stored there.
#[derive(Clone, Copy)]
pub struct WordUse {
    pub value: u32,
    pub word: u32,
    pub access: Access,
}

/// What the text of a module tells of the layouts of its references. Values are meant by their numbers over the whole module.
#[derive(Drop)]
pub struct Evidence {
    /// Values that have this layout, wherever they go.
    pub given: Vec<(u32, LayoutId)>,
    /// Values of which some use asks this layout.
    pub wanted: Vec<(u32, LayoutId)>,
    /// Values that are addresses outside of the module, wherever they go.
    pub outside: Vec<u32>,
    /// Bases of a getelementptr that names no struct.
    pub bare: Vec<u32>,
    /// Each value with one that it may become.
    pub flows: Vec<(usize, u32)>,
    /// Each base of a getelementptr with its value: where that is an address outside, so is this.
    pub elements: Vec<(usize, u32)>,
    /// Each reference with the place of a use of its cell.
    pub bases: Vec<(usize, u32)>,
    pub uses: Vec<WordUse>,
    /// References at whose first word an integer of this number of bits lies.
    pub integers: Vec<(u32, u32)>,
}

impl Evidence {
    pub fn new(alloc: Global) -> Evidence {
        Evidence {
            given: Vec::new(alloc),
            wanted: Vec::new(alloc),
            outside: Vec::new(alloc),
            bare: Vec::new(alloc),
            flows: Vec::new(alloc),
            elements: Vec::new(alloc),
            bases: Vec::new(alloc),
            uses: Vec::new(alloc),
            integers: Vec::new(alloc),
        }
    }

    /// A value has a layout, wherever it goes.
    pub fn add_given(&mut self, value: u32, layout: LayoutId) -> Result<(), AllocError> {
        self.given.push((value, layout))?;
        Ok(())
    }

    /// Some use of a value asks a layout.
    pub fn add_wanted(&mut self, value: u32, layout: LayoutId) -> Result<(), AllocError> {
        self.wanted.push((value, layout))?;
        Ok(())
    }

    /// A value is an address outside, wherever it goes.
    pub fn add_outside(&mut self, value: u32) -> Result<(), AllocError> {
        self.outside.push(value)?;
        Ok(())
    }

    /// A getelementptr that names no struct has this base.
    pub fn add_bare(&mut self, base: u32) -> Result<(), AllocError> {
        self.bare.push(base)?;
        Ok(())
    }

    /// A getelementptr of a base gives a value.
    pub fn add_element(&mut self, base: u32, value: u32) -> Result<(), AllocError> {
        self.elements.push((base as usize, value))?;
        Ok(())
    }

    /// A value may become another.
    pub fn add_flow(&mut self, from: u32, to: u32) -> Result<(), AllocError> {
        self.flows.push((from as usize, to))?;
        Ok(())
    }

    /// An integer of this number of bits is read or written at the first word of the cell of a reference.
    pub fn add_integer(&mut self, base: u32, bits: u32) -> Result<(), AllocError> {
        self.integers.push((base, bits))?;
        Ok(())
    }

    /// A word of the cell of a reference is used.
    pub fn add_use(&mut self, base: u32, word_use: WordUse) -> Result<(), AllocError> {
        let Ok(place) = u32::try_from(self.uses.len()) else {
            return Ok(());
        };
        self.bases.push((base as usize, place))?;
        self.uses.push(word_use)?;
        Ok(())
    }
}
