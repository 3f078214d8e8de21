//! Where the instructions of a function are in the text of its module.
use crate::texts::Source;
use diagnosis::Spot;
use ir_ast::{FuncId, Module};
use messages::{Places, places_from};
use std::alloc::{AllocError, Global};

/// Where the instructions of one function are in the text of its module, if the reader reads it where it seems to begin.
#[derive(Drop)]
pub(crate) struct FunctionPlaces {
    func: Option<FuncId>,
    places: Option<Places>,
}

/// The places of a function, if it is there.
fn places_of(
    alloc: Global,
    source: &Source<'_>,
    of_module: &Module,
    func: FuncId,
) -> Result<Option<Places>, AllocError> {
    let number = func.number() as usize;
    let Some(function) = of_module.functions.get(number) else {
        return Ok(None);
    };
    let Some(start) = source.starts.get(number) else {
        return Ok(None);
    };
    let tokens = source.tokens.get(start..).unwrap_or(&[]);
    let name = of_module.symbols.name_at(function.symbol.number() as usize);
    places_from(alloc, source.text, tokens, name, of_module)
}

impl FunctionPlaces {
    /// Before a function is read.
    pub(crate) fn none() -> FunctionPlaces {
        FunctionPlaces {
            func: None,
            places: None,
        }
    }

    /// Whether the function with this number was read for these.
    pub(crate) fn is_of(&self, func: FuncId) -> bool {
        match self.func {
            Some(own) => own.number() == func.number(),
            None => false,
        }
    }

    /// Reads a function, unless it was read for these already.
    pub(crate) fn renew(
        &mut self,
        alloc: Global,
        source: &Source<'_>,
        of_module: &Module,
        func: FuncId,
    ) -> Result<(), AllocError> {
        if !self.is_of(func) {
            let places = places_of(alloc, source, of_module, func)?;
            *self = FunctionPlaces {
                func: Some(func),
                places,
            };
        }
        Ok(())
    }

    /// The number among the tokens of the text of the first one of an instruction.
    pub(crate) fn token_at(&self, source: &Source<'_>, spot: &Spot) -> Option<usize> {
        let places = self.places.as_ref()?;
        let block = spot.block.number() as usize;
        places.token_at(source.tokens, block, spot.place)
    }
}
