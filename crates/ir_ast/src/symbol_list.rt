//! Global names in a list, where each is found at once.
ghost use Rattle.std.specs.Prelude.{◌≡◌, ◌==◌, [], ◌∷◌, ◌++◌, ◌<◌, ℕ, length, IfOk, OnOk, OnErr};
ghost use Rattle.std.specs.List.{list_any};
ghost use Rattle.ir_ast.specs.SymbolList.{is_marked};

use crate::symbol_id::SymbolId;
use items::Items;
use std::alloc::{AllocError, Global};
use std::marker::Model;

/// A growing list of global names. A mark tells whether a name is listed, so that the time of `contains` does not grow with the list.
#[derive(Drop)]
pub struct SymbolList {
    listed: Items<SymbolId>,
    marks: Items<bool>,
}

impl Model for SymbolList {
    ghost use Rattle.std.specs.Prelude.{ℕ, List};
    ghost use Rattle.ir_ast.specs.SymbolList.{AreMarks};

    ghost Value = { List ℕ };

    ghost view = { λ list. list.listed };

    ghost invariant = { λ list. AreMarks list.listed list.marks };
}

/// Makes the marks long enough for a name. The same names are marked as before.
#[tactic(auto, using(crate::proofs::Marks::marks_longer))]
fn cover(marks: &mut Items<bool>, symbol: SymbolId) -> Result<(), AllocError>
    ensures same { (s : ℕ) → is_marked marks.new s ≡ is_marked marks.old s }
    ensures long { OnOk result (symbol < length marks.new) }
{
    for _place in marks.len()..symbol.number() as usize + 1 {
        marks.push(false)?;
    }
    Ok(())
}

impl SymbolList {
    pub fn new(alloc: Global) -> Self
        ensures { result ≡ [] }
    {
        SymbolList {
            listed: Items::new(alloc),
            marks: Items::new(alloc),
        }
    }

    /// The same names.
    pub fn from_slice(alloc: Global, symbols: &[SymbolId]) -> Result<Self, AllocError>
        ensures { IfOk result (λ list. list ≡ symbols.now) }
    {
        let mut list = SymbolList::new(alloc);
        for symbol in symbols {
            list.push(*symbol)?;
        }
        Ok(list)
    }

    pub fn as_slice(&self) -> &[SymbolId]
        ensures { result.now ≡ self.now }
    {
        self.listed.as_slice()
    }

    /// Whether a name is listed. It takes the same time however long the list is.
    pub fn contains(&self, symbol: SymbolId) -> bool
        ensures { result ≡ list_any (λ s. s == symbol) self.now }
    {
        match self.marks.get(symbol.number() as usize) {
            Some(marked) => *marked,
            None => false,
        }
    }

    /// One name more at the end.
    pub fn push(&mut self, symbol: SymbolId) -> Result<(), AllocError>
        ensures ok { OnOk result (self.new ≡ self.old ++ symbol ∷ []) }
        ensures err { OnErr result (self.new ≡ self.old) }
    {
        cover(&mut self.marks, symbol)?;
        self.listed.push(symbol)?;
        self.marks.set(symbol.number() as usize, true);
        Ok(())
    }
}
