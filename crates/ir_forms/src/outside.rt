//! What is outside of the module: what of it is lost, and the constant expressions that are addresses there.
ghost use Rattle.std.specs.Prelude.{◌≡◌, Ok, IfOk};
ghost use Rattle.ir_forms.specs.Input.{Reads};
ghost use Rattle.ir_forms.specs.Outside as form;

use crate::decorating::{flagged_word, past_brackets};
use crate::fault::Fault;
use crate::input::Input;
use crate::names::is_outside;
use ir_ast::SymbolId;
use ir_tokens::Kind;
use std::alloc::{AllocError, Global};

/// What precedes the type and the address in a getelementptr.
#[tactic(auto, unfolding(crate::specs::Outside::element_begin))]
fn element_begin(alloc: Global, input: &mut Input<'_>) -> Result<(), Fault>
    ensures { Reads (form.element_begin.read input.old) result input.new }
{
    flagged_word(alloc, input)?;
    input.expect(Kind::OpenRound)?;
    input.any_type(alloc)?;
    input.expect(Kind::Comma)
}

/// What precedes the type and the address in a bitcast.
#[tactic(auto, unfolding(crate::specs::Outside::cast_begin))]
fn cast_begin(input: &mut Input<'_>) -> Result<(), Fault>
    ensures { Reads (form.cast_begin.read input.old) result input.new }
{
    input.skip();
    input.expect(Kind::OpenRound)
}

impl<'a> Input<'a> {
    /// The form that begins here is lost.
    #[tactic(auto, unfolding(crate::specs::Outside::lost_here))]
    pub fn lose(&mut self)
        ensures { form.lost_here.read self.old ≡ Ok (tt, self.new) }
    {
        if self.lost.is_none() {
            self.lost = Some(self.left_out());
        }
    }

    /// Whether the name of something outside is here.
    fn names_outside(&self, alloc: Global) -> Result<bool, AllocError>
        ensures { IfOk result (λ is. is ≡ form.names_outside self.now) }
    {
        if !self.sees(Kind::GlobalName) {
            return Ok(false);
        }
        let sort = self.symbol_sort(alloc)?;
        match self.cursor.borrowed() {
            Some(name) => Ok(is_outside(sort, name)),
            None => {
                let name = self.cursor.spelled(alloc)?;
                Ok(is_outside(sort, name.as_slice()))
            }
        }
    }

    /// The name of something outside, which is used as an operand.
    #[tactic(auto, unfolding(crate::specs::Outside::outside_name))]
    fn outside_name(&mut self, alloc: Global) -> Result<SymbolId, Fault>
        ensures { Reads (form.outside_name.read self.old) result self.new }
    {
        if !self.names_outside(alloc)? {
            return Err(self.left_out());
        }
        self.used_global(alloc)
    }

    /// The begin of a constant expression, or the name of something outside. Returns the name, if it is one.
    #[tactic(auto, unfolding(crate::specs::Outside::outside_begin))]
    fn outside_begin(&mut self, alloc: Global) -> Result<Option<SymbolId>, Fault>
        ensures { Reads (form.outside_begin.read self.old) result self.new }
    {
        match self.kind() {
            Kind::Getelementptr => {
                element_begin(alloc, self)?;
                Ok(None)
            }
            Kind::Bitcast => {
                cast_begin(self)?;
                Ok(None)
            }
            _ => Ok(Some(self.outside_name(alloc)?)),
        }
    }

    /// The name of something outside, with at most `levels` constant expressions about it.
    pub fn outside(&mut self, alloc: Global, levels: u32) -> Result<SymbolId, Fault>
        ensures { Reads ((form.outside levels).read self.old) result self.new }
    {
        if levels == 0 {
            return self.outside_name(alloc);
        }
        if let Some(symbol) = self.outside_begin(alloc)? {
            return Ok(symbol);
        }
        self.any_type(alloc)?;
        let symbol = self.outside(alloc, levels - 1)?;
        past_brackets(alloc, self)?;
        Ok(symbol)
    }
}
