//! The lines of functions outside of the module that are trusted.
ghost use Rattle.std.specs.Prelude.{◌≡◌};
ghost use Rattle.certificate.specs.ForeignForms as form;
ghost use Rattle.name_text.specs.Reader.{Reads};

use crate::input::{Input, WordFault};
use crate::mistake::Mistake;
use crate::naming::{Naming, outside_of_word};
use ir_ast::{Module, SymbolId, SymbolList};
use std::alloc::Global;

/// The name of a function outside that is not listed so far.
#[tactic(auto, unfolding(crate::specs::ForeignForms::new_outside, name_text::specs::Forms::skip))]
fn new_outside(alloc: Global, input: &mut Input<'_>, module: &Module) -> Result<SymbolId, WordFault>
    ensures { Reads ((form.new_outside «module».now).read input.old) result input.new }
{
    match outside_of_word(alloc, module, input.word())? {
        Naming::NoName => Err(WordFault::Syntax(input.left())),
        Naming::Unknown => Err(WordFault::Wrong(Mistake::UnknownName(input.left()))),
        Naming::Named(number) => {
            let symbol = SymbolId::new(number);
            if input.read.lists_foreign(symbol) {
                return Err(WordFault::Wrong(Mistake::ListedTwice(input.left())));
            }
            input.skip();
            Ok(symbol)
        }
    }
}

/// A function outside that is trusted.
#[tactic(auto, unfolding(crate::specs::ForeignForms::foreign_line))]
fn foreign_line(alloc: Global, input: &mut Input<'_>, module: &Module) -> Result<(), WordFault>
    ensures { Reads ((form.foreign_line «module».now).read input.old) result input.new }
{
    input.expect(b"foreign")?;
    let symbol = new_outside(alloc, input, module)?;
    input.expect(b"none")?;
    input.line_end()?;
    input.read.put_foreign(symbol)?;
    Ok(())
}

fn past_foreign(input: &Input<'_>) -> bool
    ensures { result ≡ form.past_foreign input.now }
{
    !input.begins(b"foreign")
}

#[tactic(auto, unfolding(crate::specs::ForeignForms::foreign_lines))]
fn foreign_lines(alloc: Global, input: &mut Input<'_>, module: &Module) -> Result<(), WordFault>
    ensures { Reads ((form.foreign_lines «module».now).read input.old) result input.new }
{
    for _turn in 0..input.left() + 1 {
        if past_foreign(input) {
            return Ok(());
        }
        foreign_line(alloc, input, module)?;
    }
    Ok(())
}

/// The functions outside that are trusted. They are listed where the wide forms may stand, and nowhere else.
#[tactic(auto, unfolding(crate::specs::ForeignForms::foreign_names, crate::specs::ForeignForms::taken_foreign))]
pub fn foreign_names(
    alloc: Global,
    input: &mut Input<'_>,
    module: &Module,
) -> Result<SymbolList, WordFault>
    ensures { Reads ((form.foreign_names «module».now).read input.old) result input.new }
{
    if !module.wide {
        return Ok(SymbolList::new(alloc));
    }
    foreign_lines(alloc, input, module)?;
    Ok(input.read.take_foreign(alloc))
}
