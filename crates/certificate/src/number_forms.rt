//! The lines of numbers of layouts.
ghost use Rattle.std.specs.Prelude.{◌≡◌};
ghost use Rattle.certificate.specs.NumberForms as form;
ghost use Rattle.name_text.specs.Reader.{Reads};

use crate::input::{Input, WordFault};
use crate::mistake::Mistake;
use crate::naming::{Naming, layout_of_word};
use ir_ast::{LayoutNumber, Module};
use items::Items;
use name_text::number_of_word;
use pools::LayoutId;
use std::alloc::Global;
use types::is_layout_number;

/// The name of a layout that has no number so far.
#[tactic(auto, unfolding(crate::specs::NumberForms::new_layout, name_text::specs::Forms::skip))]
fn new_layout(alloc: Global, input: &mut Input<'_>, module: &Module) -> Result<LayoutId, WordFault>
    ensures { Reads ((form.new_layout «module».now).read input.old) result input.new }
{
    match layout_of_word(alloc, module, input.word())? {
        Naming::NoName => Err(WordFault::Syntax(input.left())),
        Naming::Unknown => Err(WordFault::Wrong(Mistake::UnknownName(input.left()))),
        Naming::Named(number) => {
            let layout = LayoutId::new(number);
            if input.read.has_numbered(layout) {
                return Err(WordFault::Wrong(Mistake::ListedTwice(input.left())));
            }
            input.skip();
            Ok(layout)
        }
    }
}

/// The number of 32 bits that a word is.
fn short_of_word(word: &[u8]) -> Option<u64>
    ensures { result ≡ form.short_of_word word.now }
{
    match number_of_word(word) {
        Some(number) if is_layout_number(number) => Some(number),
        _ => None,
    }
}

/// A number of 32 bits that no layout has so far.
#[tactic(auto, unfolding(crate::specs::NumberForms::new_number, name_text::specs::Forms::skip))]
fn new_number(input: &mut Input<'_>) -> Result<u64, WordFault>
    ensures { Reads (form.new_number.read input.old) result input.new }
{
    match short_of_word(input.word()) {
        None => Err(WordFault::Syntax(input.left())),
        Some(number) => {
            if input.read.has_number(number) {
                return Err(WordFault::Wrong(Mistake::ListedTwice(input.left())));
            }
            input.skip();
            Ok(number)
        }
    }
}

/// The number of a layout.
#[tactic(auto, unfolding(crate::specs::NumberForms::number_line))]
fn number_line(alloc: Global, input: &mut Input<'_>, module: &Module) -> Result<(), WordFault>
    ensures { Reads ((form.number_line «module».now).read input.old) result input.new }
{
    input.expect(b"number")?;
    let layout = new_layout(alloc, input, module)?;
    let number = new_number(input)?;
    input.line_end()?;
    input.read.put_number(layout, number)?;
    Ok(())
}

fn past_numbers(input: &Input<'_>) -> bool
    ensures { result ≡ form.past_numbers input.now }
{
    !input.begins(b"number")
}

#[tactic(auto, unfolding(crate::specs::NumberForms::number_lines))]
fn number_lines(alloc: Global, input: &mut Input<'_>, module: &Module) -> Result<(), WordFault>
    ensures { Reads ((form.number_lines «module».now).read input.old) result input.new }
{
    for _turn in 0..input.left() + 1 {
        if past_numbers(input) {
            return Ok(());
        }
        number_line(alloc, input, module)?;
    }
    Ok(())
}

/// The numbers of layouts. They are listed where the wide forms may stand, and nowhere else.
#[tactic(auto, unfolding(crate::specs::NumberForms::layout_numbers, crate::specs::NumberForms::taken_numbers))]
pub fn layout_numbers(
    alloc: Global,
    input: &mut Input<'_>,
    module: &Module,
) -> Result<Items<LayoutNumber>, WordFault>
    ensures { Reads ((form.layout_numbers «module».now).read input.old) result input.new }
{
    if !module.wide {
        return Ok(Items::new(alloc));
    }
    number_lines(alloc, input, module)?;
    Ok(input.read.take_numbers(alloc))
}
