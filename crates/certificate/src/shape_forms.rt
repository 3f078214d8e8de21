//! The lines of shapes.
ghost use Rattle.std.specs.Prelude.{◌≡◌};
ghost use Rattle.certificate.specs.ShapeForms as form;
ghost use Rattle.name_text.specs.Reader.{Reads};

use crate::forms::layout_name;
use crate::input::{Input, WordFault};
use crate::mistake::Mistake;
use crate::naming::{Naming, function_of_word, global_of_word, value_of_word};
use crate::shape_draft::{ShapeDraft, is_opaque_global, name_of, shapes_gap};
use certs::Family;
use ir_ast::{Function, Module, SymbolId, ValueId};
use name_text::number_of_word;
use pools::LayoutId;
use std::alloc::Global;

/// What is named by the next word, if there is something of the name.
#[tactic(auto, unfolding(name_text::specs::Forms::skip))]
fn mentioned(input: &mut Input<'_>, naming: Naming) -> Result<u32, WordFault>
    ensures { Reads ((form.mentioned naming).read input.old) result input.new }
{
    match naming {
        Naming::NoName => Err(WordFault::Syntax(input.left())),
        Naming::Unknown => Err(WordFault::Wrong(Mistake::UnknownName(input.left()))),
        Naming::Named(number) => {
            input.skip();
            Ok(number)
        }
    }
}

/// The name of a defined function.
#[tactic(auto, unfolding(crate::specs::ShapeForms::a_function))]
fn a_function(alloc: Global, input: &mut Input<'_>, module: &Module) -> Result<u32, WordFault>
    ensures { Reads ((form.a_function «module».now).read input.old) result input.new }
{
    let naming = function_of_word(alloc, module, input.word())?;
    mentioned(input, naming)
}

/// The layout to which something refers, and the line's end.
#[tactic(auto, unfolding(crate::specs::ShapeForms::referred))]
fn referred(alloc: Global, input: &mut Input<'_>, module: &Module) -> Result<LayoutId, WordFault>
    ensures { Reads ((form.referred «module».now).read input.old) result input.new }
{
    input.expect(b"ref")?;
    let target = layout_name(alloc, input, module, Family::Opaque)?;
    input.line_end()?;
    Ok(target)
}

/// A word of type `ptr` that has no shape so far; the layout's name is where so much of the text was left.
#[tactic(auto, unfolding(crate::specs::ShapeForms::new_word, name_text::specs::Forms::skip))]
fn new_word(
    input: &mut Input<'_>,
    module: &Module,
    at: usize,
    layout: LayoutId,
) -> Result<u64, WordFault>
    ensures { Reads ((form.new_word «module».now at layout).read input.old) result input.new }
{
    let Some(word) = number_of_word(input.word()) else {
        return Err(WordFault::Syntax(input.left()));
    };
    if !input.read.shapes().is_pointer(layout, word as usize) {
        return Err(WordFault::Syntax(input.left()));
    }
    if input
        .read
        .shapes()
        .has_word_shape(name_of(module, layout), word as usize)
    {
        return Err(WordFault::Wrong(Mistake::ListedTwice(at)));
    }
    input.skip();
    Ok(word)
}

/// The shape of a word.
#[tactic(auto, unfolding(crate::specs::ShapeForms::word_line))]
fn word_line(alloc: Global, input: &mut Input<'_>, module: &Module) -> Result<(), WordFault>
    ensures { Reads ((form.word_line «module».now).read input.old) result input.new }
{
    input.expect(b"layout")?;
    let at = input.left();
    let layout = layout_name(alloc, input, module, Family::Opaque)?;
    let word = new_word(input, module, at, layout)?;
    let target = referred(alloc, input, module)?;
    input
        .read
        .shape_word(alloc, module, layout, word as usize, target);
    Ok(())
}

/// A global of type `ptr` that has no shape so far.
#[tactic(auto, unfolding(crate::specs::ShapeForms::new_global, name_text::specs::Forms::skip))]
fn new_global(alloc: Global, input: &mut Input<'_>, module: &Module) -> Result<SymbolId, WordFault>
    ensures { Reads ((form.new_global «module».now).read input.old) result input.new }
{
    match global_of_word(alloc, module, input.word())? {
        Naming::NoName => Err(WordFault::Syntax(input.left())),
        Naming::Unknown => Err(WordFault::Wrong(Mistake::UnknownName(input.left()))),
        Naming::Named(symbol) => {
            let symbol = SymbolId::new(symbol);
            if !is_opaque_global(module, symbol) {
                return Err(WordFault::Syntax(input.left()));
            }
            if input.read.shapes().has_global_shape(symbol) {
                return Err(WordFault::Wrong(Mistake::ListedTwice(input.left())));
            }
            input.skip();
            Ok(symbol)
        }
    }
}

/// The shape of a global.
#[tactic(auto, unfolding(crate::specs::ShapeForms::global_line))]
fn global_line(alloc: Global, input: &mut Input<'_>, module: &Module) -> Result<(), WordFault>
    ensures { Reads ((form.global_line «module».now).read input.old) result input.new }
{
    input.expect(b"global")?;
    let symbol = new_global(alloc, input, module)?;
    let target = referred(alloc, input, module)?;
    input.read.shape_global(symbol, target);
    Ok(())
}

/// A root slot of a function that has no shape so far.
#[tactic(auto, unfolding(crate::specs::ShapeForms::new_root, name_text::specs::Forms::skip))]
fn new_root(
    alloc: Global,
    input: &mut Input<'_>,
    number: u32,
    function: &Function,
) -> Result<ValueId, WordFault>
    ensures { Reads ((form.new_root number function.now).read input.old) result input.new }
{
    match value_of_word(alloc, function, input.word())? {
        Naming::NoName => Err(WordFault::Syntax(input.left())),
        Naming::Unknown => Err(WordFault::Wrong(Mistake::UnknownName(input.left()))),
        Naming::Named(slot) => {
            if !input
                .read
                .shapes()
                .is_root_slot(number as usize, ValueId::new(slot))
            {
                return Err(WordFault::Wrong(Mistake::UnknownName(input.left())));
            }
            if input.read.shapes().has_root_shape(function, slot as usize) {
                return Err(WordFault::Wrong(Mistake::ListedTwice(input.left())));
            }
            input.skip();
            Ok(ValueId::new(slot))
        }
    }
}

/// The shape of a root slot of a function.
fn root_in(
    alloc: Global,
    input: &mut Input<'_>,
    module: &Module,
    number: u32,
    function: &Function,
) -> Result<(), WordFault>
    ensures { Reads ((form.root_of «module».now number function.now).read input.old) result input.new }
{
    let slot = new_root(alloc, input, number, function)?;
    let target = referred(alloc, input, module)?;
    input.read.shape_root(alloc, function, slot, target)?;
    Ok(())
}

/// The shape of a root slot.
#[tactic(auto, unfolding(crate::specs::ShapeForms::root_line))]
fn root_line(alloc: Global, input: &mut Input<'_>, module: &Module) -> Result<(), WordFault>
    ensures { Reads ((form.root_line «module».now).read input.old) result input.new }
{
    input.expect(b"root")?;
    let number = a_function(alloc, input, module)?;
    match module.functions.get(number as usize) {
        None => Err(WordFault::Wrong(Mistake::UnknownName(input.left()))),
        Some(function) => root_in(alloc, input, module, number, function),
    }
}

/// The shape of a word, a global or a root slot.
#[tactic(auto, unfolding(crate::specs::ShapeForms::shape_line))]
fn shape_line(alloc: Global, input: &mut Input<'_>, module: &Module) -> Result<(), WordFault>
    ensures { Reads ((form.shape_line «module».now).read input.old) result input.new }
{
    if input.begins(b"layout") {
        word_line(alloc, input, module)
    } else if input.begins(b"global") {
        global_line(alloc, input, module)
    } else {
        root_line(alloc, input, module)
    }
}

fn past_shapes(input: &Input<'_>) -> bool
    ensures { result ≡ form.past_shapes input.now }
{
    !(input.begins(b"layout") || input.begins(b"global") || input.begins(b"root"))
}

/// Shapes.
#[tactic(auto, unfolding(crate::specs::ShapeForms::shape_lines))]
pub fn shape_lines(alloc: Global, input: &mut Input<'_>, module: &Module) -> Result<(), WordFault>
    ensures { Reads ((form.shape_lines «module».now).read input.old) result input.new }
{
    for _turn in 0..input.left() + 1 {
        if past_shapes(input) {
            return Ok(());
        }
        shape_line(alloc, input, module)?;
    }
    Ok(())
}

/// No shape is missing.
#[tactic(auto, unfolding(crate::specs::ShapeForms::none_missing))]
pub fn none_missing(
    input: &mut Input<'_>,
    module: &Module,
    draft: &ShapeDraft,
) -> Result<(), WordFault>
    ensures { Reads ((form.none_missing «module».now draft.now).read input.old) result input.new }
{
    match shapes_gap(draft, module) {
        None => Ok(()),
        Some(gap) => Err(WordFault::Wrong(gap)),
    }
}
