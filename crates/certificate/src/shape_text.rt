//! A text of shapes.
ghost use Rattle.std.specs.Prelude.{◌≡◌, ◌≢◌, IfOk, IfErr, Ok, Err};
ghost use Rattle.certificate.specs.Input.{start_of};
ghost use Rattle.certificate.specs.ShapeForms as form;
ghost use Rattle.certificate.specs.ShapeText.{AreShapes, IsShapesFault};
ghost use Rattle.certificate.specs.Starts.{AreBegun};
ghost use Rattle.certificate.specs.declared.fault.CertFault.{CertFault as AFault};
ghost use Rattle.certificate.specs.declared.fault.CertFault.TheVariants as fault;
ghost use Rattle.certificate.specs.declared.given_shapes.GivenShapes.{GivenShapes as SomeGiven};
ghost use Rattle.certificate.specs.declared.shape_draft.ShapeDraft.{ShapeDraft as ADraft};
ghost use Rattle.grammar.specs.Outcome.{Gives};
ghost use Rattle.grammar.specs.Whole.{value_of};
ghost use Rattle.name_text.specs.Reader.{Reads};
ghost use Rattle.name_text.specs.declared.found.WordFault.TheVariants.{Memory};

use crate::fault::CertFault;
use crate::given_shapes::GivenShapes;
use crate::input::{Input, WordFault};
use crate::mistake::Mistake;
use crate::number_forms::layout_numbers;
use crate::progress::Progress;
use crate::reader::{no_sections, placed};
use crate::shape_draft::ShapeDraft;
use crate::shape_forms::{none_missing, shape_lines};
use crate::starts::shapes_begun;
use ir_ast::{Module, Shapes};
use name_text::is_number;
use std::alloc::Global;

/// The number of the format's version.
#[tactic(auto, unfolding(crate::specs::ShapeForms::version, name_text::specs::Forms::skip))]
fn version(input: &mut Input<'_>) -> Result<(), WordFault>
    ensures { Reads (form.version.read input.old) result input.new }
{
    if !is_number(input.word()) {
        return Err(WordFault::Syntax(input.left()));
    }
    if !input.begins(b"1") {
        return Err(WordFault::Wrong(Mistake::Version(input.left())));
    }
    input.skip();
    Ok(())
}

/// Shapes up to the text's end, of which none is missing.
#[tactic(auto, unfolding(crate::specs::ShapeForms::whole, crate::specs::ShapeForms::taken_shapes))]
fn whole(alloc: Global, input: &mut Input<'_>, module: &Module) -> Result<Shapes, WordFault>
    ensures { Reads ((form.whole «module».now).read input.old) result input.new }
{
    shape_lines(alloc, input, module)?;
    if !input.ended() {
        return Err(WordFault::Syntax(input.left()));
    }
    let draft = input.read.take_shapes(alloc);
    none_missing(input, module, &draft)?;
    Ok(draft.shapes)
}

#[tactic(auto, unfolding(crate::specs::ShapeForms::text))]
fn text(alloc: Global, input: &mut Input<'_>, module: &Module) -> Result<GivenShapes, WordFault>
    ensures { Reads ((form.text «module».now).read input.old) result input.new }
{
    input.expect(b"shapes")?;
    version(input)?;
    input.line_end()?;
    let numbers = layout_numbers(alloc, input, module)?;
    let shapes = whole(alloc, input, module)?;
    Ok(GivenShapes { shapes, numbers })
}

fn shapes_in(
    alloc: Global,
    bytes: &[u8],
    module: &Module,
    begun: ShapeDraft,
) -> Result<GivenShapes, WordFault>
    ensures { Gives Memory result (value_of ((form.text «module».now).read (start_of «module».now begun bytes.now))) }
{
    let sections = no_sections(alloc, module)?;
    let mut input = Input::new(bytes, Progress::new(alloc, sections, begun));
    let shapes = text(alloc, &mut input, module);
    drop(input);
    shapes
}

/// Reads the shapes of a text before which these are begun.
fn shapes_after(
    alloc: Global,
    bytes: &[u8],
    module: &Module,
    begun: ShapeDraft,
) -> Result<GivenShapes, CertFault>
    requires begun { AreBegun «module».now begun }
    ensures found { IfOk result (AreShapes bytes.now «module».now) }
    ensures only { (shapes : SomeGiven) → AreShapes bytes.now «module».now shapes → Gives fault.Memory result (Ok shapes) }
    ensures fault { IfErr result (λ e. e ≢ fault.Memory → IsShapesFault bytes.now «module».now e) }
    ensures only_fault { (e : AFault) → IsShapesFault bytes.now «module».now e → Gives fault.Memory result (Err e) }
{
    match shapes_in(alloc, bytes, module, begun) {
        Ok(shapes) => Ok(shapes),
        Err(found) => Err(placed(bytes, found)),
    }
}

/// Reads the shapes of a module from a text of their own, with numbers of layouts.
pub fn read_shapes(alloc: Global, bytes: &[u8], module: &Module) -> Result<GivenShapes, CertFault>
    // What is read is a text of these shapes.
    ensures found { IfOk result (AreShapes bytes.now «module».now) }
    // What is a text of some shapes is read, unless memory runs out.
    ensures only { (shapes : SomeGiven) → AreShapes bytes.now «module».now shapes → Gives fault.Memory result (Ok shapes) }
    // What is refused is refused for its first fault.
    ensures fault { IfErr result (λ e. e ≢ fault.Memory → IsShapesFault bytes.now «module».now e) }
    // What has a first fault is refused for it, unless memory runs out.
    ensures only_fault { (e : AFault) → IsShapesFault bytes.now «module».now e → Gives fault.Memory result (Err e) }
{
    match shapes_begun(alloc, module) {
        Ok(begun) => shapes_after(alloc, bytes, module, begun),
        Err(_refused) => Err(CertFault::Memory),
    }
}
