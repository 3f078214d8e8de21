//! The section of one function, read anew.
ghost use Rattle.std.specs.Prelude.{◌≡◌, ◌≢◌, ◌∷◌, [], None, IfOk, IfErr, Ok, Err};
ghost use Rattle.std.specs.Option.{option_copied};
ghost use Rattle.certificate.specs.Anew as form;
ghost use Rattle.certificate.specs.Anew.{start_anew, IsSection, IsSectionFault};
ghost use Rattle.certificate.specs.declared.fault.CertFault.{CertFault as AFault};
ghost use Rattle.certificate.specs.declared.fault.CertFault.TheVariants as fault;
ghost use Rattle.certs.specs.declared.section.Section.{Section as ASection};
ghost use Rattle.grammar.specs.Outcome.{Gives};
ghost use Rattle.grammar.specs.Whole.{value_of};
ghost use Rattle.name_text.specs.Reader.{Reads};
ghost use Rattle.name_text.specs.declared.found.WordFault.TheVariants.{Memory};

use crate::fault::CertFault;
use crate::input::{Input, WordFault};
use crate::mistake::Mistake;
use crate::naming::{Naming, function_of_word};
use crate::progress::{Kept, Progress};
use crate::reader::{placed, section_of};
use crate::shape_draft::ShapeDraft;
use certs::Section;
use ir_ast::{FuncId, Function, Module};
use std::alloc::{AllocError, Global};

/// Whether a word names this function.
fn is_function(function: FuncId, naming: Naming) -> bool
    ensures { result ≡ form.is_function function naming }
{
    match naming {
        Naming::Named(named) => named == function.number(),
        _ => false,
    }
}

/// The name of this function.
#[tactic(auto, unfolding(crate::specs::Anew::own_name, name_text::specs::Forms::skip))]
fn own_name(
    alloc: Global,
    input: &mut Input<'_>,
    module: &Module,
    function: FuncId,
) -> Result<(), WordFault>
    ensures { Reads ((form.own_name «module».now function).read input.old) result input.new }
{
    let naming = function_of_word(alloc, module, input.word())?;
    if !is_function(function, naming) {
        return Err(WordFault::Syntax(input.left()));
    }
    input.skip();
    Ok(())
}

/// The section of this function after its name.
fn own_section(
    alloc: Global,
    input: &mut Input<'_>,
    module: &Module,
    function: Option<&Function>,
) -> Result<(), WordFault>
    ensures { Reads ((form.own_section «module».now (option_copied function.entry)).read input.old) result input.new }
{
    match function {
        None => Err(WordFault::Wrong(Mistake::UnknownName(input.left()))),
        Some(function) => section_of(alloc, input, module, FuncId::new(0), function),
    }
}

/// The section, where nothing of it is missing.
#[tactic(auto, unfolding(crate::specs::Anew::finished_anew))]
fn finished_anew(
    alloc: Global,
    input: &mut Input<'_>,
    function: FuncId,
) -> Result<Section, WordFault>
    ensures { Reads ((form.finished_anew function).read input.old) result input.new }
{
    let function = function.number() as usize;
    match input.read.take_sections(alloc).into_iter().next() {
        Some(Some(kept)) => match kept.missing {
            None => Ok(kept.section),
            Some(block) => Err(WordFault::Wrong(Mistake::MissingBlock(function, block))),
        },
        _ => Err(WordFault::Wrong(Mistake::Missing(function))),
    }
}

/// A text of one section.
#[tactic(auto, unfolding(crate::specs::Anew::file_anew))]
fn file_anew(
    alloc: Global,
    input: &mut Input<'_>,
    module: &Module,
    function: FuncId,
) -> Result<Section, WordFault>
    ensures { Reads ((form.file_anew «module».now function).read input.old) result input.new }
{
    input.expect(b"function")?;
    own_name(alloc, input, module, function)?;
    own_section(
        alloc,
        input,
        module,
        module.functions.get(function.number() as usize),
    )?;
    if !input.ended() {
        return Err(WordFault::Syntax(input.left()));
    }
    finished_anew(alloc, input, function)
}

/// The one function has no section.
fn no_section(alloc: Global) -> Result<Vec<Option<Kept>>, AllocError>
    ensures { IfOk result (λ sections. sections.items ≡ None ∷ []) }
{
    let mut sections = Vec::new(alloc);
    sections.push(None)?;
    Ok(sections)
}

fn section_of_text(
    alloc: Global,
    bytes: &[u8],
    module: &Module,
    function: FuncId,
) -> Result<Section, WordFault>
    ensures { Gives Memory result (value_of ((form.file_anew «module».now function).read (start_anew bytes.now))) }
{
    let sections = no_section(alloc)?;
    let mut input = Input::new(
        bytes,
        Progress::new(alloc, sections, ShapeDraft::none(alloc)),
    );
    let section = file_anew(alloc, &mut input, module, function);
    drop(input);
    section
}

/// Reads the section of one function of a module from a text of its own: a section of this function and nothing else.
pub fn read_section(
    alloc: Global,
    bytes: &[u8],
    module: &Module,
    function: FuncId,
) -> Result<Section, CertFault>
    // What is read is this section of this text.
    ensures found { IfOk result (λ section. IsSection bytes.now «module».now function section) }
    // The section of a text is read, unless memory runs out.
    ensures only { (section : ASection) → IsSection bytes.now «module».now function section → Gives fault.Memory result (Ok section) }
    // What is refused is refused for its first fault.
    ensures fault { IfErr result (λ e. e ≢ fault.Memory → IsSectionFault bytes.now «module».now function e) }
    // What has a first fault is refused for it, unless memory runs out.
    ensures only_fault { (e : AFault) → IsSectionFault bytes.now «module».now function e → Gives fault.Memory result (Err e) }
{
    match section_of_text(alloc, bytes, module, function) {
        Ok(section) => Ok(section),
        Err(found) => Err(placed(bytes, found)),
    }
}
