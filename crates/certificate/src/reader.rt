//! The reader of certificates.
ghost use Rattle.std.specs.Prelude.{◌≡◌, ◌≢◌, ◌+◌, None, true, map, slice_get, IfOk, IfErr, Ok, Err};
ghost use Rattle.certificate.specs.Drafts as drafts;
ghost use Rattle.certificate.specs.Drafts.{is_in};
ghost use Rattle.certs.specs.Fits.{fits};
ghost use Rattle.certs.specs.ForeignFit.{foreign_fits};
ghost use Rattle.certs.specs.ShapesFit.{shapes_fit};
ghost use Rattle.certs.specs.declared.certs.Certs.{Certs as SomeCerts};
ghost use Rattle.certificate.specs.Input.{start_of};
ghost use Rattle.name_text.specs.Reader.{Reads};
ghost use Rattle.certificate.specs.Named.{HasGlobals};
ghost use Rattle.certificate.specs.Starts.{AreStart};
ghost use Rattle.certificate.specs.Text as text;
ghost use Rattle.certificate.specs.Text.{IsCert, IsFault};
ghost use Rattle.grammar.specs.Outcome.{Gives};
ghost use Rattle.grammar.specs.Whole.{value_of};
ghost use Rattle.certificate.specs.declared.fault.CertFault.{CertFault as AFault};
ghost use Rattle.certificate.specs.declared.fault.CertFault.TheVariants as fault;
ghost use Rattle.name_text.specs.declared.found.WordFault.TheVariants.{Memory};

use crate::draft::{RequiredValue, SectionDraft};
use crate::facts::line;
use crate::fault::CertFault;
use crate::foreign_forms::foreign_names;
use crate::forms::{mark, new_block, new_function, new_parameter};
use crate::input::{Input, WordFault};
use crate::mistake::Mistake;
use crate::number_forms::layout_numbers;
use crate::progress::{Kept, Progress};
use crate::promises::promise;
use crate::shape_draft::ShapeDraft;
use crate::shape_forms::{none_missing, shape_lines};
use crate::starts::{goes_with, shapes_at_start};
use certs::{Certs, Promise, Section, family_of_type, family_of_value, is_opaque_text};
use ir_ast::{BlockId, FuncId, Function, Module, Outside, Shapes};
use items::Items;
use name_text::{is_number, place};
use std::alloc::{AllocError, Global};

/// The number of the version that goes with the module, and whether it is the one with shapes.
#[tactic(auto, unfolding(crate::specs::Text::version, name_text::specs::Forms::skip))]
fn version(input: &mut Input<'_>, module: &Module) -> Result<bool, WordFault>
    ensures { Reads ((text.version «module».now).read input.old) result input.new }
{
    if !is_number(input.word()) {
        return Err(WordFault::Syntax(input.left()));
    }
    if !goes_with(module, input.word()) {
        return Err(WordFault::Wrong(Mistake::Version(input.left())));
    }
    let shaped = input.begins(b"2");
    input.skip();
    Ok(shaped)
}

/// What is promised of a parameter.
#[tactic(auto, unfolding(crate::specs::Text::parameter))]
fn parameter(
    alloc: Global,
    input: &mut Input<'_>,
    module: &Module,
    function: &Function,
) -> Result<(), WordFault>
    ensures { Reads ((text.parameter «module».now function.now).read input.old) result input.new }
{
    input.expect(b"param")?;
    let value = new_parameter(alloc, input, function)?;
    let family = family_of_value(module, function, value);
    let Promise {
        layout,
        nonnull,
        below,
        number,
    } = promise(alloc, input, module, family)?;
    let promised = Promise {
        layout,
        nonnull,
        below,
        number,
    };
    input.read.promise(value.number() as usize, &promised);
    Ok(())
}

fn past_parameters(input: &Input<'_>) -> bool
    ensures { result ≡ text.past_parameters input.now }
{
    !input.begins(b"param")
}

#[tactic(auto, unfolding(crate::specs::Text::parameters))]
fn parameters(
    alloc: Global,
    input: &mut Input<'_>,
    module: &Module,
    function: &Function,
) -> Result<(), WordFault>
    ensures { Reads ((text.parameters «module».now function.now).read input.old) result input.new }
{
    for _turn in 0..input.left() + 1 {
        if past_parameters(input) {
            return Ok(());
        }
        parameter(alloc, input, module, function)?;
    }
    Ok(())
}

/// What is promised of the result, or nothing.
#[tactic(auto, unfolding(crate::specs::Text::result_line, name_text::specs::Forms::skip))]
fn result_line(
    alloc: Global,
    input: &mut Input<'_>,
    module: &Module,
    function: &Function,
) -> Result<Option<Promise>, WordFault>
    ensures { Reads ((text.result_line «module».now function.now).read input.old) result input.new }
{
    if !input.begins(b"result") {
        return Ok(None);
    }
    input.skip();
    let promised = promise(
        alloc,
        input,
        module,
        family_of_type(module, function.returned),
    )?;
    Ok(Some(promised))
}

fn past_lines(input: &Input<'_>) -> bool
    ensures { result ≡ text.past_lines input.now }
{
    let word = input.word();
    word == b"block".as_slice() || word == b"end".as_slice()
}

#[tactic(auto, unfolding(crate::specs::Text::lines))]
fn lines(
    alloc: Global,
    input: &mut Input<'_>,
    module: &Module,
    function: &Function,
    block: BlockId,
) -> Result<(), WordFault>
    ensures { Reads ((text.lines «module».now function.now block).read input.old) result input.new }
{
    for _turn in 0..input.left() + 1 {
        if past_lines(input) {
            return Ok(());
        }
        line(alloc, input, module, function, block)?;
    }
    Ok(())
}

fn lists(listed: &[Option<BlockId>], block: BlockId, wanted: RequiredValue) -> bool
    ensures { result ≡ is_in block (slice_get listed.now wanted.value) }
{
    match listed.get(wanted.value.number() as usize) {
        Some(Some(last)) => *last == block,
        _ => false,
    }
}

/// Where the first value is named that the block does not list.
fn first_unlisted(
    block: BlockId,
    listed: &[Option<BlockId>],
    wanted: &[RequiredValue],
) -> Option<usize>
    ensures { result ≡ drafts.first_unlisted block listed.now wanted.now }
{
    for wanted in wanted {
        if !lists(listed, block, *wanted) {
            return Some(wanted.left);
        }
    }
    None
}

/// The block lists each value that it has to list.
#[tactic(auto, unfolding(crate::specs::Text::all_listed))]
fn all_listed(input: &mut Input<'_>, block: BlockId) -> Result<(), WordFault>
    ensures { Reads ((text.all_listed block).read input.old) result input.new }
{
    let draft = input.read.draft();
    match first_unlisted(block, draft.values.as_slice(), draft.wanted.as_slice()) {
        None => Ok(()),
        Some(left) => Err(WordFault::Wrong(Mistake::UnknownName(left))),
    }
}

/// A block and its claims.
#[tactic(auto, unfolding(crate::specs::Text::block))]
fn block(
    alloc: Global,
    input: &mut Input<'_>,
    module: &Module,
    function: &Function,
) -> Result<(), WordFault>
    ensures { Reads ((text.block «module».now function.now).read input.old) result input.new }
{
    input.expect(b"block")?;
    let block = new_block(alloc, input, function)?;
    input.line_end()?;
    lines(alloc, input, module, function, block)?;
    all_listed(input, block)?;
    input.read.end_block(alloc, block);
    Ok(())
}

fn past_blocks(input: &Input<'_>) -> bool
    ensures { result ≡ text.past_blocks input.now }
{
    !input.begins(b"block")
}

#[tactic(auto, unfolding(crate::specs::Text::blocks))]
fn blocks(
    alloc: Global,
    input: &mut Input<'_>,
    module: &Module,
    function: &Function,
) -> Result<(), WordFault>
    ensures { Reads ((text.blocks «module».now function.now).read input.old) result input.new }
{
    for _turn in 0..input.left() + 1 {
        if past_blocks(input) {
            return Ok(());
        }
        block(alloc, input, module, function)?;
    }
    Ok(())
}

/// A section between its first line and its end.
#[tactic(auto, unfolding(crate::specs::Text::body, crate::specs::Forms::begin))]
fn body(
    alloc: Global,
    input: &mut Input<'_>,
    module: &Module,
    function: &Function,
) -> Result<Option<Promise>, WordFault>
    ensures { Reads ((text.body «module».now function.now).read input.old) result input.new }
{
    input.read.begin(alloc, module, function)?;
    parameters(alloc, input, module, function)?;
    let promised = result_line(alloc, input, module, function)?;
    blocks(alloc, input, module, function)?;
    Ok(promised)
}

/// A section after its function's name.
#[tactic(auto, unfolding(crate::specs::Text::section_of))]
pub fn section_of(
    alloc: Global,
    input: &mut Input<'_>,
    module: &Module,
    number: FuncId,
    function: &Function,
) -> Result<(), WordFault>
    ensures { Reads ((text.section_of «module».now number function.now).read input.old) result input.new }
{
    let mark = mark(input)?;
    input.line_end()?;
    let promised = body(alloc, input, module, function)?;
    input.expect(b"end")?;
    input.line_end()?;
    let promised = match promised {
        None => None,
        Some(
            Promise {
                layout,
                nonnull,
                below,
                number,
            },
        ) => Some(Promise {
            layout,
            nonnull,
            below,
            number,
        }),
    };
    input.read.end_section(alloc, number, mark, &promised);
    Ok(())
}

/// A section after its first word.
#[tactic(auto, unfolding(crate::specs::Text::section_after))]
fn section_after(alloc: Global, input: &mut Input<'_>, module: &Module) -> Result<(), WordFault>
    ensures { Reads ((text.section_after «module».now).read input.old) result input.new }
{
    let number = new_function(alloc, input, module)?;
    match module.functions.get(number.number() as usize) {
        None => Err(WordFault::Wrong(Mistake::UnknownName(input.left()))),
        Some(function) => section_of(alloc, input, module, number, function),
    }
}

#[tactic(auto, unfolding(crate::specs::Text::section))]
fn section(alloc: Global, input: &mut Input<'_>, module: &Module) -> Result<(), WordFault>
    ensures { Reads ((text.section «module».now).read input.old) result input.new }
{
    input.expect(b"function")?;
    section_after(alloc, input, module)
}

/// The sections up to the text's end.
#[tactic(auto, unfolding(crate::specs::Text::sections))]
fn sections(alloc: Global, input: &mut Input<'_>, module: &Module) -> Result<(), WordFault>
    ensures { Reads ((text.sections «module».now).read input.old) result input.new }
{
    for _turn in 0..input.left() + 1 {
        if input.ended() {
            return Ok(());
        }
        section(alloc, input, module)?;
    }
    Ok(())
}

fn sections_in(alloc: Global, kept: Vec<Option<Kept>>) -> Result<Items<Section>, AllocError>
    ensures { IfOk result (λ sections. sections ≡ text.sections_in kept.items) }
{
    let mut sections = Items::new(alloc);
    for kept in kept {
        if let Some(kept) = kept {
            sections.push(kept.section)?;
        }
    }
    Ok(sections)
}

/// What is missing of a function.
fn gap_of(function: usize, kept: &Option<Kept>) -> Option<Mistake>
    ensures { result ≡ text.gap_of function kept.now }
{
    match kept {
        None => Some(Mistake::Missing(function)),
        Some(kept) => {
            let block = kept.missing?;
            Some(Mistake::MissingBlock(function, block))
        }
    }
}

/// The first function or block without a section.
fn first_gap(sections: &[Option<Kept>]) -> Option<Mistake>
    ensures { result ≡ text.first_gap 0 sections.now }
{
    for (function, kept) in sections.iter().enumerate() {
        if let Some(gap) = gap_of(function, kept) {
            return Some(gap);
        }
    }
    None
}

/// The sections, where none is missing.
#[tactic(auto, unfolding(crate::specs::Text::finished))]
fn finished(alloc: Global, input: &mut Input<'_>) -> Result<Items<Section>, WordFault>
    ensures { Reads (text.finished.read input.old) result input.new }
{
    if let Some(gap) = first_gap(input.read.sections()) {
        return Err(WordFault::Wrong(gap));
    }
    let kept = input.read.take_sections(alloc);
    Ok(sections_in(alloc, kept)?)
}

/// What is said of the code outside: numbers of layouts, and functions that are trusted.
#[tactic(auto, unfolding(crate::specs::Text::outside_lines))]
fn outside_lines(
    alloc: Global,
    input: &mut Input<'_>,
    module: &Module,
) -> Result<Outside, WordFault>
    ensures { Reads ((text.outside_lines «module».now).read input.old) result input.new }
{
    let numbers = layout_numbers(alloc, input, module)?;
    let functions = foreign_names(alloc, input, module)?;
    Ok(Outside { functions, numbers })
}

/// Certificates after what is said of the code outside, without shapes.
#[tactic(auto, unfolding(crate::specs::Text::without_shapes))]
fn without_shapes(
    alloc: Global,
    input: &mut Input<'_>,
    module: &Module,
    foreign: Outside,
) -> Result<Certs, WordFault>
    ensures { Reads ((text.without_shapes «module».now foreign).read input.old) result input.new }
{
    sections(alloc, input, module)?;
    let sections = finished(alloc, input)?;
    Ok(Certs {
        sections,
        shapes: None,
        foreign,
    })
}

/// Of a typed text there are no shapes.
fn shapes_of(module: &Module, shapes: Shapes) -> Option<Shapes>
    ensures { result ≡ text.shapes_of «module».now shapes }
{
    if is_opaque_text(module) {
        Some(shapes)
    } else {
        None
    }
}

/// Certificates after what is said of the code outside, with shapes.
#[tactic(auto, unfolding(crate::specs::Text::with_shapes, crate::specs::ShapeForms::taken_shapes))]
fn with_shapes(
    alloc: Global,
    input: &mut Input<'_>,
    module: &Module,
    foreign: Outside,
) -> Result<Certs, WordFault>
    ensures { Reads ((text.with_shapes «module».now foreign).read input.old) result input.new }
{
    shape_lines(alloc, input, module)?;
    let draft = input.read.take_shapes(alloc);
    sections(alloc, input, module)?;
    none_missing(input, module, &draft)?;
    let sections = finished(alloc, input)?;
    Ok(Certs {
        sections,
        shapes: shapes_of(module, draft.shapes),
        foreign,
    })
}

#[tactic(auto, unfolding(crate::specs::Text::file))]
fn file(alloc: Global, input: &mut Input<'_>, module: &Module) -> Result<Certs, WordFault>
    ensures { Reads ((text.file «module».now).read input.old) result input.new }
{
    input.expect(b"cert")?;
    let shaped = version(input, module)?;
    input.line_end()?;
    let foreign = outside_lines(alloc, input, module)?;
    if shaped {
        with_shapes(alloc, input, module, foreign)
    } else {
        without_shapes(alloc, input, module, foreign)
    }
}

/// No function has a section.
pub(crate) fn no_sections(alloc: Global, module: &Module) -> Result<Vec<Option<Kept>>, AllocError>
    ensures { IfOk result (λ sections. sections.items ≡ map (λ _. None) «module».now.functions) }
{
    let mut sections = Vec::new(alloc);
    for _function in module.functions.as_slice() {
        sections.push(None)?;
    }
    Ok(sections)
}

fn certs_in(
    alloc: Global,
    bytes: &[u8],
    module: &Module,
    shapes: ShapeDraft,
) -> Result<Certs, WordFault>
    ensures { Gives Memory result (value_of ((text.file «module».now).read (start_of «module».now shapes bytes.now))) }
{
    let sections = no_sections(alloc, module)?;
    let mut input = Input::new(bytes, Progress::new(alloc, sections, shapes));
    let certs = file(alloc, &mut input, module);
    drop(input);
    certs
}

/// The fault with its line and column.
pub fn placed(bytes: &[u8], found: WordFault) -> CertFault
    ensures { result ≡ text.placed bytes.now found }
{
    match found {
        WordFault::Syntax(rest) => CertFault::Syntax(place(bytes, rest)),
        WordFault::Wrong(Mistake::Version(rest)) => CertFault::Version(place(bytes, rest)),
        WordFault::Wrong(Mistake::UnknownName(rest)) => CertFault::UnknownName(place(bytes, rest)),
        WordFault::Wrong(Mistake::ListedTwice(rest)) => CertFault::ListedTwice(place(bytes, rest)),
        WordFault::Wrong(Mistake::MissingWord(layout, word)) => {
            CertFault::MissingWord(layout, word)
        }
        WordFault::Wrong(Mistake::MissingGlobal(symbol)) => CertFault::MissingGlobal(symbol),
        WordFault::Wrong(Mistake::MissingRoot(function, slot)) => {
            CertFault::MissingRoot(function, slot)
        }
        WordFault::Wrong(Mistake::Missing(function)) => CertFault::Missing(function),
        WordFault::Wrong(Mistake::MissingBlock(function, block)) => CertFault::MissingBlock(
            function, block,
        ),
        WordFault::Memory => CertFault::Memory,
    }
}

/// Reads the certificates of a text before which these are the shapes.
fn certs_after(
    alloc: Global,
    bytes: &[u8],
    module: &Module,
    shapes: ShapeDraft,
) -> Result<Certs, CertFault>
    requires start { AreStart «module».now shapes }
    ensures found { IfOk result (IsCert bytes.now «module».now) }
    ensures only { (certs : SomeCerts) → IsCert bytes.now «module».now certs → Gives fault.Memory result (Ok certs) }
    ensures fault { IfErr result (λ e. e ≢ fault.Memory → IsFault bytes.now «module».now e) }
    ensures only_fault { (e : AFault) → IsFault bytes.now «module».now e → Gives fault.Memory result (Err e) }
{
    match certs_in(alloc, bytes, module, shapes) {
        Ok(certs) => Ok(certs),
        Err(found) => Err(placed(bytes, found)),
    }
}

/// Reads the certificates of a module.
pub fn read_cert(alloc: Global, bytes: &[u8], module: &Module) -> Result<Certs, CertFault>
    // What is read is a text of these certificates.
    ensures found { IfOk result (IsCert bytes.now «module».now) }
    // They are certificates of the module.
    ensures fits { IfOk result (λ certs. fits «module».now certs.sections ≡ true) }
    // Those of an opaque text have its shapes, those of a typed text none.
    ensures shapes { HasGlobals «module».now → IfOk result (λ certs. shapes_fit «module».now certs.shapes ≡ true) }
    // They trust functions outside of the module alone, each once, and number its layouts, each once; and so only where the wide forms may stand.
    ensures foreign { IfOk result (λ certs. foreign_fits «module».now certs.foreign ≡ true) }
    // What is a text of some certificates is read, unless memory runs out.
    ensures only { (certs : SomeCerts) → IsCert bytes.now «module».now certs → Gives fault.Memory result (Ok certs) }
    // What is refused is refused for its first fault.
    ensures fault { IfErr result (λ e. e ≢ fault.Memory → IsFault bytes.now «module».now e) }
    // What has a first fault is refused for it, unless memory runs out.
    ensures only_fault { (e : AFault) → IsFault bytes.now «module».now e → Gives fault.Memory result (Err e) }
{
    match shapes_at_start(alloc, module) {
        Ok(shapes) => certs_after(alloc, bytes, module, shapes),
        Err(_refused) => Err(CertFault::Memory),
    }
}
