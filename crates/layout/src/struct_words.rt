ghost use Rattle.std.specs.Prelude.{◌≡◌, ◌≢◌, ◌⊎◌, List, length, map, position, Some, Ok, Err, IfOk, IfErr};
ghost use Rattle.layout.specs.Jumps.{AreOver};
ghost use Rattle.layout.specs.Layouts.{AreLayouts, AreSizes, IsLayoutFault, wants_shapes};
ghost use Rattle.layout.specs.Words.{shapes_of, some_nowhere};
ghost use Rattle.layout.specs.Survey.{IsSettled, is_endless, is_large, struct_is_endless, struct_is_large, points_nowhere, known_word, known_words, words_of, first_fault, span_of, size_in, mark_at, fields_at, IsWithin};
ghost use Rattle.layout.specs.declared.fault.LayoutFault.{LayoutFault as AFault};
ghost use Rattle.layout.specs.declared.fault.LayoutFault.TheVariants.{Memory};
ghost use Rattle.pools.specs.declared.word_kind.WordKind.{WordKind as AWord};

use crate::fault::LayoutFault;
use crate::ring::first_ring;
use crate::sizes::Sizes;
use crate::survey::{NO_FIELDS, SizeMark, Span, Survey};
use crate::word::shaped_word;
use ir_ast::{IrType, Module, StructType, TypeId, shape_at};
use items::Items;
use pools::{LayoutId, Layouts, WordKind};
use std::alloc::{AllocError, Global};

/// What a field holds, where it is a word.
fn known_word(module: &Module, shape: Option<LayoutId>, field: TypeId) -> WordKind
    ensures { result ≡ known_word «module».now shape field }
{
    shaped_word(module, shape, field).unwrap_or(WordKind::Integer(64))
}

/// The shapes of a struct's words.
fn shapes_of<'a>(module: &'a Module, named: &StructType) -> &'a [Option<LayoutId>]
    ensures { result.now ≡ shapes_of «module».now named.now }
{
    module.word_shapes(named.name)
}

/// Whether some of these scalar fields is no word.
fn some_nowhere(module: &Module, shapes: &[Option<LayoutId>], fields: &[TypeId]) -> bool
    ensures { result ≡ some_nowhere «module».now shapes.now 0 fields.now }
{
    let mut place = 0;
    for field in fields {
        if shaped_word(module, shape_at(shapes, place), *field).is_none() {
            return true;
        }
        place += 1;
    }
    false
}

fn struct_is_endless(survey: &Survey, named: &StructType) -> bool
    ensures { result ≡ struct_is_endless survey.now.marks named.now }
{
    match survey.mark(named.body) {
        SizeMark::Endless => true,
        _ => false,
    }
}

fn struct_is_large(survey: &Survey, named: &StructType) -> bool
    ensures { result ≡ struct_is_large survey.now.marks named.now }
{
    match survey.mark(named.body) {
        SizeMark::Large => true,
        _ => false,
    }
}

pub(crate) fn span_of(mark: SizeMark) -> Span
    ensures { result ≡ span_of mark }
{
    match mark {
        SizeMark::Known(span) => span,
        _ => NO_FIELDS,
    }
}

fn points_nowhere(survey: &Survey, module: &Module, named: &StructType) -> bool
    ensures { result ≡ points_nowhere «module».now survey.now.marks survey.now.fields.items named.now }
{
    let span = span_of(survey.mark(named.body));
    some_nowhere(
        module,
        shapes_of(module, named),
        fields_at(survey.fields.as_slice(), span),
    )
}

/// The fields at a span, as far as they are there.
#[tactic(auto, using(crate::proofs::Spans::part_is))]
pub(crate) fn fields_at(fields: &[TypeId], span: Span) -> &[TypeId]
    ensures { result.now ≡ fields_at fields.now span }
{
    let rest = &fields[span.start.min(fields.len())..];
    &rest[..span.count.min(rest.len())]
}

/// The words of some fields, by their shapes.
fn words_at(
    alloc: Global,
    module: &Module,
    shapes: &[Option<LayoutId>],
    fields: &[TypeId],
) -> Result<Items<WordKind>, AllocError>
    ensures { IfOk result (λ words. words ≡ known_words «module».now shapes.now 0 fields.now) }
{
    let mut words = Items::new(alloc);
    for field in fields {
        let place = words.len();
        words.push(known_word(module, shape_at(shapes, place), *field))?;
    }
    Ok(words)
}

fn words_of(
    alloc: Global,
    survey: &Survey,
    module: &Module,
    named: &StructType,
) -> Result<Items<WordKind>, AllocError>
    requires settled { IsSettled «module».now survey.now.marks survey.now.fields.items }
    ensures { IfOk result (λ words. words ≡ words_of «module».now survey.now.marks survey.now.fields.items named.now) }
{
    let span = span_of(survey.mark(named.body));
    words_at(
        alloc,
        module,
        shapes_of(module, named),
        fields_at(survey.fields.as_slice(), span),
    )
}

fn all_words(
    alloc: Global,
    survey: &Survey,
    module: &Module,
    structs: &[StructType],
) -> Result<Layouts, AllocError>
    requires settled { IsSettled «module».now survey.now.marks survey.now.fields.items }
    ensures { IfOk result (λ layouts. layouts ≡ map (words_of «module».now survey.now.marks survey.now.fields.items) structs.now) }
{
    let mut layouts = Layouts::new(alloc);
    for named in structs {
        layouts.push(words_of(alloc, survey, module, named)?)?;
    }
    Ok(layouts)
}

fn first_endless(survey: &Survey, structs: &[StructType]) -> Option<usize>
    ensures { result ≡ position (struct_is_endless survey.now.marks) structs.now }
{
    structs
        .iter()
        .position(|named| struct_is_endless(survey, named))
}

fn first_large(survey: &Survey, structs: &[StructType]) -> Option<usize>
    ensures { result ≡ position (struct_is_large survey.now.marks) structs.now }
{
    structs
        .iter()
        .position(|named| struct_is_large(survey, named))
}

fn first_nowhere(survey: &Survey, module: &Module, structs: &[StructType]) -> Option<usize>
    ensures { result ≡ position (points_nowhere «module».now survey.now.marks survey.now.fields.items) structs.now }
{
    structs
        .iter()
        .position(|named| points_nowhere(survey, module, named))
}

/// Whether a type is `ptr`, and there are no shapes.
pub fn wants_shapes(module: &Module) -> bool
    ensures { result ≡ wants_shapes «module».now }
{
    module.shapes.is_none() && module.types.find(IrType::Opaque).is_some()
}

/// The first fault in the layouts of a module.
fn first_fault(survey: &Survey, module: &Module) -> Option<LayoutFault>
    ensures { result ≡ first_fault «module».now survey.now.marks survey.now.fields.items }
{
    if wants_shapes(module) {
        return Some(LayoutFault::ShapesWanted);
    }
    let structs = module.structs.as_slice();
    if let Some(number) = first_endless(survey, structs) {
        return Some(LayoutFault::HoldsItself(number));
    }
    if let Some(number) = first_large(survey, structs) {
        return Some(LayoutFault::TooManyWords(number));
    }
    match first_nowhere(survey, module, structs) {
        Some(number) => Some(LayoutFault::NoSuchLayout(number)),
        None => None,
    }
}

/// The first fault, at the first struct that holds itself where it is a struct that has no end.
fn at_ring(
    alloc: Global,
    survey: &Survey,
    module: &Module,
    fault: LayoutFault,
) -> Result<LayoutFault, AllocError>
    requires settled { IsSettled «module».now survey.now.marks survey.now.fields.items }
    requires first { first_fault «module».now survey.now.marks survey.now.fields.items ≡ Some fault }
    ensures fault { IfOk result (IsLayoutFault «module».now) }
    ensures only_fault { (other : AFault) → IsLayoutFault «module».now other → IfOk result (λ found. found ≡ other) }
{
    match fault {
        LayoutFault::HoldsItself(number) => {
            let ring = first_ring(alloc, module)?;
            Ok(LayoutFault::HoldsItself(ring.unwrap_or(number)))
        }
        _ => Ok(fault),
    }
}

/// The words of each struct of a module, by what is known of its types.
#[tactic(auto, using(crate::proofs::Faults::laid_out, crate::proofs::Faults::only_layouts, crate::proofs::Faults::no_other_fault, crate::proofs::Faults::no_layouts))]
pub(crate) fn layouts_of(
    alloc: Global,
    survey: &Survey,
    module: &Module,
) -> Result<Layouts, LayoutFault>
    requires settled { IsSettled «module».now survey.now.marks survey.now.fields.items }
    ensures found { IfOk result (λ layouts. AreLayouts «module».now layouts) }
    ensures only { (layouts : List (List AWord)) → AreLayouts «module».now layouts → (result ≡ Ok layouts) ⊎ (result ≡ Err Memory) }
    ensures fault { IfErr result (λ fault. fault ≢ Memory → IsLayoutFault «module».now fault) }
    ensures only_fault { (fault : AFault) → IsLayoutFault «module».now fault → (result ≡ Err fault) ⊎ (result ≡ Err Memory) }
{
    if let Some(fault) = first_fault(survey, module) {
        return Err(at_ring(alloc, survey, module, fault)?);
    }
    Ok(all_words(alloc, survey, module, module.structs.as_slice())?)
}

fn size_in(mark: SizeMark) -> Option<u32>
    ensures { result ≡ size_in mark }
{
    match mark {
        SizeMark::Known(span) => Some(span.count.min(64) as u32),
        _ => None,
    }
}

/// How many words each type of the table has.
fn sizes_of(alloc: Global, survey: &Survey) -> Result<Items<Option<u32>>, AllocError>
    ensures { IfOk result (λ sizes. sizes ≡ map size_in survey.now.marks) }
{
    let mut sizes = Items::new(alloc);
    for mark in survey.marks.as_slice() {
        sizes.push(size_in(*mark))?;
    }
    Ok(sizes)
}

/// The words of each struct of a module, and how many words each type of its table has.
#[tactic(auto, using(crate::proofs::Faults::are_sizes))]
pub(crate) fn table(alloc: Global, module: &Module) -> Result<(Layouts, Sizes), LayoutFault>
    ensures found { IfOk result (λ table. AreLayouts «module».now table.0 × AreSizes «module».now table.1.each × AreOver «module».now.types table.1.each table.1.jumps) }
    ensures fault { IfErr result (λ fault. fault ≢ Memory → IsLayoutFault «module».now fault) }
    ensures refused_only_so { (words : List (List AWord)) → AreLayouts «module».now words → IfErr result (λ fault. fault ≡ Memory) }
{
    let survey = Survey::of(alloc, module)?;
    let layouts = layouts_of(alloc, &survey, module)?;
    let each = sizes_of(alloc, &survey)?;
    let sizes = Sizes::of(alloc, &module.types, each)?;
    Ok((layouts, sizes))
}

/// The words of each struct of a module. Of several faults that shapes are wanted goes first. A struct that holds itself goes before one of too many words, and that before one
/// with a word that points to no named struct. Each is found at the first such struct in text order. The section of the LLVM Language Reference
/// is 'Structure Type'.
pub fn layouts(alloc: Global, module: &Module) -> Result<Layouts, LayoutFault>
    ensures found { IfOk result (λ layouts. AreLayouts «module».now layouts) }
    ensures only { (layouts : List (List AWord)) → AreLayouts «module».now layouts → (result ≡ Ok layouts) ⊎ (result ≡ Err Memory) }
    ensures fault { IfErr result (λ fault. fault ≢ Memory → IsLayoutFault «module».now fault) }
    ensures only_fault { (fault : AFault) → IsLayoutFault «module».now fault → (result ≡ Err fault) ⊎ (result ≡ Err Memory) }
{
    let survey = Survey::of(alloc, module)?;
    layouts_of(alloc, &survey, module)
}
