//! Certificates of the opaque text of a module.
ghost use Rattle.std.specs.Prelude.{◌≡◌, ◌⊎◌, Some, slice_get, IfOk, Err};
ghost use Rattle.certificate.specs.Migrated as spec;
ghost use Rattle.certificate.specs.Migrated.{IsMigration};
ghost use Rattle.certificate.specs.declared.fault.CertFault.TheVariants as fault;
ghost use Rattle.copies.specs.Opaque.{opaque_module};

use crate::fault::CertFault;
use crate::input::WordFault;
use crate::reader::placed;
use crate::replaced::{copied_blocks, copied_certs, copied_section};
use crate::shape_draft::shapes_gap;
use crate::typed_shapes::typed_draft;
use certs::{Certs, Promise, Section, is_opaque_text};
use copies::{copy_outside, opaque};
use ir_ast::{Function, Module, Parameter, Shapes, TypeId};
use items::Items;
use layout::field_rows;
use pools::LayoutId;
use std::alloc::{AllocError, Global};
use types::is_reference;

/// What is promised of a reference to this layout: `ref L` is added where it lacks, but not to an address outside.
fn with_layout(layout: LayoutId, promise: Promise) -> Promise
    ensures { result ≡ spec.with_layout layout promise }
{
    if promise.number {
        return promise;
    }
    Promise {
        layout: Some(promise.layout.unwrap_or(layout)),
        nonnull: promise.nonnull,
        below: promise.below,
        number: false,
    }
}

/// What is promised of a value that refers to this layout, if it does.
fn with_reference(layout: Option<LayoutId>, promise: Option<Promise>) -> Option<Promise>
    ensures { result ≡ spec.with_reference layout promise }
{
    match (layout, promise) {
        (None, _) => promise,
        (Some(layout), None) => Some(Promise {
            layout: Some(layout),
            nonnull: false,
            below: None,
            number: false,
        }),
        (Some(layout), Some(promise)) => Some(with_layout(layout, promise)),
    }
}

fn parameter_layout(module: &Module, parameters: &[Parameter], number: usize) -> Option<LayoutId>
    ensures { result ≡ spec.parameter_layout «module».now (slice_get parameters.now number) }
{
    match parameters.get(number) {
        Some(parameter) => is_reference(module, parameter.written),
        None => None,
    }
}

fn migrated_parameters(
    alloc: Global,
    module: &Module,
    parameters: &[Parameter],
    promises: &[Option<Promise>],
) -> Result<Items<Option<Promise>>, AllocError>
    ensures { IfOk result (λ migrated. migrated ≡ spec.parameters_from «module».now parameters.now 0 promises.now) }
{
    let mut migrated = Items::new(alloc);
    for promise in promises {
        let layout = parameter_layout(module, parameters, migrated.len());
        migrated.push(with_reference(layout, *promise))?;
    }
    Ok(migrated)
}

fn migrated_section(
    alloc: Global,
    module: &Module,
    function: &Function,
    section: &Section,
) -> Result<Section, AllocError>
    ensures { IfOk result (λ migrated. migrated ≡ spec.migrated_section «module».now function.now section.now) }
{
    let parameters = migrated_parameters(
        alloc,
        module,
        function.parameters.as_slice(),
        section.parameters.as_slice(),
    )?;
    let blocks = copied_blocks(alloc, section.blocks.as_slice())?;
    let layout = is_reference(module, function.returned);
    Ok(Section {
        mark: section.mark,
        parameters,
        result: with_reference(layout, section.result),
        blocks,
    })
}

fn migrated_section_at(
    alloc: Global,
    module: &Module,
    number: usize,
    section: &Section,
) -> Result<Section, AllocError>
    ensures { IfOk result (λ migrated. migrated ≡ spec.migrated_section_in «module».now (slice_get «module».now.functions number) section.now) }
{
    match module.functions.get(number) {
        Some(function) => migrated_section(alloc, module, function, section),
        None => copied_section(alloc, section),
    }
}

fn migrated_sections(
    alloc: Global,
    module: &Module,
    sections: &[Section],
) -> Result<Items<Section>, AllocError>
    ensures { IfOk result (λ migrated. migrated ≡ spec.sections_from «module».now 0 sections.now) }
{
    let mut migrated = Items::new(alloc);
    for section in sections {
        let number = migrated.len();
        migrated.push(migrated_section_at(alloc, module, number, section)?)?;
    }
    Ok(migrated)
}

/// Certificates with these shapes.
fn with_shapes(
    alloc: Global,
    certs: &Certs,
    module: &Module,
    shapes: Shapes,
) -> Result<Certs, AllocError>
    ensures { IfOk result (λ migrated. migrated ≡ record { sections = spec.sections_from «module».now 0 certs.now.sections; shapes = Some shapes; foreign = certs.now.foreign }) }
{
    let sections = migrated_sections(alloc, module, certs.sections.as_slice())?;
    let foreign = copy_outside(alloc, &certs.foreign)?;
    Ok(Certs {
        sections,
        shapes: Some(shapes),
        foreign,
    })
}

/// Certificates with the shapes that the types say, or the first shape that none says.
fn migrated_typed(
    alloc: Global,
    certs: &Certs,
    module: &Module,
    opaque: &Module,
    rows: &[Items<TypeId>],
) -> Result<Result<Certs, CertFault>, AllocError>
    ensures { IfOk result (λ answer. answer ≡ spec.migrated_typed «module».now opaque.now rows.now certs.now) }
{
    let draft = typed_draft(alloc, module, opaque, rows)?;
    match shapes_gap(&draft, opaque) {
        Some(gap) => {
            drop(draft);
            Ok(Err(placed(&[], WordFault::Wrong(gap))))
        }
        None => {
            let migrated = with_shapes(alloc, certs, module, draft.into_shapes())?;
            Ok(Ok(migrated))
        }
    }
}

/// Whether a text writes typed pointers, and no `ptr`. Its opaque text is given.
pub fn is_typed_text(module: &Module, opaque: &Module) -> bool
    ensures { result ≡ spec.is_typed_text «module».now opaque.now }
{
    !is_opaque_text(module) && is_opaque_text(opaque)
}

/// What comes of certificates, where the module has this opaque text, and these are the scalar fields of each struct.
fn answer_of_text(
    alloc: Global,
    certs: &Certs,
    module: &Module,
    opaque: &Module,
    rows: &[Items<TypeId>],
) -> Result<Result<Certs, CertFault>, AllocError>
    requires { opaque.now ≡ opaque_module «module».now }
    ensures { IfOk result (λ answer. answer ≡ spec.migrated_certs «module».now rows.now certs.now) }
{
    if is_typed_text(module, opaque) {
        migrated_typed(alloc, certs, module, opaque, rows)
    } else {
        Ok(Ok(copied_certs(alloc, certs)?))
    }
}

/// What comes of certificates, where these are the scalar fields of each struct.
fn answer_by(
    alloc: Global,
    certs: &Certs,
    module: &Module,
    rows: &[Items<TypeId>],
) -> Result<Result<Certs, CertFault>, AllocError>
    ensures { IfOk result (λ answer. answer ≡ spec.migrated_certs «module».now rows.now certs.now) }
{
    let made = opaque(alloc, module)?;
    let answer = answer_of_text(alloc, certs, module, &made, rows);
    drop(made);
    answer
}

fn answer(
    alloc: Global,
    certs: &Certs,
    module: &Module,
) -> Result<Result<Certs, CertFault>, AllocError>
    ensures { IfOk result (IsMigration «module».now certs.now) }
{
    let rows = field_rows(alloc, module)?;
    answer_by(alloc, certs, module, rows.as_slice())
}

/// Certificates of the opaque text of a module. What its types said stands in them: the shapes of words, globals and root slots, and `ref L`
/// of each parameter and result. All else is kept. A pointer whose type names no layout has no shape, and the first one is answered.
/// Certificates of a text without a typed pointer are answered as they are.
pub fn migrate(alloc: Global, certs: &Certs, module: &Module) -> Result<Certs, CertFault>
    ensures { (result ≡ Err fault.Memory) ⊎ IsMigration «module».now certs.now result }
{
    match answer(alloc, certs, module) {
        Ok(answer) => answer,
        Err(_) => Err(CertFault::Memory),
    }
}
