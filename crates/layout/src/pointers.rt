//! Which words of each struct are of type `ptr`.
ghost use Rattle.std.specs.Prelude.{◌≡◌, map, IfOk};
ghost use Rattle.layout.specs.PointerRows.{ArePointerRows, pointer_row};
ghost use Rattle.layout.specs.Survey.{IsSettled};
ghost use Rattle.types.specs.References.{is_opaque};

use crate::struct_words::{fields_at, span_of};
use crate::survey::Survey;
use ir_ast::{Module, StructType, TypeId};
use items::Items;
use std::alloc::{AllocError, Global};
use types::is_opaque;

/// Whether each of these types is `ptr`.
fn opaque_among(
    alloc: Global,
    module: &Module,
    fields: &[TypeId],
) -> Result<Items<bool>, AllocError>
    ensures { IfOk result (λ row. row ≡ map (is_opaque «module».now) fields.now) }
{
    let mut row = Items::new(alloc);
    for field in fields {
        row.push(is_opaque(module, *field))?;
    }
    Ok(row)
}

fn pointer_row(
    alloc: Global,
    survey: &Survey,
    module: &Module,
    named: &StructType,
) -> Result<Items<bool>, AllocError>
    ensures { IfOk result (λ row. row ≡ pointer_row «module».now survey.now.marks survey.now.fields.items named.now) }
{
    let span = span_of(survey.mark(named.body));
    opaque_among(alloc, module, fields_at(survey.fields.as_slice(), span))
}

fn rows_of(
    alloc: Global,
    survey: &Survey,
    module: &Module,
) -> Result<Items<Items<bool>>, AllocError>
    ensures { IfOk result (λ rows. rows ≡ map (pointer_row «module».now survey.now.marks survey.now.fields.items) «module».now.structs) }
{
    let mut rows = Items::new(alloc);
    for named in module.structs.as_slice() {
        rows.push(pointer_row(alloc, survey, module, named)?)?;
    }
    Ok(rows)
}

/// Which words of each struct are of type `ptr`, by the numbers of the structs. The row of a struct that has no words is empty.
#[tactic(auto, using(crate::proofs::PointerRows::are_rows))]
pub fn pointer_rows(alloc: Global, module: &Module) -> Result<Items<Items<bool>>, AllocError>
    ensures { IfOk result (ArePointerRows «module».now) }
{
    let survey = Survey::of(alloc, module)?;
    rows_of(alloc, &survey, module)
}
