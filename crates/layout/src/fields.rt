//! The scalar fields of each struct.
ghost use Rattle.std.specs.Prelude.{◌≡◌, map, IfOk};
ghost use Rattle.layout.specs.FieldRows.{AreFieldRows};
ghost use Rattle.layout.specs.Survey.{IsSettled, struct_fields};

use crate::struct_words::{fields_at, span_of};
use crate::survey::Survey;
use ir_ast::{Module, StructType, TypeId};
use items::Items;
use std::alloc::{AllocError, Global};

fn field_row(
    alloc: Global,
    survey: &Survey,
    named: &StructType,
) -> Result<Items<TypeId>, AllocError>
    ensures { IfOk result (λ row. row ≡ struct_fields survey.now.marks survey.now.fields.items named.now) }
{
    let span = span_of(survey.mark(named.body));
    Items::from_slice(alloc, fields_at(survey.fields.as_slice(), span))
}

fn rows_of(
    alloc: Global,
    survey: &Survey,
    structs: &[StructType],
) -> Result<Items<Items<TypeId>>, AllocError>
    ensures { IfOk result (λ rows. rows ≡ map (struct_fields survey.now.marks survey.now.fields.items) structs.now) }
{
    let mut rows = Items::new(alloc);
    for named in structs {
        rows.push(field_row(alloc, survey, named)?)?;
    }
    Ok(rows)
}

/// The scalar fields of each struct, by the numbers of the structs. The row of a struct that has no words is empty.
#[tactic(auto, using(crate::proofs::FieldRows::are_rows))]
pub fn field_rows(alloc: Global, module: &Module) -> Result<Items<Items<TypeId>>, AllocError>
    ensures { IfOk result (AreFieldRows «module».now) }
{
    let survey = Survey::of(alloc, module)?;
    rows_of(alloc, &survey, module.structs.as_slice())
}
