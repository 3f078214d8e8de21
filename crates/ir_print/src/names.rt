//! The text of labels, and of the names of structs with their sign.
ghost use Rattle.std.specs.Prelude.{◌≡◌, ◌++◌, OnOk};
ghost use Rattle.ir_print.specs.Names as spec;

use ir_ast::{Module, Names, StructNameId, ValueId};
use name_text::{Blank, put_key, put_name};
use std::alloc::AllocError;

/// A local name without its sign, as it is printed in a label.
pub fn put_label(out: &mut Vec<u8>, locals: &Names, label: ValueId) -> Result<(), AllocError>
    ensures { OnOk result (out.new.items ≡ out.old.items ++ spec.key_text (spec.name_at locals.now label)) }
{
    put_key(out, locals.name_at(label.number() as usize), Blank::Kept)
}

/// The name of a struct with its sign.
pub fn put_struct_name(
    out: &mut Vec<u8>,
    module: &Module,
    name: StructNameId,
) -> Result<(), AllocError>
    ensures { OnOk result (out.new.items ≡ out.old.items ++ spec.struct_text «module».now name) }
{
    out.push(b'%')?;
    put_name(
        out,
        module.struct_names.name_at(name.number() as usize),
        Blank::Kept,
    )
}
