//! Types as they are written, of numbers and of pointers to named structs.
use crate::message::Message;
use ir_ast::{IrType, Module, TypeId};
use name_text::Blank;
use std::alloc::Global;
use types::pointee;

/// How many levels a type has at most.
const LEVELS: usize = 64;

fn put_struct(out: &mut Message, of_module: &Module, place: usize) {
    out.put("%");
    out.put_name(of_module.struct_names.name_at(place), Blank::Kept)
}

/// A type that is no pointer; `T` stands for an array or a struct without a name.
fn put_part(alloc: Global, out: &mut Message, of_module: &Module, part: &Option<IrType>) {
    match part {
        Some(IrType::Named(name)) => put_struct(out, of_module, name.number() as usize),
        Some(IrType::Integer(bits)) => {
            out.put("i");
            out.put_number(*bits as u64)
        }
        Some(IrType::Float) => out.put("float"),
        Some(IrType::Double) => out.put("double"),
        Some(IrType::Opaque) => out.put("ptr"),
        _ => out.put("T"),
    }
}

/// A type as it is written.
pub fn put_type(alloc: Global, out: &mut Message, of_module: &Module, written: TypeId) {
    let mut part = written;
    let mut stars: usize = 0;
    for _level in 0..LEVELS {
        if let Some(to) = pointee(of_module, part) {
            part = to;
            stars = stars.saturating_add(1);
        }
    }
    let found = of_module.types.get(part);
    put_part(alloc, out, of_module, &found);
    for _star in 0..stars {
        out.put("*");
    }
}
