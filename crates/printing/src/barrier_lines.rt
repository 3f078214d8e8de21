//! The lines of llvm.gcwrite in place of a store, in a text with typed pointers: the casts that it takes, and the call.
use crate::told::{Told, put_operand, put_type_or, type_of};
use diagnosis::local;
use ir_ast::{Constant, IrType, Module, Operand, TypeId, ValueId};
use messages::{CODE_MARGIN, Message, put_new_name};
use types::pointee;

/// An operand of the call: a reference, or the place.
#[derive(Clone, Copy)]
struct Given {
    operand: Operand,
    /// The type that it has.
    has: Option<TypeId>,
    is_place: bool,
}

/// The type that an operand is to have.
fn wanted(given: &Given) -> &'static str {
    if given.is_place { "i8**" } else { "i8*" }
}

/// Whether a type is `i8*`.
fn is_bytes(module: &Module, written: TypeId) -> bool {
    match pointee(module, written) {
        Some(part) => matches!(module.types.get(part), Some(IrType::Integer(8))),
        None => false,
    }
}

/// Whether an operand of this type is given as it is.
fn is_wanted(module: &Module, has: TypeId, is_place: bool) -> bool {
    if !is_place {
        return is_bytes(module, has);
    }
    match pointee(module, has) {
        Some(part) => is_bytes(module, part),
        None => false,
    }
}

/// The value that has to be cast.
fn uncast(told: &Told, given: &Given) -> Option<ValueId> {
    let value = local(given.operand)?;
    if is_wanted(told.module(), given.has?, given.is_place) {
        None
    } else {
        Some(value)
    }
}

fn put_new(out: &mut Message, told: &Told, given: &Given, value: ValueId) {
    put_new_name(
        told.texts.pen.alloc,
        out,
        told.function,
        if given.is_place { "place." } else { "ref." },
        value,
    )
}

fn put_cast_of(out: &mut Message, told: &Told, given: &Given, value: ValueId) {
    out.put(CODE_MARGIN);
    put_new(out, told, given, value);
    out.put(" = bitcast ");
    put_cast_parts(out, told, given, given.has);
    out.put("\n")
}

/// An operand under its type, and the type that is wanted.
fn put_cast_parts(out: &mut Message, told: &Told, given: &Given, from: Option<TypeId>) {
    put_type_or(out, told, from);
    out.put(" ");
    put_operand(out, told, given.operand);
    out.put(" to ");
    out.put(wanted(given))
}

/// The line of a cast, where one is needed.
fn put_cast(out: &mut Message, told: &Told, given: &Given) {
    if let Some(value) = uncast(told, given) {
        put_cast_of(out, told, given, value);
    }
}

/// A global under the type that is wanted.
fn put_cast_global(out: &mut Message, told: &Told, given: &Given, from: Option<TypeId>) {
    out.put("bitcast (");
    put_cast_parts(out, told, given, from);
    out.put(")")
}

/// An operand of the call that needs no name of its own.
fn put_uncast(out: &mut Message, told: &Told, given: &Given) {
    match &given.operand {
        Operand::Global(_) => put_cast_global(out, told, given, given.has),
        Operand::CastGlobal { from, .. } => put_cast_global(out, told, given, Some(*from)),
        operand => put_operand(out, told, *operand),
    }
}

/// An operand of the call under the name of its cast.
fn put_named(out: &mut Message, told: &Told, given: &Given) {
    match uncast(told, given) {
        Some(value) => put_new(out, told, given, value),
        None => put_uncast(out, told, given),
    }
}

/// An operand of the call with its type.
fn put_given(out: &mut Message, told: &Told, given: &Given) {
    out.put(wanted(given));
    out.put(" ");
    put_named(out, told, given)
}

fn put_call(out: &mut Message, told: &Told, value: &Given, object: &Given, at: &Given) {
    out.put(CODE_MARGIN);
    out.put("call void @llvm.gcwrite(");
    put_given(out, told, value);
    out.put(", ");
    put_given(out, told, object);
    out.put(", ");
    put_given(out, told, at);
    out.put(")\n")
}

/// The casts and the call. An operand that is given twice is cast once.
fn put_lines(out: &mut Message, told: &Told, value: &Given, object: &Given, at: &Given) {
    put_cast(out, told, value);
    if local(value.operand).is_none() || local(value.operand) != local(object.operand) {
        put_cast(out, told, object);
    }
    put_cast(out, told, at);
    put_call(out, told, value, object, at)
}

/// The reference in whose cell a place is, or null.
fn object_of(told: &Told) -> Operand {
    match told.holes.base {
        Some(base) => base,
        None => Operand::Constant(Constant::Null),
    }
}

/// The object of a place.
fn given_object(told: &Told) -> Given {
    Given {
        operand: object_of(told),
        has: type_of(told, told.holes.base),
        is_place: false,
    }
}

/// The casts and the call that do with a barrier what a store of such a value into such a place does.
pub(crate) fn put_barrier_lines(
    out: &mut Message,
    told: &Told,
    stored: TypeId,
    place_type: TypeId,
) {
    let (Some(value), Some(place)) = (told.holes.it, told.holes.place) else {
        return;
    };
    let value = Given {
        operand: value,
        has: Some(stored),
        is_place: false,
    };
    let at = Given {
        operand: place,
        has: Some(place_type),
        is_place: true,
    };
    put_lines(out, told, &value, &given_object(told), &at)
}

/// The cast of the object of a place, and how the call names it.
pub(crate) fn put_object_lines(out: &mut Message, told: &Told) {
    let object = given_object(told);
    put_cast(out, told, &object);
    out.put(CODE_MARGIN);
    out.put("and in the call ");
    put_given(out, told, &object);
    out.put("\n")
}
