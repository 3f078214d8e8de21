//! What mends what is wrong: the words of each way, and the lines that it adds.
use crate::barrier_lines::{put_barrier_lines, put_object_lines};
use crate::cases::text_of;
use crate::groups::put_groups;
use crate::layout_numbers::{NUMBERS, put_numbered, put_numbers};
use crate::told::{Told, put_text, put_type_or};
use certs::is_opaque_text;
use diagnosis::{Diagnosis, Loaded, Mend, Mending, local};
use ir_ast::{Operand, Runtime, ValueId};
use messages::{
    Message, Part, Pointers, Slot, Unheld, put_declare_of, put_mark, put_new_name,
    put_new_root_lines, put_root_lines, put_slot_name, put_type, put_wanted_declare,
};
use name_text::Blank;
use pools::LayoutId;

/// What stands before a further way.
pub(crate) const MARGIN: &str = "         ";

/// The call of a barrier in a text that writes `ptr`, in place of a store.
pub(crate) const OPAQUE_CALL: &str = "call void @llvm.gcwrite(ptr {it}, ptr {object}, ptr {place})";

/// Words whose holes are filled, as a line.
fn put_line(out: &mut Message, told: &Told, text: &str) {
    put_text(out, told, text);
    out.put("\n")
}

/// The words of what mends a reference that is stale, null or not known. The words of other ways are empty.
fn text_of_value(mending: &Mending) -> &'static str {
    match mending {
        Mending::LoadFromRoot => {
            "load {it} again from its root slot {place} after that call, and use what is loaded"
        }
        Mending::Hold => {
            "store {it} in a root slot before that call, load it again after the call, and use what is loaded"
        }
        Mending::LoadAfterSafepoint => {
            "load {it} again from a root slot after the last safepoint, and use what is loaded"
        }
        Mending::PhiOnWays => {
            "where the ways meet, write a phi of {it} on the way through {definer} and of another value on each other way; use that"
        }
        Mending::OtherValue => "use another value there: no way leads there through {definer}",
        Mending::CompareWithNull => {
            "compare and branch before: icmp eq {type} {it}, null; use it where that is false"
        }
        Mending::Define => "define {it} on each way to this instruction",
        Mending::TakeKnown => "take it from a reference that is known where it is defined",
        Mending::NameItself => "or name {base} as the object, if it is to refer to itself",
        _ => "",
    }
}

/// The words of what mends it in the certificate.
fn text_of_cert(mending: &Mending) -> &'static str {
    match mending {
        Mending::UnusedClaim => "take the claim out: nothing uses {it} from there on",
        Mending::StaleClaim => "or take the claim out, where {to} does not use it",
        Mending::ListSlotHere => {
            "or list `slot {place} nonnull` under `block {here}`, where each edge into that implies it"
        }
        Mending::ListSlotThere => {
            "or list `slot {place} nonnull` under `block {to}`, and {it} with `nonnull` under each block from there to {here}"
        }
        Mending::ListNonnull => {
            "or list {it} with `nonnull` under `block {here}`, where each edge into that implies it"
        }
        Mending::PromiseNonnull => {
            "or add `nonnull` to the `param {it}` line of the certificate; each call then has to keep it"
        }
        Mending::ListBelow => {
            "or list {it} with `below {number}` under `block {here}`, where each edge into that implies it"
        }
        Mending::PromiseBelow => {
            "or add `below {number}` to the `param {it}` line of the certificate; each call then has to keep it"
        }
        Mending::WeakerPromise => {
            "or take that word out of the promise; what relies on it then has to show it"
        }
        Mending::PromiseLayout => {
            "add `param {it} ref L` below that line, where L is the layout to which {it} refers"
        }
        Mending::PromiseResult => {
            "add `result ref L` to the certificate of the callee, after its `param` lines, where L is the layout to which the result refers"
        }
        Mending::PromiseNumber => "or `param {it} i64`, where it leads out of the module",
        Mending::PromiseNumberResult => "or `result i64`, where it leads out of the module",
        mending => text_of_value(mending),
    }
}

/// What the case says that mends it.
fn put_of_case(out: &mut Message, told: &Told, diagnosis: &Diagnosis) {
    let page = text_of(&diagnosis.case);
    put_line(out, told, page.mend);
    if !page.other.is_empty() {
        out.put(MARGIN);
        put_line(out, told, page.other);
    }
}

/// How a function of the runtime, or of numbers, is declared, after these words.
fn put_declared(out: &mut Message, told: &Told, words: &str, runtime: &Runtime) {
    out.put(words);
    out.put("and call it with these types: ");
    put_declare_of(out, runtime, Pointers::of_module(told.module()));
    out.put("\n")
}

/// A load from a slot again, under a new name.
fn put_load(out: &mut Message, told: &Told, load: &Loaded) {
    let alloc = told.texts.pen.alloc;
    let of_module = told.module();
    out.put("load it again before it is used there, and use what is loaded: ");
    put_new_name(alloc, out, told.function, "again.", load.value);
    out.put(" = load ");
    put_type(alloc, out, of_module, load.loaded);
    out.put(", ");
    if is_opaque_text(of_module) {
        out.put("ptr")
    } else {
        put_type(alloc, out, of_module, load.place_type)
    }
    put_line(out, told, " {place}")
}

/// The comparison that shows that an index is small enough.
fn put_comparison(out: &mut Message, told: &Told, bits: u32) {
    out.put("compare and branch before: icmp ult i");
    out.put_number(bits as u64);
    put_line(out, told, " {it}, {number}; use it where that is true")
}

fn slot_of<'a>(told: &Told<'a>, name: ValueId) -> Slot<'a> {
    Slot {
        of_module: told.module(),
        function: told.function,
        name,
    }
}

/// The type that a slot is to be written under.
fn put_slot_type(out: &mut Message, told: &Told, slot: Operand) {
    out.put("write the type of the slot: ");
    let held = match local(slot) {
        Some(name) => slot_of(told, name).held(),
        None => None,
    };
    put_type_or(out, told, held);
    out.put("*\n")
}

/// How the line of the shapes begins that says to which layout a slot refers.
fn put_shape_words(out: &mut Message, told: &Told) {
    let text =
        "and this one to the shapes, in front of the certificate's sections: root {function} ";
    out.put(MARGIN);
    put_text(out, told, text)
}

/// How that line ends.
fn put_shape_layout(out: &mut Message, told: &Told, layout: Option<LayoutId>) {
    out.put(" ref ");
    match layout {
        Some(layout) => out.put_layout(told.module(), layout, Blank::Kept),
        None => out.put("L, where L is the layout to which it refers"),
    }
    out.put("\n")
}

/// The lines that make a slot a root.
fn put_root_after(out: &mut Message, told: &Told, slot: ValueId, layout: Option<LayoutId>) {
    let of_module = told.module();
    out.put("write after this line, so that the slot is a root:\n");
    put_root_lines(told.texts.pen.alloc, out, &slot_of(told, slot));
    put_wanted_declare(out, of_module, &Runtime::GcRoot);
    if is_opaque_text(of_module) {
        put_shape_words(out, told);
        put_text(out, told, "{it}");
        put_shape_layout(out, told, layout)
    }
}

/// The line of the shapes that says to which layout a new slot refers.
fn put_new_shape(out: &mut Message, told: &Told, unheld: &Unheld) {
    put_shape_words(out, told);
    put_slot_name(told.texts.pen.alloc, out, unheld);
    put_shape_layout(out, told, unheld.layout)
}

/// The lines that make a root slot for a reference.
fn put_new_root(out: &mut Message, told: &Told, value: ValueId, layout: Option<LayoutId>) {
    let alloc = told.texts.pen.alloc;
    let of_module = told.module();
    let unheld = Unheld {
        of_module,
        function: told.function,
        value,
        layout,
    };
    out.put("a root slot is made at the head of the entry block:\n");
    put_new_root_lines(alloc, out, &unheld);
    put_wanted_declare(out, of_module, &Runtime::GcRoot);
    if is_opaque_text(of_module) {
        put_new_shape(out, told, &unheld)
    }
}

/// A barrier in a text, in the kind of pointers that its module has.
fn put_barrier(out: &mut Message, told: &Told, mending: &Mending) {
    match (mending, is_opaque_text(told.module())) {
        (Mending::Barrier { .. }, true) => {
            out.put("in place of the store: ");
            put_line(out, told, OPAQUE_CALL)
        }
        (Mending::Barrier { stored, place_type }, false) => {
            out.put("in place of the store:\n");
            put_barrier_lines(out, told, *stored, *place_type)
        }
        (Mending::NameNull, true) => out.put("name null: the place is in no object\n"),
        (Mending::NameNull, false) => out.put("name i8* null: the place is in no object\n"),
        (Mending::NameObject, true) => put_line(out, told, "name {base} as the object, or null"),
        (Mending::NameObject, false) => {
            put_line(out, told, "name i8* null as the object, or {base}:");
            put_object_lines(out, told)
        }
        (_, true) => put_line(
            out,
            told,
            "the order is value, object, place; are value and object changed round? call void @llvm.gcwrite(ptr {it}, ptr {base}, ptr {place})",
        ),
        (_, false) => put_line(
            out,
            told,
            "the order is value, object, place; are value and object changed round? call void @llvm.gcwrite(i8* {it}, i8* {base}, i8** {place})",
        ),
    }
}

/// A way that mends it, after what stands before it.
fn put_mend(out: &mut Message, told: &Told, diagnosis: &Diagnosis, mending: &Mending) {
    match mending {
        Mending::OfCase => put_of_case(out, told, diagnosis),
        Mending::NewRoot(value, layout) => put_new_root(out, told, *value, *layout),
        Mending::LoadAgain(load) => put_load(out, told, load),
        Mending::CompareIndex(bits) => put_comparison(out, told, *bits),
        Mending::Numbers => {
            out.put(NUMBERS);
            put_numbers(out, told.module())
        }
        Mending::OtherNumber => put_numbered(out, told),
        Mending::SlotType(slot) => put_slot_type(out, told, *slot),
        Mending::Root(slot) => {
            out.put("write these lines in place of this call:\n");
            put_root_lines(told.texts.pen.alloc, out, &slot_of(told, *slot))
        }
        Mending::RootAfter(slot, layout) => put_root_after(out, told, *slot, *layout),
        Mending::Barrier { .. } => {
            put_barrier(out, told, mending);
            put_wanted_declare(out, told.module(), &Runtime::GcWrite)
        }
        Mending::NameNull | Mending::NameObject | Mending::ChangeRound => {
            put_barrier(out, told, mending)
        }
        Mending::Declare(runtime) => put_declared(out, told, "declare it so, ", runtime),
        Mending::CallTypes(runtime) => put_declared(out, told, "", runtime),
        Mending::List(value, fact) => {
            put_groups(out, told, *value, fact, diagnosis.unlisted.as_slice())
        }
        mending => put_line(out, told, text_of_cert(mending)),
    }
}

/// What mends it, a line for each way or more.
pub(crate) fn put_mends(out: &mut Message, told: &Told, diagnosis: &Diagnosis) {
    for (place, Mend { mending, holes }) in diagnosis.mends.iter().enumerate() {
        if let Some(told) = Told::of(&told.texts, *holes) {
            if place == 0 {
                put_mark(out, told.texts.pen.look, Part::Mend)
            } else {
                out.put(MARGIN)
            }
            put_mend(out, &told, diagnosis, mending)
        }
    }
}
