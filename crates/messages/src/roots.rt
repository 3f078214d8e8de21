//! How a slot is made a root.
use crate::message::Message;
use crate::new_names::put_new_name;
use crate::pointers::Pointers;
use crate::written_types::put_type;
use ir_ast::{Function, LocalSort, Module, TypeId, ValueId};
use name_text::Blank;
use pools::LayoutId;
use std::alloc::Global;

/// What comes before a line of the module.
pub const CODE_MARGIN: &str = "           ";

/// A slot of a function.
#[derive(Clone, Copy)]
pub struct Slot<'a> {
    pub of_module: &'a Module,
    pub function: &'a Function,
    pub name: ValueId,
}

impl<'a> Slot<'a> {
    /// The type of what it holds, if it is a slot.
    pub fn held(&self) -> Option<TypeId> {
        match self.function.sorts.get(self.name.number() as usize) {
            Some(LocalSort::Slot(held)) => Some(*held),
            _ => None,
        }
    }
}

fn put_slot(out: &mut Message, slot: &Slot) {
    out.put_local(&slot.function.locals, slot.name, Blank::Kept)
}

/// The type of the slot, a pointer to what it holds.
fn put_place_type(alloc: Global, out: &mut Message, slot: &Slot) {
    match slot.held() {
        Some(held) => put_type(alloc, out, slot.of_module, held),
        None => out.put("T"),
    }
    out.put("*")
}

fn put_root_name(alloc: Global, out: &mut Message, slot: &Slot) {
    put_new_name(alloc, out, slot.function, "root.", slot.name)
}

fn put_cast(alloc: Global, out: &mut Message, slot: &Slot) {
    out.put(CODE_MARGIN);
    put_root_name(alloc, out, slot);
    out.put(" = bitcast ");
    put_place_type(alloc, out, slot);
    out.put(" ");
    put_slot(out, slot);
    out.put(" to i8**\n")
}

fn put_typed(alloc: Global, out: &mut Message, slot: &Slot) {
    put_cast(alloc, out, slot);
    out.put(CODE_MARGIN);
    out.put("call void @llvm.gcroot(i8** ");
    put_root_name(alloc, out, slot);
    out.put(", i8* null)\n")
}

fn put_opaque(out: &mut Message, slot: &Slot) {
    out.put(CODE_MARGIN);
    out.put("call void @llvm.gcroot(ptr ");
    put_slot(out, slot);
    out.put(", ptr null)\n")
}

/// The lines after the alloca of a slot that make it a root.
pub fn put_root_lines(alloc: Global, out: &mut Message, slot: &Slot) {
    match Pointers::of_module(slot.of_module) {
        Pointers::Typed => put_typed(alloc, out, slot),
        Pointers::Opaque => put_opaque(out, slot),
    }
}

/// A reference for which there is no slot.
#[derive(Clone, Copy)]
pub struct Unheld<'a> {
    pub of_module: &'a Module,
    pub function: &'a Function,
    pub value: ValueId,
    /// The layout to which it refers, if that is known.
    pub layout: Option<LayoutId>,
}

/// The name of a new slot for a reference.
pub fn put_slot_name(alloc: Global, out: &mut Message, unheld: &Unheld) {
    put_new_name(alloc, out, unheld.function, "slot.", unheld.value)
}

/// The type of the reference, a pointer to the struct of its layout.
fn put_held_type(out: &mut Message, unheld: &Unheld) {
    match unheld.layout {
        Some(layout) => {
            out.put("%");
            out.put_layout(unheld.of_module, layout, Blank::Kept);
        }
        None => out.put("T"),
    }
    out.put("*")
}

/// The alloca of the new slot, up to its type.
fn put_new_alloca(alloc: Global, out: &mut Message, unheld: &Unheld) {
    out.put(CODE_MARGIN);
    put_slot_name(alloc, out, unheld);
    out.put(" = alloca ")
}

fn put_new_cast(alloc: Global, out: &mut Message, unheld: &Unheld) {
    out.put(CODE_MARGIN);
    put_new_name(alloc, out, unheld.function, "root.", unheld.value);
    out.put(" = bitcast ");
    put_held_type(out, unheld);
    out.put("* ");
    put_slot_name(alloc, out, unheld);
    out.put(" to i8**\n")
}

fn put_new_typed(alloc: Global, out: &mut Message, unheld: &Unheld) {
    put_held_type(out, unheld);
    out.put("\n");
    put_new_cast(alloc, out, unheld);
    out.put(CODE_MARGIN);
    out.put("call void @llvm.gcroot(i8** ");
    put_new_name(alloc, out, unheld.function, "root.", unheld.value);
    out.put(", i8* null)\n")
}

fn put_new_opaque(alloc: Global, out: &mut Message, unheld: &Unheld) {
    out.put("ptr\n");
    out.put(CODE_MARGIN);
    out.put("call void @llvm.gcroot(ptr ");
    put_slot_name(alloc, out, unheld);
    out.put(", ptr null)\n")
}

/// The lines of a new root slot for a reference.
pub fn put_new_root_lines(alloc: Global, out: &mut Message, unheld: &Unheld) {
    put_new_alloca(alloc, out, unheld);
    match Pointers::of_module(unheld.of_module) {
        Pointers::Typed => put_new_typed(alloc, out, unheld),
        Pointers::Opaque => put_new_opaque(alloc, out, unheld),
    }
}
