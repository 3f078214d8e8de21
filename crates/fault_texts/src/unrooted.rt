//! C3: a slot that a certificate names as a root slot, and that no gcroot names.
use crate::cert_site::{CertSite, function_named, local_named};
use crate::faults::put_told;
use ir_ast::{Function, Instr, LocalSort, MemoryOp, Module, Op, Runtime, ValueId};
use messages::{Message, Part, Pen, Slot, put_root_lines, put_wanted_declare};
use std::alloc::AllocError;

/// The function of the slot that a line names: that of the line or of its section. Nothing where the line names no slot.
fn function_word<'a>(site: CertSite<'a>) -> &'a [u8] {
    match site.first() {
        b"root" | b"slot" => site.function(),
        _ => &[],
    }
}

/// The lines that make a slot a root.
fn put_rooted<'a>(
    pen: Pen,
    out: &mut Message,
    of_module: &'a Module,
    function: &'a Function,
    name: ValueId,
) {
    put_told(
        out,
        pen,
        Part::Mend,
        "write after the alloca of this slot, so that it is a root:",
    );
    let slot = Slot {
        of_module,
        function,
        name,
    };
    put_root_lines(pen.alloc, out, &slot);
    put_wanted_declare(out, of_module, &Runtime::GcRoot)
}

/// Whether an operation makes a slot. One that makes a buffer does not.
fn is_alloca(op: &Op) -> bool {
    match op {
        Op::Memory(memory) => matches!(memory, MemoryOp::Alloca(_)),
        _ => false,
    }
}

/// Whether an instruction is the alloca of a slot that has this name.
fn is_slot_of(instr: &Instr, name: ValueId) -> bool {
    match instr.result {
        Some(value) => value == name && is_alloca(&instr.op),
        None => false,
    }
}

fn makes_slot(function: &Function, name: ValueId) -> bool {
    for block in function.blocks.as_slice() {
        for instr in block.body.as_slice() {
            if is_slot_of(instr, name) {
                return true;
            }
        }
    }
    false
}

/// What makes the slot a root that a certificate names at a position. Returns whether it names one there.
pub fn put_unrooted<'a>(
    pen: Pen,
    out: &mut Message,
    of_module: &'a Module,
    site: CertSite,
    name: &[u8],
) -> Result<bool, AllocError> {
    let word = function_word(site);
    let Some(function) = function_named(pen.alloc, of_module, word)? else {
        return Ok(false);
    };
    let Some((slot, LocalSort::Slot(_))) = local_named(pen.alloc, function, name)? else {
        return Ok(false);
    };
    if !makes_slot(function, slot) {
        return Ok(false);
    }
    put_rooted(pen, out, of_module, function, slot);
    Ok(true)
}
