//! The text of a select and of a phi.
ghost use Rattle.std.specs.Prelude.{◌≡◌, ◌++◌, ◌∷◌, [], OnOk, codes};
ghost use Rattle.std.specs.List.{flat_map};
ghost use Rattle.ir_print.specs.Operands.{listed};
ghost use Rattle.ir_print.specs.Choices as spec;

use crate::operands::{put_operand, put_typed};
use crate::types::put_type;
use ir_ast::{Choice, Incoming, Module, Names, Phi, TypeId};
use name_text::{Blank, put_local};
use std::alloc::{AllocError, Global};

/// A select.
pub fn put_choice(
    alloc: Global,
    out: &mut Vec<u8>,
    module: &Module,
    locals: &Names,
    choice: &Choice,
) -> Result<(), AllocError>
    ensures { OnOk result (out.new.items ≡ out.old.items ++ spec.choice_text «module».now locals.now choice.now) }
{
    out.extend_from_slice(b"select ")?;
    put_typed(
        alloc,
        out,
        module,
        locals,
        choice.condition_type,
        choice.condition,
    )?;
    out.extend_from_slice(b", ")?;
    put_typed(alloc, out, module, locals, choice.written, choice.chosen)?;
    out.extend_from_slice(b", ")?;
    put_typed(alloc, out, module, locals, choice.written, choice.other)
}

/// `[ V, %b ]`.
fn put_incoming(
    alloc: Global,
    out: &mut Vec<u8>,
    module: &Module,
    locals: &Names,
    written: TypeId,
    incoming: &Incoming,
) -> Result<(), AllocError>
    ensures { OnOk result (out.new.items ≡ out.old.items ++ spec.incoming_text «module».now locals.now written incoming.now) }
{
    out.extend_from_slice(b"[ ")?;
    put_operand(alloc, out, module, locals, written, incoming.operand)?;
    out.extend_from_slice(b", ")?;
    put_local(out, locals, incoming.from, Blank::Kept)?;
    out.extend_from_slice(b" ]")
}

fn put_further_entries(
    alloc: Global,
    out: &mut Vec<u8>,
    module: &Module,
    locals: &Names,
    written: TypeId,
    entries: &[Incoming],
) -> Result<(), AllocError>
    ensures { OnOk result (out.new.items ≡ out.old.items ++ flat_map (λ entry. codes ", " ++ spec.incoming_text «module».now locals.now written entry) entries.now) }
{
    for entry in entries {
        out.extend_from_slice(b", ")?;
        put_incoming(alloc, out, module, locals, written, entry)?;
    }
    Ok(())
}

/// The entries of a phi.
fn put_entries(
    alloc: Global,
    out: &mut Vec<u8>,
    module: &Module,
    locals: &Names,
    written: TypeId,
    entries: &[Incoming],
) -> Result<(), AllocError>
    ensures { OnOk result (out.new.items ≡ out.old.items ++ listed (spec.incoming_text «module».now locals.now written) entries.now) }
{
    match entries {
        [] => Ok(()),
        [first, rest @ ..] => {
            put_incoming(alloc, out, module, locals, written, first)?;
            put_further_entries(alloc, out, module, locals, written, rest)
        }
    }
}

/// The line of a phi.
fn put_phi(
    alloc: Global,
    out: &mut Vec<u8>,
    module: &Module,
    locals: &Names,
    phi: &Phi,
) -> Result<(), AllocError>
    ensures { OnOk result (out.new.items ≡ out.old.items ++ spec.phi_line «module».now locals.now phi.now) }
{
    out.extend_from_slice(b"  ")?;
    put_local(out, locals, phi.value, Blank::Kept)?;
    out.extend_from_slice(b" = phi ")?;
    put_type(alloc, out, module, phi.written)?;
    out.push(b' ')?;
    put_entries(
        alloc,
        out,
        module,
        locals,
        phi.written,
        phi.incoming.as_slice(),
    )?;
    out.extend_from_slice(b"\n")
}

/// The lines of the phis of a block.
pub fn put_phis(
    alloc: Global,
    out: &mut Vec<u8>,
    module: &Module,
    locals: &Names,
    phis: &[Phi],
) -> Result<(), AllocError>
    ensures { OnOk result (out.new.items ≡ out.old.items ++ flat_map (spec.phi_line «module».now locals.now) phis.now) }
{
    for phi in phis {
        put_phi(alloc, out, module, locals, phi)?;
    }
    Ok(())
}
