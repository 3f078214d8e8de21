//! K2 and K18 of calls of functions outside of the module.
use crate::cases::Outside;
use crate::scene::Scene;
use crate::told::{call_of, local};
use block_rules::TypeKind;
use facts::Known;
use ir_ast::{Call, Declare, LocalSort, Module, Operand, SymbolId, SymbolSort, ValueId};
use outside_names::is_outside_operand;
use types::is_outside;

/// The refused call of a function outside, where the wide forms may stand.
fn outside_call<'a>(scene: &Scene<'a>) -> Option<&'a Call> {
    let call = call_of(scene)?;
    let module = scene.context.module();
    if module.wide && is_outside(module, call.callee) {
        Some(call)
    } else {
        None
    }
}

/// The declaration of a function.
fn declare_of(module: &Module, symbol: SymbolId) -> Option<&Declare> {
    match module.sorts.get(symbol.number() as usize) {
        Some(SymbolSort::Declared(declare)) => module.declares.get(declare.number() as usize),
        _ => None,
    }
}

/// Why a function outside that is declared so may not be called so, where K18 refuses that.
fn why_not(call: &Call, declared: &Declare) -> Outside {
    if call.arguments.len() == declared.parameters.len() {
        Outside::Untrusted
    } else {
        Outside::OtherCount
    }
}

/// Why a function outside may not be called, where K18 refuses that.
pub(crate) fn outside_of(scene: &Scene) -> Option<Outside> {
    let module = scene.context.module();
    if !module.wide && is_outside(module, call_of(scene)?.callee) {
        return Some(Outside::OnlyDeclared);
    }
    let call = outside_call(scene)?;
    let declared = declare_of(module, call.callee)?;
    Some(why_not(call, declared))
}

/// Whether an operand is a reference to a cell.
fn is_reference(scene: &Scene, operand: Operand) -> bool {
    match local(operand) {
        Some(value) => matches!(scene.facts.known(value), Known::Cell { .. }),
        None => false,
    }
}

/// The first reference that is handed to a function outside.
pub(crate) fn handed_outside(scene: &Scene, operands: &[Operand]) -> Option<Operand> {
    outside_call(scene)?;
    for operand in operands {
        if is_reference(scene, *operand) {
            return Some(*operand);
        }
    }
    None
}

/// The first operand that is an address outside, where no function outside is called.
pub(crate) fn misused_outside(scene: &Scene, operands: &[Operand]) -> Option<Operand> {
    if outside_call(scene).is_some() {
        return None;
    }
    for operand in operands {
        if leads_outside(scene, operand) {
            return Some(*operand);
        }
    }
    None
}

/// Whether an operand is an address outside: the name of something outside, or a pointer that is known to be a number.
pub(crate) fn leads_outside(scene: &Scene, operand: &Operand) -> bool {
    match *operand {
        Operand::Local(value) => is_number(scene, value) && is_pointer(scene, value),
        _ => is_outside_operand(scene.context.module(), operand),
    }
}

fn is_number(scene: &Scene, value: ValueId) -> bool {
    matches!(scene.facts.known(value), Known::Number { .. })
}

fn is_pointer(scene: &Scene, value: ValueId) -> bool {
    let module = scene.context.module();
    match scene.context.function.sorts.get(value.number() as usize) {
        Some(LocalSort::Value(written)) => {
            !matches!(TypeKind::of(module, *written), TypeKind::Bits(_))
        }
        _ => true,
    }
}
