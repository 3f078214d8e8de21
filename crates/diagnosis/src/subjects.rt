//! Which operand a refusal speaks of.
use crate::operands::{null_base_among, slot_among, stale_among, unavailable};
use crate::scene::Scene;
use crate::told::{call_of, op_of};
use block_rules::Rule;
use ir_ast::{Argument, MemoryOp, Op, Operand, Runtime};
use types::runtime_called;

/// The place of a load or a store.
pub(crate) fn place_of(scene: &Scene) -> Option<Operand> {
    match op_of(scene)? {
        Op::Memory(MemoryOp::Load { place, .. } | MemoryOp::Store { place, .. }) => Some(*place),
        _ => None,
    }
}

/// The value that is stored.
fn stored(scene: &Scene) -> Option<Operand> {
    match op_of(scene)? {
        Op::Memory(MemoryOp::Store { value, .. }) => Some(*value),
        _ => None,
    }
}

/// The arguments of a call.
pub(crate) fn arguments_of<'a>(scene: &Scene<'a>) -> &'a [Argument] {
    match call_of(scene) {
        Some(call) => call.arguments.as_slice(),
        None => &[],
    }
}

/// The object that a gcread or a gcwrite names: the argument before the place.
fn object_named(scene: &Scene) -> Option<Operand> {
    match arguments_of(scene) {
        [.., object, _] => Some(object.operand),
        _ => None,
    }
}

/// The operand of a cast, or the base of a getelementptr.
fn led(scene: &Scene) -> Option<Operand> {
    match op_of(scene)? {
        Op::Cast(cast) => Some(cast.operand),
        Op::Element(element) => Some(element.base),
        _ => None,
    }
}

/// The first index of a getelementptr that is no constant.
fn index_of(operands: &[Operand]) -> Option<Operand> {
    match operands {
        [indices @ .., _] => {
            for index in indices {
                if matches!(index, Operand::Local(_)) {
                    return Some(*index);
                }
            }
            None
        }
        [] => None,
    }
}

/// Whether the refused instruction is a call of a function of the runtime. A function of integers or of floating point numbers is none.
pub(crate) fn is_runtime_call(scene: &Scene) -> bool {
    match call_of(scene) {
        Some(call) => !matches!(
            runtime_called(scene.context.module(), call.callee),
            None | Some(Runtime::Integer { .. } | Runtime::Float { .. })
        ),
        None => false,
    }
}

/// The operand that the refusal speaks of, if it speaks of one.
pub(crate) fn subject_of(scene: &Scene, operands: &[Operand]) -> Option<Operand> {
    match scene.refusal.rule {
        Rule::K1 => unavailable(scene, operands),
        Rule::K3 => stale_among(scene.facts, operands),
        Rule::K4 => match null_base_among(scene.facts, operands) {
            Some(base) => Some(base),
            None => place_of(scene),
        },
        Rule::K5 => index_of(operands),
        Rule::K6 => stored(scene),
        Rule::K7 => object_named(scene),
        Rule::K10 => slot_among(scene, operands),
        Rule::K8 | Rule::K11 | Rule::K16 => scene.result(),
        Rule::K19 => led(scene),
        _ => None,
    }
}
