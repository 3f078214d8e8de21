//! What a hunt draws for a thread: numbers, and integers of parameters.
use crate::numbers::below;
use ir_ast::{IrType, Module, Parameter};
use machine::wrapped;
use rand_core::Rng;

/// A number of 64 bits: most are small.
fn any_number<R: Rng>(rng: &mut R) -> u64 {
    match below(rng, 4) {
        0 => rng.next_u64(),
        1 => u64::from(below(rng, 64)),
        _ => u64::from(below(rng, 4)),
    }
}

/// How many bits a parameter has that is a number. One of another type has none.
pub(crate) fn bits_of(of_module: &Module, parameter: Parameter) -> Option<u32> {
    match of_module.types.get(parameter.written) {
        Some(IrType::Integer(bits)) => Some(bits),
        Some(IrType::Float) => Some(32),
        Some(IrType::Double) => Some(64),
        _ => None,
    }
}

/// An integer of a parameter's type. It is below the promised number, if there is one.
pub(crate) fn integer<R: Rng>(
    rng: &mut R,
    of_module: &Module,
    parameter: Parameter,
    promised: Option<u64>,
) -> u64 {
    let number = any_number(rng);
    let fitting = wrapped(bits_of(of_module, parameter).unwrap_or(0), number);
    match promised {
        Some(past) if past > 0 => fitting % past,
        _ => fitting,
    }
}
