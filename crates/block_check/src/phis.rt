//! What the phis of a block take where it is entered from another.
ghost use Rattle.std.specs.Prelude.{◌≡◌, OnOk};
ghost use Rattle.block_rules.specs.InstrContext.{phis_of};
ghost use Rattle.block_rules.specs.Edges.{operand_from, number_comes_in, float_comes_in, constant_comes_in, known_comes_in, comes_in};
ghost use Rattle.block_check.specs.PhiOperands.{entries_at};
ghost use Rattle.block_check.specs.FunctionUnderCheck.{IsReady};

use crate::under_check::{FunctionUnderCheck, phis_of};
use block_rules::{TypeKind, below_next, known_in};
use facts::{Entry, Facts, Known};
use ir_ast::{BlockId, Constant, Module, Operand};
use items::Items;
use std::alloc::AllocError;

fn number_comes_in(n: u64, kind: TypeKind) -> Known
    ensures { result ≡ number_comes_in n kind }
{
    match kind {
        TypeKind::Bits(bits) => Known::Number {
            bits,
            below: below_next(n),
        },
        _ => Known::Nothing,
    }
}

/// What is known of a floating point number that comes in.
fn float_comes_in(kind: TypeKind) -> Known
    ensures { result ≡ float_comes_in kind }
{
    match kind {
        TypeKind::Bits(bits) => Known::Number { bits, below: None },
        _ => Known::Nothing,
    }
}

fn constant_comes_in(constant: Constant, kind: TypeKind) -> Known
    ensures { result ≡ constant_comes_in constant kind }
{
    match constant {
        Constant::Number(n) => number_comes_in(n, kind),
        Constant::Float(_) => float_comes_in(kind),
        Constant::Null => Known::Null,
        Constant::Truth(_) => Known::Nothing,
    }
}

fn known_comes_in(
    module: &Module,
    facts: &Facts,
    kind: TypeKind,
    operand: &Option<Operand>,
) -> Known
    ensures { result ≡ known_comes_in «module».now facts.now kind operand.now }
{
    match operand {
        Some(Operand::Constant(constant)) => constant_comes_in(*constant, kind),
        Some(operand) => known_in(module, facts, operand),
        None => Known::Nothing,
    }
}

/// The operand that comes in from a block to the phi at a place of another: the first that is named for it.
fn operand_from(
    under_check: &FunctionUnderCheck,
    to: BlockId,
    place: usize,
    from: BlockId,
) -> Option<Operand>
    requires { IsReady under_check.now }
    ensures { result ≡ operand_from under_check.now.context.function.now from (entries_at (phis_of under_check.now.context.function.now to) place) }
{
    under_check.recorded_from(to, place, from)
}

/// The phis of a block, each with what is known of what comes in from another.
pub fn record_entries(
    under_check: &FunctionUnderCheck,
    from: BlockId,
    facts: &Facts,
    to: BlockId,
    entries: &mut Items<Entry>,
) -> Result<(), AllocError>
    requires { IsReady under_check.now }
    ensures { OnOk result (entries.new ≡ comes_in under_check.now.context.program.now.of_module under_check.now.context.function.now from facts.now (phis_of under_check.now.context.function.now to)) }
{
    entries.clear();
    let phis = phis_of(under_check.context.function, to);
    for (place, phi) in phis.iter().enumerate() {
        let operand = operand_from(under_check, to, place, from);
        let module = under_check.context.module();
        let kind = TypeKind::of(module, phi.written);
        let known = known_comes_in(module, facts, kind, &operand);
        entries.push(Entry {
            phi: phi.value,
            known,
        })?;
    }
    Ok(())
}
