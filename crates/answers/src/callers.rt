//! Which functions call a function.
ghost use Rattle.std.specs.Prelude.{◌≡◌, ◌∷◌, [], length, IfOk, OnOk};
ghost use Rattle.answers.specs.Local as local;
ghost use Rattle.answers.specs.Edited as spec;

use ir_ast::{Block, FuncId, Function, Instr, Module, Op, SymbolSort};
use items::Items;
use std::alloc::{AllocError, Global};

/// Whether the callers of a function see that it was replaced.
#[derive(Clone, Copy)]
pub enum Callers {
    /// Its types, its mark, or what is promised of its parameters or its result may be others.
    SeeChange,
    SeeNone,
}

/// The number of the function that an operation calls.
fn called_by(module: &Module, op: &Op) -> Option<u32>
    ensures { result ≡ local.called_by «module».now op.now }
{
    match op {
        Op::Call(call) => match module.sorts.get(call.callee.number() as usize) {
            Some(SymbolSort::Defined(function)) => Some(function.number()),
            _ => None,
        },
        _ => None,
    }
}

fn instruction_calls(module: &Module, called: FuncId, instr: &Instr) -> bool
    ensures { result ≡ spec.instruction_calls «module».now called instr.now }
{
    match called_by(module, &instr.op) {
        Some(number) => number == called.number(),
        None => false,
    }
}

fn block_calls(module: &Module, called: FuncId, block: &Block) -> bool
    ensures { result ≡ spec.block_calls «module».now called block.now }
{
    let body = block.body.as_slice();
    body.iter()
        .any(|instr| instruction_calls(module, called, instr))
}

/// Whether a function calls this one.
fn calls(module: &Module, called: FuncId, function: &Function) -> bool
    ensures { result ≡ spec.calls «module».now called function.now }
{
    let blocks = function.blocks.as_slice();
    blocks
        .iter()
        .any(|block| block_calls(module, called, block))
}

/// Whether the function with another number calls this one.
fn is_caller(module: &Module, called: FuncId, other: FuncId) -> bool
    ensures { result ≡ spec.is_caller «module».now called other }
{
    if other == called {
        return false;
    }
    match module.functions.get(other.number() as usize) {
        None => false,
        Some(function) => calls(module, called, function),
    }
}

/// Adds the other functions that call this one.
fn add_callers(
    module: &Module,
    called: FuncId,
    touched: &mut Items<FuncId>,
) -> Result<(), AllocError>
    requires { touched.old ≡ called ∷ [] }
    ensures { OnOk result (touched.new ≡ called ∷ spec.callers_below «module».now called (length «module».now.functions)) }
{
    // No memory holds more functions than there are numbers for them.
    let Ok(functions) = u32::try_from(module.functions.len()) else {
        return Err(AllocError);
    };
    for number in 0..functions {
        if is_caller(module, called, FuncId::new(number)) {
            touched.push(FuncId::new(number))?;
        }
    }
    Ok(())
}

/// The functions whose answers may change where this one is replaced: itself, and its callers where they see a change.
pub fn touched_by(
    alloc: Global,
    module: &Module,
    replaced: FuncId,
    callers: Callers,
) -> Result<Items<FuncId>, AllocError>
    ensures { IfOk result (λ touched. touched ≡ spec.touched «module».now replaced callers) }
{
    let mut touched = Items::new(alloc);
    touched.push(replaced)?;
    match callers {
        Callers::SeeNone => {}
        Callers::SeeChange => add_callers(module, replaced, &mut touched)?,
    }
    Ok(touched)
}
