//! The functions outside of a module that its functions call.
ghost use Rattle.std.specs.Prelude.{◌≡◌, IfOk};
ghost use Rattle.module_check.specs.Trusts as spec;

use ir_ast::{Block, Declare, Function, Instr, Module, Op, SymbolId, SymbolList};
use items::Items;
use std::alloc::{AllocError, Global};
use types::is_outside;

fn mark_op(called: &mut Items<bool>, op: &Op)
    ensures { called.new ≡ spec.mark_op op.now called.old }
{
    if let Op::Call(call) = op {
        let symbol = call.callee.number() as usize;
        if symbol < called.len() {
            called.set(symbol, true);
        }
    }
}

fn mark_body(called: &mut Items<bool>, body: &[Instr])
    ensures { called.new ≡ spec.mark_body body.now called.old }
{
    for instr in body {
        mark_op(called, &instr.op);
    }
}

fn mark_blocks(called: &mut Items<bool>, blocks: &[Block])
    ensures { called.new ≡ spec.mark_blocks blocks.now called.old }
{
    for block in blocks {
        mark_body(called, block.body.as_slice());
    }
}

fn mark_functions(called: &mut Items<bool>, functions: &[Function])
    ensures { called.new ≡ spec.mark_functions functions.now called.old }
{
    for function in functions {
        mark_blocks(called, function.blocks.as_slice());
    }
}

/// Whether each global name is that of what a function calls.
fn marked(alloc: Global, of_module: &Module) -> Result<Items<bool>, AllocError>
    ensures { IfOk result (λ called. called ≡ spec.marked of_module.now) }
{
    let none = vec![in alloc; false; of_module.sorts.len()]?;
    let mut called = Items::from_vec(none);
    mark_functions(&mut called, of_module.functions.as_slice());
    Ok(called)
}

fn is_marked(called: &[bool], symbol: SymbolId) -> bool
    ensures { result ≡ spec.is_marked called.now symbol }
{
    match called.get(symbol.number() as usize) {
        Some(marked) => *marked,
        None => false,
    }
}

fn is_marked_outside(of_module: &Module, called: &[bool], symbol: SymbolId) -> bool
    ensures { result ≡ spec.is_marked_outside of_module.now called.now symbol }
{
    is_outside(of_module, symbol) && is_marked(called, symbol)
}

fn outside_marked(
    alloc: Global,
    of_module: &Module,
    called: &[bool],
    declares: &[Declare],
) -> Result<SymbolList, AllocError>
    ensures { IfOk result (λ symbols. symbols ≡ spec.outside_marked of_module.now called.now declares.now) }
{
    let mut symbols = SymbolList::new(alloc);
    for declare in declares {
        if is_marked_outside(of_module, called, declare.symbol) {
            symbols.push(declare.symbol)?;
        }
    }
    Ok(symbols)
}

/// The functions outside that the functions of a module call, in the order of their declares. It goes over the module once.
#[tactic(auto, using(crate::proofs::Marked::outside_same))]
pub fn outside_called(alloc: Global, of_module: &Module) -> Result<SymbolList, AllocError>
    ensures { IfOk result (λ symbols. symbols ≡ spec.outside_called of_module.now) }
{
    let called = marked(alloc, of_module)?;
    let symbols = outside_marked(
        alloc,
        of_module,
        called.as_slice(),
        of_module.declares.as_slice(),
    );
    drop(called);
    symbols
}

/// The same where the wide forms may stand, and otherwise nothing: what the certificates of a module have to trust.
pub fn to_trust(alloc: Global, of_module: &Module) -> Result<SymbolList, AllocError>
    ensures { IfOk result (λ symbols. symbols ≡ spec.to_trust of_module.now) }
{
    if of_module.wide {
        outside_called(alloc, of_module)
    } else {
        Ok(SymbolList::new(alloc))
    }
}
