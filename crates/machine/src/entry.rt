//! Frames at the beginning of a function.
ghost use Rattle.std.specs.Prelude.{◌≡◌, ◌≤◌, ℕ, length, map, replicate, slice_get, IfOk};
ghost use Rattle.shadow_stack.specs.Slots.{slots_of};
ghost use Rattle.machine.specs.Jumps.{phis_of};
ghost use Rattle.machine.specs.Machine.{initial, with_arguments, entry_frame};

use crate::elements::address_of;
use crate::frame::{Frame, initial, put};
use crate::frame_code::FrameCode;
use crate::value::{Pointee, Value};
use ir_ast::{FuncId, Function, Module, TypeId, ValueId};
use items::Items;
use std::alloc::{AllocError, Global};

/// The greatest number of phis that a block of the function has.
pub fn most_phis(function: &Function) -> usize
    ensures { (block : ℕ) → length (phis_of (slice_get function.now.blocks block)) ≤ result }
{
    let mut most = 0;
    for block in function.blocks.as_slice() {
        let count = block.phis.len();
        if count > most {
            most = count;
        }
    }
    most
}

/// `count` values, none of which is set.
pub fn all_unset(alloc: Global, count: usize) -> Result<Items<Value>, AllocError>
    ensures { IfOk result (λ values. values ≡ replicate count Value.Unset) }
{
    // The address of nothing is unset. It names the type of places, which the prover has to see where it makes values.
    let nowhere: Option<Pointee> = None;
    let values = vec![in alloc; address_of(nowhere); count]?;
    Ok(Items::from_vec(values))
}

/// Registers with the arguments in those of the parameters.
fn registers_of(
    alloc: Global,
    function: &Function,
    arguments: &[Value],
) -> Result<Items<Value>, AllocError>
    ensures { IfOk result (λ registers. registers ≡ with_arguments function.now.parameters arguments.now (replicate (length function.now.locals) Value.Unset)) }
{
    let mut registers = all_unset(alloc, function.locals.count())?;
    for (parameter, argument) in function.parameters.as_slice().iter().zip(arguments.iter()) {
        put(&mut registers, parameter.value, *argument);
    }
    Ok(registers)
}

/// A frame at the beginning of a function.
pub fn entry_frame(
    alloc: Global,
    code: &FrameCode,
    number: FuncId,
    into: Option<ValueId>,
    arguments: &[Value],
) -> Result<Frame, AllocError>
    requires { code.now.slots.now ≡ slots_of code.now.program.now.of_module code.now.function.now }
    ensures { IfOk result (λ frame. frame ≡ entry_frame code.now.program.now.of_module code.now.function.now number into arguments.now) }
{
    let registers = registers_of(alloc, code.function, arguments)?;
    let held = initials(alloc, code.program.module(), code.slots.held_types())?;
    Ok(Frame {
        function: number,
        into,
        block: 0,
        place: 0,
        registers,
        slots: Items::from_vec(held),
    })
}

fn initials(alloc: Global, of_module: &Module, held: &[TypeId]) -> Result<Vec<Value>, AllocError>
    ensures { IfOk result (λ values. values.items ≡ map (initial of_module.now) held.now) }
{
    held.iter()
        .map(|held| initial(of_module, *held))
        .collect(alloc)
}
