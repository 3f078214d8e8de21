//! One worker's functions.
ghost use Rattle.std.specs.Prelude.{◌≡◌, ◌<◌, ◌≤◌, length};
ghost use Rattle.parallel_check.specs.Shares.{IsOf, IsFirstFault};

use block_check::{CheckRooms, check_function_in};
use block_rules::BlockFault;
use certs::Certs;
use gate::Gate;
use ir_ast::FuncId;
use layout::Program;
use std::alloc::Global;

/// The first functions of a program, with the certificates by which they are checked.
#[derive(Clone, Copy)]
pub struct FirstFunctions<'a> {
    pub program: &'a Program,
    pub certs: &'a Certs,
    pub count: u32,
}

/// The first fault in the functions that a worker checks: the one with its number, and from there each `workers`-th.
pub fn fault_in_share<G: Gate>(
    alloc: Global,
    workers: u32,
    worker: u32,
    gate: &G,
    functions: &FirstFunctions,
) -> Option<BlockFault>
    requires worker { worker < workers }
    requires few { workers ≤ 64 }
    requires count { functions.now.count ≤ length functions.now.program.now.of_module.functions }
    ensures { IsFirstFault functions.now.program.now functions.now.certs.now.sections (IsOf workers worker) functions.now.count result }
{
    match CheckRooms::new(alloc) {
        Ok(mut rooms) => {
            let fault = fault_in_rooms(alloc, &mut rooms, workers, worker, gate, functions);
            drop(rooms);
            fault
        }
        Err(_) => Some(BlockFault::Memory),
    }
}

/// The same in one room for all of them.
fn fault_in_rooms<G: Gate>(
    alloc: Global,
    rooms: &mut CheckRooms,
    workers: u32,
    worker: u32,
    gate: &G,
    functions: &FirstFunctions,
) -> Option<BlockFault>
    requires worker { worker < workers }
    requires few { workers ≤ 64 }
    requires count { functions.now.count ≤ length functions.now.program.now.of_module.functions }
    ensures { IsFirstFault functions.now.program.now functions.now.certs.now.sections (IsOf workers worker) functions.now.count result }
{
    let FirstFunctions {
        program,
        certs,
        count,
    } = *functions;
    for number in (worker..count).step_by(workers as usize) {
        let piece = number as usize;
        gate.before(piece);
        let checked = check_function_in(alloc, rooms, program, certs, FuncId::new(number));
        gate.after(piece);
        if let Err(fault) = checked {
            return Some(fault);
        }
    }
    None
}
