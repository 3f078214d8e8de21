//! How they are found.
ghost use Rattle.std.specs.Prelude.{◌≤◌, length, IfOk};
ghost use Rattle.module_check.specs.Refusals.{AreOfRange};

use block_check::refused_blocks;
use block_rules::Refusal;
use certs::Certs;
use ir_ast::FuncId;
use layout::Program;
use std::alloc::{AllocError, Global};

/// The first refusal of each block that is not certified of the functions from one number up to another one, each by the lines of its own
/// block alone, in the order of functions and blocks. They take the time of a check of these functions.
pub fn refusals_in(
    alloc: Global,
    program: &Program,
    certs: &Certs,
    from: u32,
    to: u32,
) -> Result<Vec<Refusal>, AllocError>
    requires order { from ≤ to }
    requires within { to ≤ length program.now.of_module.functions }
    ensures { IfOk result (λ found. AreOfRange program.now certs.now.sections from to found.items) }
{
    let mut found = Vec::new(alloc);
    for number in from..to {
        let further = refused_blocks(alloc, program, certs, FuncId::new(number))?;
        found.extend_from_slice(further.as_slice())?;
    }
    Ok(found)
}
