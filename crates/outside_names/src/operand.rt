ghost use Rattle.std.specs.Prelude.{◌≡◌};
ghost use Rattle.outside_names.specs.Operands.{is_outside_operand};

use ir_ast::{Module, Operand};
use types::is_outside;

/// Whether an operand is an address outside: the name of something outside of the module, or a constant bitcast of one.
pub fn is_outside_operand(module: &Module, operand: &Operand) -> bool
    ensures { result ≡ is_outside_operand «module».now operand.now }
{
    match *operand {
        Operand::Global(symbol) => is_outside(module, symbol),
        Operand::CastGlobal { global, .. } => is_outside(module, global),
        _ => false,
    }
}
