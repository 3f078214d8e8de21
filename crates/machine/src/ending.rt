ghost use Rattle.std.specs.Prelude.{◌≡◌};
ghost use Rattle.machine.specs.Endings.{ending_by};

use crate::ends::result_of;
use crate::value::Value;
use ir_ast::{End, Module};

/// How a thread ended.
#[derive(Clone, Copy)]
pub enum Ending {
    /// Its first function returned, with this result if it has one.
    Returned(Option<Value>),
    /// At an `unreachable`, or at a call past the limit of the frames.
    Over,
}

/// How a thread ends at this end of a block of its last frame.
pub(crate) fn ending_by(of_module: &Module, registers: &[Value], end: &End) -> Ending
    ensures { result ≡ ending_by of_module.now registers.now end.now }
{
    match end {
        End::ReturnVoid => Ending::Returned(None),
        End::Return(_) => Ending::Returned(Some(result_of(of_module, registers, end))),
        _ => Ending::Over,
    }
}
