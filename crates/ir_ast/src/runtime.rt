ghost use Rattle.std.specs.Prelude.{◌≡◌};
ghost use Rattle.ir_ast.specs.RuntimeNames.{runtime_of};

use crate::float_function::{FloatFunction, floats_named};
use crate::integer_function::{IntegerFunction, integers_named};

/// A function of the runtime or an intrinsic, known by its name.
#[derive(Clone, Copy)]
pub enum Runtime {
    /// `dg_alloc`
    Alloc,
    /// `dg_safepoint`
    Safepoint,
    /// `llvm.gcroot`
    GcRoot,
    /// `llvm.gcread`
    GcRead,
    /// `llvm.gcwrite`
    GcWrite,
    /// `llvm.smax.i32` and its like, of integers of `bits` bits; the wide forms alone have them.
    Integer {
        function: IntegerFunction,
        bits: u64,
    },
    /// `llvm.sqrt.f64` and its like, of floating point numbers of `bits` bits; the wide forms alone have them.
    Float {
        function: FloatFunction,
        bits: u64,
    },
}

impl Runtime {
    /// The one that has this name.
    pub fn of(name: &[u8]) -> Option<Runtime>
        ensures { result ≡ runtime_of name.now }
    {
        if name == b"dg_alloc".as_slice() {
            Some(Runtime::Alloc)
        } else if name == b"dg_safepoint".as_slice() {
            Some(Runtime::Safepoint)
        } else if name == b"llvm.gcroot".as_slice() {
            Some(Runtime::GcRoot)
        } else if name == b"llvm.gcread".as_slice() {
            Some(Runtime::GcRead)
        } else if name == b"llvm.gcwrite".as_slice() {
            Some(Runtime::GcWrite)
        } else {
            match integers_named(name) {
                Some(named) => Some(named),
                None => floats_named(name),
            }
        }
    }
}
