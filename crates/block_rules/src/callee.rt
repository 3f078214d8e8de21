use ir_ast::{DeclareId, FuncId, Runtime};

/// Which function a call is of.
#[derive(Clone, Copy)]
pub enum Callee {
    /// A function of the runtime.
    OfRuntime(Runtime),
    /// A function that the module defines.
    OfModule(FuncId),
    /// A function outside of the module that the certificates trust.
    Foreign(DeclareId),
    /// No function that may be called so. `named` is the function of the runtime whose name is called, if it is one's.
    NoFunction { named: Option<Runtime> },
}
