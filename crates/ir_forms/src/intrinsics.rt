//! Names of intrinsics.
ghost use Rattle.std.specs.Prelude.{◌≡◌};
ghost use Rattle.ir_forms.specs.Intrinsics as spec;

use ir_ast::Runtime;

/// Whether the name is one of an intrinsic.
pub fn is_intrinsic(name: &[u8]) -> bool
    ensures { result ≡ spec.is_intrinsic name.now }
{
    name.len() >= 5 && &name[..5] == b"llvm.".as_slice()
}

/// Whether what a name means may stand in a text.
fn may_be_named(wide: bool, named: Option<Runtime>) -> bool
    ensures { result ≡ spec.may_be_named wide named }
{
    match named {
        None => false,
        Some(Runtime::Integer { .. }) => wide,
        Some(Runtime::Float { .. }) => wide,
        Some(_) => true,
    }
}

/// Whether the name is one of an intrinsic that is left out.
pub fn is_left_out(wide: bool, name: &[u8]) -> bool
    ensures { result ≡ spec.is_left_out wide name.now }
{
    is_intrinsic(name) && !may_be_named(wide, Runtime::of(name))
}

/// Whether a name begins with these bytes.
pub fn begins_with(name: &[u8], front: &[u8]) -> bool
    ensures { result ≡ spec.begins_with front.now name.now }
{
    name.len() >= front.len() && &name[..front.len()] == front
}

/// Whether the name is one of an intrinsic whose calls have no effect on the module.
fn has_no_effect(name: &[u8]) -> bool
    ensures { result ≡ spec.has_no_effect name.now }
{
    begins_with(name, b"llvm.lifetime.")
        || begins_with(name, b"llvm.dbg.")
        || begins_with(name, b"llvm.prefetch")
        || begins_with(name, b"llvm.invariant.end")
        || begins_with(name, b"llvm.var.annotation")
        || name == b"llvm.assume".as_slice()
        || name == b"llvm.donothing".as_slice()
        || name == b"llvm.experimental.noalias.scope.decl".as_slice()
}

/// Whether calls of the intrinsic with this name are dropped where the wide forms may stand.
pub fn is_dropped(name: &[u8]) -> bool
    ensures { result ≡ spec.is_dropped name.now }
{
    is_left_out(true, name) && has_no_effect(name)
}
