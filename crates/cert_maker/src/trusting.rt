//! Certificates of modules that trust the functions outside that they call.
ghost use Rattle.std.specs.Prelude.{◌≡◌, Some, true, IfOk};
ghost use Rattle.cert_maker.specs.Trusting.{IsMadeTrusting, with_trusted};
ghost use Rattle.certs.specs.ShapesFit.{shapes_fit};
ghost use Rattle.layout.specs.Functions.{with_shapes};

use crate::made::{MakeFault, NotMade};
use crate::maker;
use ir_ast::{Module, Shapes, SymbolList};
use module_check::{Accepted, Unseen, Witness, to_trust};
use std::alloc::Global;
use std::mem;

/// Certificates with which a module is accepted, as `maker` makes them. Where the wide forms may stand they trust the functions outside that
/// the module calls. Where none is accepted the module is given back as it was.
pub fn make(alloc: Global, of_module: Module) -> Result<Accepted, NotMade>
    ensures { IsMadeTrusting of_module result }
{
    make_seen(alloc, of_module, &mut Unseen)
}

/// The same certificates. Where none is accepted, a witness sees the first refusal with the boldest, before the module is given back.
pub fn make_seen(
    alloc: Global,
    of_module: Module,
    seen: &mut impl Witness,
) -> Result<Accepted, NotMade>
    ensures { IsMadeTrusting of_module result }
{
    let functions = match to_trust(alloc, &of_module) {
        Ok(functions) => functions,
        Err(_) => {
            return Err(NotMade {
                fault: MakeFault::Memory,
                of_module,
                refused: None,
            });
        }
    };
    let (anew, own) = with_trusted(of_module, functions);
    match maker::make_seen(alloc, anew, seen) {
        Ok(accepted) => Ok(accepted),
        Err(unmade) => Err(given_back(unmade, own)),
    }
}

/// The module with these functions in place of those that it trusts, and those.
fn with_trusted(of_module: Module, functions: SymbolList) -> (Module, SymbolList)
    ensures of_module { result.0 ≡ with_trusted of_module functions }
    ensures own { result.1 ≡ of_module.trusted.functions }
{
    let mut of_module = of_module;
    let own = mem::replace(&mut of_module.trusted.functions, functions);
    (of_module, own)
}

/// Certificates with which a module of these shapes is accepted. They have the shapes as they are given: where these fit
/// the module, so do the certificates. Where none is accepted the module is given back with the shapes.
pub fn make_with(alloc: Global, of_module: Module, shapes: Shapes) -> Result<Accepted, NotMade>
    ensures made { IsMadeTrusting (with_shapes of_module (Some shapes)) result }
    ensures fit { shapes_fit of_module (Some shapes) ≡ true → IfOk result (λ accepted. shapes_fit of_module accepted.certs.shapes ≡ true) }
{
    let mut of_module = of_module;
    of_module.shapes = Some(shapes);
    make(alloc, of_module)
}

/// The same, with the module that trusts these functions.
fn given_back(unmade: NotMade, own: SymbolList) -> NotMade
    ensures { result ≡ record unmade { of_module = with_trusted unmade.of_module own } }
{
    let mut of_module = unmade.of_module;
    of_module.trusted.functions = own;
    NotMade {
        fault: unmade.fault,
        of_module,
        refused: unmade.refused,
    }
}
