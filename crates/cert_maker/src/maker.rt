ghost use Rattle.std.specs.Prelude.{◌≡◌, ◌⊎◌, Some, true, IfOk, IfErr, IfSome};
ghost use Rattle.cert_maker.specs.Made.{AreGood, AreRefused, AreTried, IsMade};
ghost use Rattle.certs.specs.Plain.{plain};
ghost use Rattle.cert_maker.specs.declared.tried.MakeFailure.TheVariants.{NoAnswer};

use crate::made::{MakeFault, NotMade, Refused};
use crate::tried::{MakeFailure, Rejection, plain_certs, proposed};
use certs::Certs;
use copies::{Certified, copy_certified};
use ir_ast::Module;
use layout::Program;
use module_check::{Accepted, Witness};
use proposals::Boldness;
use std::alloc::Global;

/// Why there are no certificates of a program.
#[derive(Drop)]
struct NoCerts {
    make_failure: MakeFailure,
    /// The boldest of the certificates that were refused.
    refused: Option<Refused>,
}

/// Certificates with which a module is accepted. Proposals are tried, the boldest first, and then the plain certificates;
/// where none is accepted a witness sees the first refusal with the boldest, and the module is given back. The certificates have the shapes of
/// the module, and trust what it trusts.
pub fn make_seen(
    alloc: Global,
    of_module: Module,
    seen: &mut impl Witness,
) -> Result<Accepted, NotMade>
    ensures { IsMade of_module result }
{
    let program = match Program::new(alloc, of_module) {
        Ok(program) => program,
        Err(refused) => {
            return Err(NotMade {
                fault: MakeFault::from(refused.fault),
                of_module: refused.of_module,
                refused: None,
            });
        }
    };
    match shaped_certs_for(alloc, &program) {
        Ok(certs) => Ok(Accepted::of(program, certs)),
        Err(none) => {
            show(seen, &program, &none);
            Err(NotMade {
                fault: MakeFault::from(none.make_failure),
                of_module: program.into_module(),
                refused: none.refused,
            })
        }
    }
}

/// The witness sees the refusal with certificates, if some were refused.
fn show(seen: &mut impl Witness, program: &Program, none: &NoCerts) {
    if let Some(tried) = &none.refused {
        seen.refused(program, &tried.certs, [tried.refusal].as_slice());
    }
}

/// Certificates with which a program is accepted, with the shapes of its module and with what it trusts.
fn shaped_certs_for(alloc: Global, program: &Program) -> Result<Certs, NoCerts>
    ensures good { IfOk result (AreGood program.now) }
    ensures shapes { IfOk result (λ certs. certs.shapes ≡ program.now.of_module.shapes) }
    ensures foreign { IfOk result (λ certs. certs.foreign ≡ program.now.of_module.trusted) }
    ensures make_failure { IfErr result (λ none. none.make_failure ≡ NoAnswer → AreRefused program.now (plain program.now.of_module)) }
    ensures refused { IfErr result (λ none. IfSome none.refused (AreTried program.now)) }
{
    let certs = match certs_for(alloc, program) {
        Ok(certs) => certs,
        Err(none) => return Err(none),
    };
    match copy_certified(alloc, program.module()) {
        Ok(Certified { shapes, trusted }) => Ok(Certs {
            sections: certs.sections,
            shapes,
            foreign: trusted,
        }),
        Err(_) => Err(NoCerts {
            make_failure: MakeFailure::Memory,
            refused: None,
        }),
    }
}

/// Certificates with which a program is accepted.
fn certs_for(alloc: Global, program: &Program) -> Result<Certs, NoCerts>
    ensures good { IfOk result (AreGood program.now) }
    ensures make_failure { IfErr result (λ none. none.make_failure ≡ NoAnswer → AreRefused program.now (plain program.now.of_module)) }
    ensures refused { IfErr result (λ none. IfSome none.refused (AreTried program.now)) }
{
    let mut boldest = None;
    for boldness in [Boldness::Bold, Boldness::Bounded, Boldness::Timid] {
        match proposed(alloc, program, boldness) {
            Ok(certs) => return Ok(certs),
            Err(Rejection::Refused(refused)) => boldest = Some(bolder(boldest, refused)),
            Err(Rejection::Misfit) => {}
            Err(Rejection::Memory) => return Err(no_memory(boldest)),
        }
    }
    match plain_certs(alloc, program) {
        Ok(certs) => Ok(certs),
        Err(Rejection::Refused(refused)) => Err(NoCerts {
            make_failure: MakeFailure::NoAnswer,
            refused: Some(bolder(boldest, refused)),
        }),
        Err(Rejection::Misfit | Rejection::Memory) => Err(no_memory(boldest)),
    }
}

/// Memory was refused, when these were the boldest certificates that were.
fn no_memory(refused: Option<Refused>) -> NoCerts
    ensures make_failure { result.make_failure ≡ MakeFailure.Memory }
    ensures refused { result.refused ≡ refused }
{
    NoCerts {
        make_failure: MakeFailure::Memory,
        refused,
    }
}

/// The certificates that were refused before these, or these.
fn bolder(before: Option<Refused>, refused: Refused) -> Refused
    ensures { (result ≡ refused) ⊎ (before ≡ Some result) }
{
    match before {
        Some(before) => before,
        None => refused,
    }
}
