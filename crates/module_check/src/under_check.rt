ghost use Rattle.std.specs.Prelude.{◌≡◌, List, IfOk, IfErr};
ghost use Rattle.layout.specs.Functions.{with_certified};
ghost use Rattle.layout.specs.Layouts.{AreLayouts, AreSizes};
ghost use Rattle.module_check.specs.Accepted.{IsLayoutReason, shaped};
ghost use Rattle.pools.specs.declared.word_kind.WordKind.{WordKind as AWord};

use crate::verdict::{NotAccepted, Reason};
use certs::Certs;
use copies::{Certified, copy_outside, copy_shapes};
use ir_ast::Module;
use layout::Program;
use std::alloc::{AllocError, Global};
use std::mem;

/// A module with its layouts and the certificates with which it is checked. It has their shapes and their numbers of
/// layouts in place of its own, and trusts what they trust; a module as it is read has no shapes and no numbers, and trusts nothing.
#[derive(Drop)]
pub struct UnderCheck {
    program: Program,
    certs: Certs,
    /// The shapes of the module itself, and what it trusts.
    own: Certified,
}

/// What these certificates say of their module.
fn said_by(alloc: Global, certs: &Certs) -> Result<Certified, AllocError>
    ensures { IfOk result (λ said. said ≡ record { shapes = certs.now.shapes; trusted = certs.now.foreign }) }
{
    let shapes = copy_shapes(alloc, &certs.shapes)?;
    let trusted = copy_outside(alloc, &certs.foreign)?;
    Ok(Certified { shapes, trusted })
}

impl UnderCheck {
    /// A module as it is checked with these certificates. Where it has no layouts with their shapes, both are given back as they were.
    pub fn new(alloc: Global, of_module: Module, certs: Certs) -> Result<Self, NotAccepted>
        ensures of_module { IfOk result (λ under. under.program.of_module ≡ shaped of_module certs) }
        ensures certs { IfOk result (λ under. under.certs ≡ certs) }
        ensures own { IfOk result (λ under. under.own ≡ record { shapes = of_module.shapes; trusted = of_module.trusted }) }
        ensures laid_out { IfOk result (λ under. AreLayouts (shaped of_module certs) under.program.layouts × AreSizes (shaped of_module certs) under.program.sizes) }
        ensures fault { IfErr result (λ refused. IsLayoutReason (shaped of_module certs) refused.verdict) }
        ensures only { (words : List (List AWord)) → AreLayouts (shaped of_module certs) words → IfErr result (λ refused. refused.verdict ≡ Reason.Memory) }
        ensures given_back { IfErr result (λ refused. (refused.of_module ≡ of_module) × (refused.certs ≡ certs)) }
    {
        let said = match said_by(alloc, &certs) {
            Ok(said) => said,
            Err(_) => {
                return Err(NotAccepted {
                    verdict: Reason::Memory,
                    of_module,
                    certs,
                });
            }
        };
        let mut of_module = of_module;
        let own = Certified {
            shapes: mem::replace(&mut of_module.shapes, said.shapes),
            trusted: mem::replace(&mut of_module.trusted, said.trusted),
        };
        match Program::new(alloc, of_module) {
            Ok(program) => Ok(UnderCheck {
                program,
                certs,
                own,
            }),
            Err(refused) => Err(NotAccepted {
                verdict: Reason::from(refused.fault),
                of_module: with_certified(refused.of_module, own),
                certs,
            }),
        }
    }

    /// The module as it is checked, with its layouts.
    pub fn program(&self) -> &Program
        ensures { result.now ≡ self.now.program }
    {
        &self.program
    }

    /// The certificates.
    pub fn certs(&self) -> &Certs
        ensures { result.now ≡ self.now.certs }
    {
        &self.certs
    }

    /// The module as it is checked, with its layouts, and the certificates.
    pub fn into_parts(self) -> (Program, Certs)
        ensures { result ≡ (self.program, self.certs) }
    {
        (self.program, self.certs)
    }

    /// The module as it was and the certificates, given back for this reason.
    pub fn refused(self, verdict: Reason) -> NotAccepted
        ensures verdict { result.verdict ≡ verdict }
        ensures of_module { result.of_module ≡ with_certified self.program.of_module self.own.shapes self.own.trusted }
        ensures certs { result.certs ≡ self.certs }
    {
        NotAccepted {
            verdict,
            of_module: with_certified(self.program.into_module(), self.own),
            certs: self.certs,
        }
    }
}

/// A module with this in place of what it has of certificates.
fn with_certified(of_module: Module, said: Certified) -> Module
    ensures { result ≡ with_certified of_module said.shapes said.trusted }
{
    let mut of_module = of_module;
    of_module.shapes = said.shapes;
    of_module.trusted = said.trusted;
    of_module
}
