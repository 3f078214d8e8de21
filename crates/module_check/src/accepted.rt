ghost use Rattle.std.specs.Prelude.{◌≡◌, length};
ghost use Rattle.module_check.specs.Accepted.{IsModuleCertified};
ghost use Rattle.module_check.specs.Discipline.{AreDisciplined};
ghost use Rattle.program_safety.specs.Safety.{IsCarefulProgram, IsSafeProgram};

use certs::Certs;
use layout::Program;
use program_safety::{discipline_law, program_law};
use std::marker::Model;

/// A module whose blocks are certified, each with its layouts and its certificates.
#[derive(Drop)]
pub struct Accepted {
    program: Program,
    certs: Certs,
}

impl Model for Accepted {
    ghost use Rattle.std.specs.Prelude.{length};
    ghost use Rattle.module_check.specs.Accepted.{CertifiedProgram, IsModuleCertified};

    ghost Value = { CertifiedProgram };

    ghost view = { λ accepted. record { program = accepted.program; certs = accepted.certs } };

    ghost invariant = { λ accepted. IsModuleCertified accepted.program accepted.certs.sections (length accepted.program.of_module.functions) };
}

impl Accepted {
    /// A program and certificates with which each of its blocks is certified.
    pub fn of(program: Program, certs: Certs) -> Self
        requires { IsModuleCertified program certs.sections (length program.of_module.functions) }
        ensures holds { result ≡ record { program = program; certs = certs } }
        ensures disciplined { AreDisciplined result.program result.certs.sections }
        ensures careful { IsCarefulProgram result.program result.certs.sections }
        ensures safe { IsSafeProgram result.program result.certs.sections }
    {
        discipline_law();
        program_law();
        Accepted { program, certs }
    }

    /// The module with its layouts. Its threads obey the discipline, if they start with arguments that fit and meet what is
    /// promised, and all runs of such threads and the collector are safe.
    pub fn program(&self) -> &Program
        ensures program { result.now ≡ self.now.program }
        ensures certified { IsModuleCertified result.now self.now.certs.sections (length result.now.of_module.functions) }
        ensures disciplined { AreDisciplined result.now self.now.certs.sections }
        ensures careful { IsCarefulProgram result.now self.now.certs.sections }
        ensures safe { IsSafeProgram result.now self.now.certs.sections }
    {
        discipline_law();
        program_law();
        &self.program
    }

    /// The certificates.
    pub fn certs(&self) -> &Certs
        ensures { result.now ≡ self.now.certs }
    {
        &self.certs
    }
}
