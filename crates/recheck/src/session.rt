ghost use Rattle.std.specs.Prelude.{◌≡◌, ◌≢◌, List, length, IfOk, IfErr, OnOk, OnErr, MatchOption};
ghost use Rattle.certs.specs.declared.section.Section.{Section as ASection};
ghost use Rattle.ir_ast.specs.declared.module.Module.{Module as AModule};
ghost use Rattle.layout.specs.Layouts.{AreLayouts};
ghost use Rattle.module_check.specs.Accepted.{IsAccepted, IsFirstRefusal, IsLayoutReason, shaped};
ghost use Rattle.module_check.specs.declared.verdict.Reason.TheVariants as verdict;
ghost use Rattle.pools.specs.declared.word_kind.WordKind.{WordKind as AWord};
ghost use Rattle.recheck.specs.Edits.{IsRead, IsEdited, IsEditFault, IsEditAccepted, IsRefusedBy};
ghost use Rattle.recheck.specs.Fitting.{HaveSameTables, IsFitting};
ghost use Rattle.recheck.specs.declared.edit_fault.EditFault.{EditFault as AFault};
ghost use Rattle.recheck.specs.declared.edit_fault.EditFault.TheVariants as fault;

use crate::edit::Edit;
use crate::edit_fault::EditFault;
use crate::edits::put_edit;
use crate::kept::KeptWork;
use crate::laws::fitting_law;
use answers::{KeptFunctions, KeptRows, answers_to, first_refusal};
use block_rules::Refusal;
use certs::Certs;
use ir_ast::Module;
use layout::Program;
use module_check::{NotAccepted, Reason, UnderCheck};
use std::alloc::Global;
use std::marker::Model;

/// A module with its layouts and certificates, and the answer to each of its functions.
#[derive(Drop)]
pub struct Session {
    program: Program,
    certs: Certs,
    kept: KeptWork,
    rechecked: u64,
}

impl Model for Session {
    ghost use Rattle.recheck.specs.Put.{IsKept};
    ghost use Rattle.recheck.specs.Session.{State};

    ghost Value = { State };

    ghost view = { λ session. record { program = session.program; certs = session.certs; rechecked = session.rechecked } };

    ghost invariant = { λ session. IsKept session.program session.certs.sections session.kept };
}

impl Session {
    /// Checks a module with its certificates, whose shapes it has from then on, and which it trusts as they say. It is refused only where the module
    /// has no layouts, or for memory; both are given back then.
    pub fn new(alloc: Global, of_module: Module, certs: Certs) -> Result<Self, NotAccepted>
        requires { length certs.sections ≡ length of_module.functions }
        ensures of_module { IfOk result (λ session. session.program.of_module ≡ shaped of_module certs) }
        ensures certs { IfOk result (λ session. session.certs ≡ certs) }
        ensures rechecked { IfOk result (λ session. session.rechecked ≡ 0) }
        ensures fault { IfErr result (λ refused. IsLayoutReason (shaped of_module certs) refused.verdict) }
        ensures only { (layouts : List (List AWord)) → AreLayouts (shaped of_module certs) layouts → IfErr result (λ refused. refused.verdict ≡ verdict.Memory) }
        ensures given_back { IfErr result (λ refused. (refused.of_module ≡ of_module) × (refused.certs ≡ certs)) }
    {
        let under = UnderCheck::new(alloc, of_module, certs)?;
        match answers_to(alloc, under.program(), under.certs()) {
            Ok(answers) => {
                let rows = KeptRows::new(alloc, answers.len());
                let (program, certs) = under.into_parts();
                Ok(Session {
                    program,
                    certs,
                    kept: KeptWork {
                        functions: KeptFunctions { answers, rows },
                        tables: None,
                    },
                    rechecked: 0,
                })
            }
            Err(_) => Err(under.refused(Reason::Memory)),
        }
    }

    /// Puts the texts of an edit in the place of the code, the section, or both of the function that it names. Where only code is
    /// given, the section is read anew with it, from the text that it has with the code that was there. An edit that is refused
    /// leaves the session as it was.
    pub fn apply(&mut self, alloc: Global, edit: &Edit) -> Result<(), EditFault>
        // The session is the one that comes of the edit.
        ensures accepted { OnOk result (IsEdited self.old edit.now self.new) }
        ensures kept { OnErr result (self.new ≡ self.old) }
        // An edit that is read as a module and a section is accepted, unless memory runs out.
        ensures only { (m : AModule) (section : ASection) → IsRead self.old edit.now m section → IsEditAccepted result }
        // What is refused is refused for its first fault.
        ensures fault { IfErr result (λ e. e ≢ fault.Memory → IsEditFault self.old edit.now e) }
        // What has a first fault is refused for it, unless memory runs out.
        ensures only_fault { (e : AFault) → IsEditFault self.old edit.now e → IsRefusedBy result e }
        // Certificates that fit the module fit it after an edit that adds nothing to its tables.
        ensures fitting { IsFitting self.old → HaveSameTables self.old self.new → OnOk result (IsFitting self.new) }
    {
        fitting_law();
        let rechecked = match put_edit(
            alloc,
            &mut self.program,
            &mut self.certs,
            &mut self.kept,
            edit,
        ) {
            Ok(rechecked) => rechecked,
            Err(fault) => return Err(fault),
        };
        self.rechecked = rechecked;
        Ok(())
    }

    /// What `check` finds in the present module with its certificates: nothing, or the first refused instruction.
    pub fn verdict(&self) -> Option<Refusal>
        ensures { MatchOption result (IsAccepted self.now.program.of_module self.now.certs.sections) (IsFirstRefusal self.now.program.of_module self.now.certs.sections) }
    {
        first_refusal(self.kept.functions.answers.as_slice())
    }

    /// How many functions the last edit concerns: the one that it replaced, and its callers where they see something else of
    /// it. 0 before the first edit that was accepted. Where a type is new, all functions are checked, and the number stays this one.
    pub fn rechecked(&self) -> u64
        ensures { result ≡ self.now.rechecked }
    {
        self.rechecked
    }

    /// The present module with its layouts.
    pub fn program(&self) -> &Program
        ensures { result.now ≡ self.now.program }
    {
        &self.program
    }

    /// The present certificates.
    pub fn certs(&self) -> &Certs
        ensures { result.now ≡ self.now.certs }
    {
        &self.certs
    }
}
