//! A function whose refusals are diagnosed: what is found of it once for all of them.
use crate::before::lead_to;
use crate::changes::CodeAt;
use crate::diagnosis::{Diagnosis, Draft};
use crate::edges::learn_branch;
use crate::entered::predecessors_of;
use crate::refusals::find;
use crate::scene::Scene;
use block_rules::{Refusal, RuleContext};
use certs::Certs;
use facts::{Facts, SpareRows};
use ir_ast::{FuncId, Function, Module};
use layout::Program;
use number_tables::Buckets;
use shadow_stack::{Slots, slots_of};
use std::alloc::{AllocError, Global};

/// The slots of a function, and which blocks lead to each of its blocks.
#[derive(Drop)]
pub(crate) struct FunctionTables {
    pub(crate) slots: Slots,
    pub(crate) entered: Buckets,
}

impl FunctionTables {
    pub(crate) fn of(
        alloc: Global,
        of_module: &Module,
        function: &Function,
    ) -> Result<FunctionTables, AllocError> {
        Ok(FunctionTables {
            slots: slots_of(alloc, of_module, function)?,
            entered: predecessors_of(alloc, function)?,
        })
    }
}

/// A function of a program whose refusals are diagnosed.
#[derive(Drop)]
pub struct UnderDiagnosis<'a> {
    alloc: Global,
    program: &'a Program,
    certs: &'a Certs,
    func: FuncId,
    function: &'a Function,
    tables: FunctionTables,
    /// What is known where the last refusal was, whose rows serve again.
    facts: Facts,
    spare: SpareRows,
}

impl<'a> UnderDiagnosis<'a> {
    /// The function with this number, if there is one.
    pub fn new(
        alloc: Global,
        program: &'a Program,
        certs: &'a Certs,
        func: FuncId,
    ) -> Result<Option<UnderDiagnosis<'a>>, AllocError> {
        let of_module = program.module();
        let Some(function) = of_module.functions.get(func.number() as usize) else {
            return Ok(None);
        };
        Ok(Some(UnderDiagnosis {
            alloc,
            program,
            certs,
            func,
            function,
            tables: FunctionTables::of(alloc, of_module, function)?,
            facts: Facts::new(alloc, 0, 0)?,
            spare: SpareRows::none(),
        }))
    }

    /// Whether this is the function with this number.
    pub fn is_of(&self, func: FuncId) -> bool {
        self.func == func
    }

    /// What is wrong with a refused instruction of the function, what is known there, and what mends it.
    pub fn diagnose(&mut self, refusal: Refusal) -> Result<Diagnosis, AllocError> {
        let context = RuleContext {
            program: self.program,
            certs: self.certs,
            function: self.function,
            slots: &self.tables.slots,
        };
        let Refusal { func, block, .. } = refusal;
        let at = CodeAt {
            func,
            block,
            place: refusal.instr,
        };
        lead_to(self.alloc, &mut self.spare, &context, at, &mut self.facts)?;
        if let Some(detail) = &refusal.detail {
            learn_branch(&mut self.facts, self.function, block, detail.target)?;
        }
        let scene = Scene {
            alloc: self.alloc,
            context,
            entered: &self.tables.entered,
            facts: &self.facts,
            refusal,
        };
        let mut found = Draft::new(&scene);
        find(&mut found, &scene);
        found.finish()
    }
}
