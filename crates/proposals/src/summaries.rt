use crate::call_graph::CallGraph;
use crate::inferred::{InferredPromise, Shown};
use crate::marks::marks_of;
use crate::needs::needs_of;
use crate::order::callees_first;
use certs::{Family, Mark, Promise, family_of_type, family_of_value};
use ir_ast::{FuncId, Function, Module};
use layout::Program;
use layout_flow::{LayoutFlow, Leads};
use number_tables::{put, row_or};
use std::alloc::{AllocError, Global};

/// How much is promised at first.
#[derive(Clone, Copy)]
pub enum Boldness {
    /// No reference is null.
    Bold,
    /// And each integer parameter is below what is needed of it.
    Bounded,
    /// Nothing is promised of a parameter but its layout.
    Timid,
}

/// How often a function is walked over at most.
const WALK_LIMIT: u8 = 16;

/// What is promised of the functions of a module, as far as it was found.
#[derive(Drop)]
pub struct Summaries {
    marks: Vec<Mark>,
    /// Where the parameters of each function begin.
    firsts: Vec<usize>,
    parameters: Vec<InferredPromise>,
    results: Vec<InferredPromise>,
    /// The functions that are to be walked over, in this order; those from the front were.
    queue: Vec<u32>,
    waiting: Vec<bool>,
    walks: Vec<u8>,
    /// What was promised at first.
    first_parameters: Vec<InferredPromise>,
    first_results: Vec<InferredPromise>,
    /// Whether a reference turned out to be an address outside.
    turned: bool,
}

impl Summaries {
    /// What is promised at first, and all functions are to be walked over.
    pub fn of(
        alloc: Global,
        program: &Program,
        graph: &CallGraph,
        layouts: &LayoutFlow,
        boldness: Boldness,
    ) -> Result<Summaries, AllocError> {
        let mut summaries = Summaries {
            marks: Vec::new(alloc),
            firsts: Vec::new(alloc),
            parameters: Vec::new(alloc),
            results: Vec::new(alloc),
            queue: Vec::new(alloc),
            waiting: Vec::new(alloc),
            walks: Vec::new(alloc),
            first_parameters: Vec::new(alloc),
            first_results: Vec::new(alloc),
            turned: false,
        };
        match summaries.fill(alloc, program, graph, layouts, boldness) {
            Ok(()) => Ok(summaries),
            Err(refused) => {
                drop(summaries);
                Err(refused)
            }
        }
    }

    fn fill(
        &mut self,
        alloc: Global,
        program: &Program,
        graph: &CallGraph,
        layouts: &LayoutFlow,
        boldness: Boldness,
    ) -> Result<(), AllocError> {
        let module = program.module();
        let count = module.functions.len();
        self.marks = marks_of(alloc, graph, count)?;
        self.queue = callees_first(alloc, graph, count)?;
        self.waiting = vec![in alloc; true; count]?;
        self.walks = vec![in alloc; 0u8; count]?;
        let mut number = 0u32;
        for function in module.functions.as_slice() {
            self.add(module, FuncId::new(number), function, layouts, boldness)?;
            number = number.saturating_add(1);
        }
        if boldness == Boldness::Bounded {
            self.ask_bounds(alloc, program)?;
        }
        self.first_parameters = Vec::from_slice(alloc, &self.parameters)?;
        self.first_results = Vec::from_slice(alloc, &self.results)?;
        Ok(())
    }

    /// Begins anew, if a reference turned out to be an address outside: what else was found was found of that reference. What is known of
    /// addresses outside is kept. Returns whether it does.
    pub fn begin_anew(&mut self, alloc: Global, graph: &CallGraph) -> Result<bool, AllocError> {
        if !self.turned {
            return Ok(false);
        }
        self.turned = false;
        let count = self.waiting.len();
        self.queue = callees_first(alloc, graph, count)?;
        for at in 0..count {
            put(&mut self.waiting, at, true);
            put(&mut self.walks, at, 0);
        }
        take_back(&mut self.parameters, &self.first_parameters);
        take_back(&mut self.results, &self.first_results);
        Ok(true)
    }

    /// The mark of a function.
    pub fn mark(&self, func: FuncId) -> Mark {
        row_or(&self.marks, func.number() as usize, Mark::May)
    }

    /// What is promised of a parameter of a function.
    pub fn parameter(&self, func: FuncId, place: usize) -> InferredPromise {
        let first = row_or(&self.firsts, func.number() as usize, usize::MAX);
        row_or(
            &self.parameters,
            first.saturating_add(place),
            InferredPromise::Nothing,
        )
    }

    /// What is promised of the result of a function.
    pub fn result(&self, func: FuncId) -> InferredPromise {
        row_or(
            &self.results,
            func.number() as usize,
            InferredPromise::Nothing,
        )
    }

    /// What is promised of the result of a function, as a certificate writes it.
    pub fn promised(&self, func: FuncId) -> Option<Promise> {
        self.result(func).promise()
    }

    /// The function that is to be walked over after this number of others.
    pub fn next(&mut self, at: usize) -> Option<FuncId> {
        let func = self.queue.get(at).copied()?;
        put(&mut self.waiting, func as usize, false);
        let walks = row_or(&self.walks, func as usize, 0);
        put(&mut self.walks, func as usize, walks.saturating_add(1));
        Some(FuncId::new(func))
    }

    /// Whether a function was not walked over too often.
    pub fn may_walk(&self, func: FuncId) -> bool {
        row_or(&self.walks, func.number() as usize, 0) <= WALK_LIMIT
    }

    /// This is known of the argument of a call at a place.
    pub fn record_argument(
        &mut self,
        func: FuncId,
        place: usize,
        shown: Shown,
    ) -> Result<(), AllocError> {
        let first = row_or(&self.firsts, func.number() as usize, usize::MAX);
        let inferred = self.parameter(func, place);
        let weakened = inferred.weakened(shown);
        if weakened != inferred {
            put(&mut self.parameters, first.saturating_add(place), weakened);
            self.turn(weakened);
            self.wake(func.number())?;
        }
        Ok(())
    }

    /// A promise became this one.
    fn turn(&mut self, weakened: InferredPromise) {
        if weakened.is_outside() {
            self.turned = true;
        }
    }

    /// This is known of the operand of a return.
    pub fn record_result(
        &mut self,
        graph: &CallGraph,
        func: FuncId,
        shown: Shown,
    ) -> Result<(), AllocError> {
        let inferred = self.result(func);
        let weakened = inferred.weakened(shown);
        if weakened != inferred {
            put(&mut self.results, func.number() as usize, weakened);
            self.turn(weakened);
            for caller in graph.callers.group(func.number() as usize) {
                self.wake(*caller)?;
            }
        }
        Ok(())
    }

    fn wake(&mut self, func: u32) -> Result<(), AllocError> {
        if !row_or(&self.waiting, func as usize, true) {
            put(&mut self.waiting, func as usize, true);
            self.queue.push(func)?;
        }
        Ok(())
    }

    /// The promises of a function.
    fn add(
        &mut self,
        module: &Module,
        func: FuncId,
        function: &Function,
        layouts: &LayoutFlow,
        boldness: Boldness,
    ) -> Result<(), AllocError> {
        let nonnull = boldness != Boldness::Timid;
        self.firsts.push(self.parameters.len())?;
        for parameter in function.parameters.as_slice() {
            let family = family_of_value(module, function, parameter.value);
            let leads = leads_of(module, &family, layouts.of_value(func, parameter.value));
            let inferred = InferredPromise::of(family, nonnull, None, leads);
            self.parameters.push(inferred)?;
        }
        let family = family_of_type(module, function.returned);
        let leads = leads_of(module, &family, layouts.of_result(func));
        let inferred = InferredPromise::of(family, true, Some(1), leads);
        self.results.push(inferred)?;
        Ok(())
    }

    /// Each integer parameter is to be below what is needed of it.
    fn ask_bounds(&mut self, alloc: Global, program: &Program) -> Result<(), AllocError> {
        for at in 0..self.queue.len() {
            if let Some(func) = self.queue.get(at).copied() {
                self.ask_bounds_of(alloc, program, FuncId::new(func))?;
            }
        }
        Ok(())
    }

    fn ask_bounds_of(
        &mut self,
        alloc: Global,
        program: &Program,
        func: FuncId,
    ) -> Result<(), AllocError> {
        let Some(function) = program.module().functions.get(func.number() as usize) else {
            return Ok(());
        };
        let needs = needs_of(alloc, program, function, self)?;
        self.ask_needs(func, function, &needs);
        drop(needs);
        Ok(())
    }

    fn ask_needs(&mut self, func: FuncId, function: &Function, needs: &[Option<u64>]) {
        let first = row_or(&self.firsts, func.number() as usize, usize::MAX);
        let mut place = 0usize;
        for parameter in function.parameters.as_slice() {
            let at = first.saturating_add(place);
            if self.parameter(func, place).is_number() {
                let need = row_or(needs, parameter.value.number() as usize, None);
                put(&mut self.parameters, at, InferredPromise::Number(need));
            }
            place = place.saturating_add(1);
        }
    }
}

/// Each promise becomes what it was at first, but for those of addresses outside.
fn take_back(promises: &mut [InferredPromise], first: &[InferredPromise]) {
    for at in 0..promises.len() {
        let now = row_or(promises, at, InferredPromise::Nothing);
        if !now.is_outside() {
            put(promises, at, row_or(first, at, InferredPromise::Nothing));
        }
    }
}

/// Where a value of this family leads, of which this was found. Where the wide forms may stand, a pointer that can be no reference leads outside.
fn leads_of(module: &Module, family: &Family, found: Leads) -> Leads {
    match *family {
        Family::Address if module.wide => Leads::Outside,
        _ => found,
    }
}
