//! Certificates that are proposed for a whole module.
use crate::call_graph::CallGraph;
use crate::draft_claims::DraftClaims;
pub use crate::summaries::Boldness;
use crate::summaries::Summaries;
use crate::summary::FunctionSummary;
use crate::walk::{FlowAnalysis, FunctionContext};
use block_rules::RuleContext;
use certs::{Certs, Promise, Section};
use ir_ast::{FuncId, IrType, Module, Outside, TypeId};
use items::Items;
use layout::Program;
use layout_flow::LayoutFlow;
use std::alloc::{AllocError, Global};

/// How often certificates are proposed anew at most.
const ROUND_LIMIT: u8 = 8;

/// What all walks look at.
#[derive(Clone, Copy)]
struct ModuleContext<'a> {
    program: &'a Program,
    graph: &'a CallGraph,
    layouts: &'a LayoutFlow,
    /// No certificates.
    none: &'a Certs,
    /// The lengths of the module's arrays, in order.
    lengths: &'a [u64],
}

/// Certificates for a module, which may be refused. Each is to say what the rules imply of its functions, or less.
pub fn propose(alloc: Global, program: &Program, boldness: Boldness) -> Result<Certs, AllocError> {
    let graph = CallGraph::of(alloc, program.module())?;
    let certs = propose_over(alloc, program, &graph, boldness);
    drop(graph);
    certs
}

fn propose_over(
    alloc: Global,
    program: &Program,
    graph: &CallGraph,
    boldness: Boldness,
) -> Result<Certs, AllocError> {
    let layouts = LayoutFlow::of(alloc, program)?;
    let certs = propose_with(alloc, program, graph, &layouts, boldness);
    drop(layouts);
    certs
}

fn propose_with(
    alloc: Global,
    program: &Program,
    graph: &CallGraph,
    layouts: &LayoutFlow,
    boldness: Boldness,
) -> Result<Certs, AllocError> {
    let mut summaries = Summaries::of(alloc, program, graph, layouts, boldness)?;
    let certs = propose_in_rounds(alloc, program, graph, layouts, &mut summaries);
    drop(summaries);
    certs
}

/// Proposes anew as long as a reference turns out to be an address outside, but not too often.
fn propose_in_rounds(
    alloc: Global,
    program: &Program,
    graph: &CallGraph,
    layouts: &LayoutFlow,
    summaries: &mut Summaries,
) -> Result<Certs, AllocError> {
    for _ in 0..ROUND_LIMIT {
        let certs = propose_from(alloc, program, graph, layouts, summaries)?;
        match summaries.begin_anew(alloc, graph) {
            Ok(false) => return Ok(certs),
            Ok(true) => drop(certs),
            Err(refused) => {
                drop(certs);
                return Err(refused);
            }
        }
    }
    propose_from(alloc, program, graph, layouts, summaries)
}

fn propose_from(
    alloc: Global,
    program: &Program,
    graph: &CallGraph,
    layouts: &LayoutFlow,
    summaries: &mut Summaries,
) -> Result<Certs, AllocError> {
    let mut drafts = drafts_of(alloc, program.module())?;
    let certs = match walk_all(alloc, program, graph, layouts, summaries, &mut drafts) {
        Ok(()) => certs_of(alloc, program.module(), summaries, &drafts),
        Err(refused) => Err(refused),
    };
    drop(drafts);
    certs
}

fn drafts_of(alloc: Global, module: &Module) -> Result<Vec<DraftClaims>, AllocError> {
    let mut drafts = Vec::new(alloc);
    for function in module.functions.as_slice() {
        let draft = DraftClaims::new(alloc, function.blocks.len())?;
        drafts.push(draft)?;
    }
    Ok(drafts)
}

/// Walks over functions until nothing changes.
fn walk_all(
    alloc: Global,
    program: &Program,
    graph: &CallGraph,
    layouts: &LayoutFlow,
    summaries: &mut Summaries,
    drafts: &mut [DraftClaims],
) -> Result<(), AllocError> {
    let lengths = lengths_of(alloc, program.module())?;
    let none = Certs {
        sections: Items::new(alloc),
        shapes: None,
        foreign: Outside::none(alloc),
    };
    let context = ModuleContext {
        program,
        graph,
        layouts,
        none: &none,
        lengths: &lengths,
    };
    let walked = walk_with(alloc, &context, summaries, drafts);
    drop(none);
    drop(lengths);
    walked
}

fn walk_with(
    alloc: Global,
    context: &ModuleContext,
    summaries: &mut Summaries,
    drafts: &mut [DraftClaims],
) -> Result<(), AllocError> {
    let mut analysis = FlowAnalysis::new(alloc)?;
    let walked = walk_each(alloc, context, &mut analysis, summaries, drafts);
    drop(analysis);
    walked
}

fn walk_each(
    alloc: Global,
    context: &ModuleContext,
    analysis: &mut FlowAnalysis,
    summaries: &mut Summaries,
    drafts: &mut [DraftClaims],
) -> Result<(), AllocError> {
    for at in 0..usize::MAX {
        let Some(func) = summaries.next(at) else {
            break;
        };
        if summaries.may_walk(func) {
            walk_one(alloc, context, analysis, summaries, drafts, func)?;
        }
    }
    Ok(())
}

fn walk_one(
    alloc: Global,
    context: &ModuleContext,
    analysis: &mut FlowAnalysis,
    summaries: &mut Summaries,
    drafts: &mut [DraftClaims],
    func: FuncId,
) -> Result<(), AllocError> {
    let number = func.number() as usize;
    let module = context.program.module();
    let Some(function) = module.functions.get(number) else {
        return Ok(());
    };
    if number >= drafts.len() {
        return Ok(());
    }
    let summary = FunctionSummary::of(alloc, module, func, function, context.layouts)?;
    let function_context = FunctionContext {
        rule_context: RuleContext {
            program: context.program,
            certs: context.none,
            function,
            slots: &summary.slots,
        },
        summary: &summary,
        graph: context.graph,
        lengths: context.lengths,
    };
    let walked = analysis.walk(alloc, &function_context, summaries, &mut drafts[number]);
    drop(summary);
    walked
}

/// The lengths of the arrays of a module's types, in order.
fn lengths_of(alloc: Global, module: &Module) -> Result<Vec<u64>, AllocError> {
    let mut lengths = Vec::new(alloc);
    let Ok(count) = u32::try_from(module.types.count()) else {
        return Ok(lengths);
    };
    for number in 0..count {
        if let Some(length) = length_of(module, TypeId::new(number)) {
            lengths.push(length)?;
        }
    }
    lengths.sort()?;
    Ok(lengths)
}

/// The length of an array's type.
fn length_of(module: &Module, written: TypeId) -> Option<u64> {
    match module.types.get(written)? {
        IrType::Array { length, .. } => Some(length),
        _ => None,
    }
}

/// The certificates that the drafts and the promises make.
fn certs_of(
    alloc: Global,
    module: &Module,
    summaries: &Summaries,
    drafts: &[DraftClaims],
) -> Result<Certs, AllocError> {
    let mut sections = Items::new(alloc);
    let mut number = 0u32;
    for draft in drafts {
        let section = section_of(alloc, module, summaries, FuncId::new(number), draft)?;
        sections.push(section)?;
        number = number.saturating_add(1);
    }
    Ok(Certs {
        sections,
        shapes: None,
        foreign: Outside::none(alloc),
    })
}

fn section_of(
    alloc: Global,
    module: &Module,
    summaries: &Summaries,
    func: FuncId,
    draft: &DraftClaims,
) -> Result<Section, AllocError> {
    let blocks = draft.each_claims(alloc)?;
    let Ok(parameters) = promises_of(alloc, module, summaries, func) else {
        drop(blocks);
        return Err(AllocError);
    };
    Ok(Section {
        mark: summaries.mark(func),
        parameters,
        result: summaries.promised(func),
        blocks,
    })
}

fn promises_of(
    alloc: Global,
    module: &Module,
    summaries: &Summaries,
    func: FuncId,
) -> Result<Items<Option<Promise>>, AllocError> {
    let mut promises = Items::new(alloc);
    let Some(function) = module.functions.get(func.number() as usize) else {
        return Ok(promises);
    };
    for place in 0..function.parameters.len() {
        promises.push(summaries.parameter(func, place).promise())?;
    }
    Ok(promises)
}
