//! The walk over one function, until the claims of its blocks do not change.
use crate::best::best_claims;
use crate::call_graph::{CallGraph, defined};
use crate::draft_claims::{BlockClaims, DraftClaims};
use crate::first_claims::first_claims;
use crate::flow_facts::{Edge, FlowFacts};
use crate::summaries::Summaries;
use crate::summary::FunctionSummary;
use crate::weaken::{lists_less_of_fresh, weakened};
use block_rules::{RuleContext, TypeKind};
use certs::Claim;
use indexmap::IndexSet;
use ir_ast::{Argument, BlockId, Case, End, Instr, Op, Operand, ValueId};
use std::alloc::{AllocError, Global};
use types::target_of;

/// What a walk looks at.
#[derive(Clone, Copy)]
pub struct FunctionContext<'a> {
    pub rule_context: RuleContext<'a>,
    pub summary: &'a FunctionSummary<'a>,
    pub graph: &'a CallGraph,
    /// The lengths of the module's arrays, in order.
    pub lengths: &'a [u64],
}

/// What a walk changes.
#[derive(Drop)]
pub struct FlowAnalysis {
    pub flow: FlowFacts,
    /// All values of which something may be known in the block that is walked over.
    pub names: Vec<ValueId>,
}

/// An edge out of a block, to a label: the value that decides it, if one does, and what that is.
#[derive(Clone, Copy)]
struct LabelledEdge {
    from: BlockId,
    label: ValueId,
    decided: Option<(ValueId, bool)>,
}

impl FlowAnalysis {
    pub fn new(alloc: Global) -> Result<FlowAnalysis, AllocError> {
        let flow = FlowFacts::new(alloc)?;
        Ok(FlowAnalysis {
            flow,
            names: Vec::new(alloc),
        })
    }

    /// Walks over a function until nothing changes, but over each block 64 times at most, taken together.
    pub fn walk(
        &mut self,
        alloc: Global,
        context: &FunctionContext,
        summaries: &mut Summaries,
        draft: &mut DraftClaims,
    ) -> Result<(), AllocError> {
        draft.wake_all()?;
        let blocks = context.rule_context.function.blocks.len();
        let limit = blocks.saturating_mul(64).saturating_add(64);
        let mut unseen = 0u32;
        let mut walked = 0usize;
        for _ in 0..limit {
            match draft.next(walked) {
                Some(block) => {
                    walked = walked.saturating_add(1);
                    self.walk_block(alloc, context, summaries, draft, block)?;
                }
                None => {
                    if unseen as usize >= blocks {
                        return Ok(());
                    }
                    self.seed(alloc, context, draft, BlockId::new(unseen))?;
                    unseen = unseen.saturating_add(1);
                }
            }
        }
        Ok(())
    }

    /// A block that no edge enters begins with all that it needs.
    fn seed(
        &mut self,
        alloc: Global,
        context: &FunctionContext,
        draft: &mut DraftClaims,
        block: BlockId,
    ) -> Result<(), AllocError> {
        if draft.claims(block).is_none() {
            let listed = best_claims(alloc, &context.rule_context, context.summary, block)?;
            draft.set(block, listed);
            draft.wake(block)?;
        }
        Ok(())
    }

    fn walk_block(
        &mut self,
        alloc: Global,
        context: &FunctionContext,
        summaries: &mut Summaries,
        draft: &mut DraftClaims,
        number: BlockId,
    ) -> Result<(), AllocError> {
        let Some(block) = context
            .rule_context
            .function
            .blocks
            .get(number.number() as usize)
        else {
            return Ok(());
        };
        let Some(listed) = draft.claims(number) else {
            return Ok(());
        };
        self.begin(alloc, context, summaries, number, listed)?;
        for instr in block.body.as_slice() {
            self.instr(context, summaries, instr)?;
        }
        self.returned(context, summaries, &block.end)?;
        self.edges(alloc, context, draft, number, &block.end)
    }

    fn begin(
        &mut self,
        alloc: Global,
        context: &FunctionContext,
        summaries: &Summaries,
        number: BlockId,
        listed: &BlockClaims,
    ) -> Result<(), AllocError> {
        self.names.clear();
        if number.number() == 0 {
            for parameter in context.rule_context.function.parameters.as_slice() {
                self.names.push(parameter.value)?;
            }
            self.flow
                .begin_entry(alloc, &context.rule_context, context.summary, summaries)
        } else {
            for claim in listed.claims.as_slice() {
                if let Claim::Value { value, .. } = *claim {
                    self.names.push(value)?;
                }
            }
            self.flow
                .begin(alloc, context.summary, listed.claims.as_slice())
        }
    }

    fn instr(
        &mut self,
        context: &FunctionContext,
        summaries: &mut Summaries,
        instr: &Instr,
    ) -> Result<(), AllocError> {
        if let Op::Call(call) = &instr.op {
            if let Some(callee) = defined(context.rule_context.module(), call.callee) {
                let mut place = 0usize;
                for argument in call.arguments.as_slice() {
                    let shown = self.shown(context, argument);
                    summaries.record_argument(callee, place, shown)?;
                    place = place.saturating_add(1);
                }
            }
        }
        self.flow.step(&context.rule_context, summaries, instr)?;
        if let Some(value) = instr.result {
            self.names.push(value)?;
        }
        Ok(())
    }

    fn shown(&self, context: &FunctionContext, argument: &Argument) -> crate::inferred::Shown {
        let module = context.rule_context.module();
        let kind = TypeKind::of(module, argument.written);
        self.flow.shown(module, &argument.operand, kind)
    }

    /// What a block returns, if it does, is recorded for the callers.
    fn returned(
        &mut self,
        context: &FunctionContext,
        summaries: &mut Summaries,
        end: &End,
    ) -> Result<(), AllocError> {
        match end {
            End::Return(argument) => {
                let shown = self.shown(context, argument);
                summaries.record_result(context.graph, context.summary.func, shown)
            }
            _ => Ok(()),
        }
    }

    fn edges(
        &mut self,
        alloc: Global,
        context: &FunctionContext,
        draft: &mut DraftClaims,
        from: BlockId,
        end: &End,
    ) -> Result<(), AllocError> {
        match end {
            End::Jump(label) => self.open_edge(alloc, context, draft, from, *label),
            End::Branch {
                condition,
                taken,
                other,
                ..
            } => {
                let on = LabelledEdge {
                    from,
                    label: *taken,
                    decided: decided_by(condition, true),
                };
                self.edge(alloc, context, draft, on)?;
                let off = LabelledEdge {
                    from,
                    label: *other,
                    decided: decided_by(condition, false),
                };
                self.edge(alloc, context, draft, off)
            }
            End::Switch {
                otherwise,
                cases,
                ..
            } => {
                self.open_edge(alloc, context, draft, from, *otherwise)?;
                let targets = targets_of(alloc, cases.as_slice())?;
                let walked = self.open_edges(alloc, context, draft, from, &targets);
                drop(targets);
                walked
            }
            End::Return(_) | End::Unreachable | End::ReturnVoid => Ok(()),
        }
    }

    /// Edges that nothing decides of which something is known.
    fn open_edges(
        &mut self,
        alloc: Global,
        context: &FunctionContext,
        draft: &mut DraftClaims,
        from: BlockId,
        labels: &[ValueId],
    ) -> Result<(), AllocError> {
        for label in labels {
            self.open_edge(alloc, context, draft, from, *label)?;
        }
        Ok(())
    }

    /// An edge that nothing decides of which something is known.
    fn open_edge(
        &mut self,
        alloc: Global,
        context: &FunctionContext,
        draft: &mut DraftClaims,
        from: BlockId,
        label: ValueId,
    ) -> Result<(), AllocError> {
        let edge = LabelledEdge {
            from,
            label,
            decided: None,
        };
        self.edge(alloc, context, draft, edge)
    }

    fn edge(
        &mut self,
        alloc: Global,
        context: &FunctionContext,
        draft: &mut DraftClaims,
        labelled: LabelledEdge,
    ) -> Result<(), AllocError> {
        let Some(to) = target_of(context.rule_context.function, labelled.label) else {
            return Ok(());
        };
        if to.number() == 0 {
            return Ok(());
        }
        let edge = Edge {
            from: labelled.from,
            to,
        };
        self.flow.enter(
            alloc,
            &context.rule_context,
            context.summary,
            edge,
            labelled.decided,
        )?;
        match self.claims_after(alloc, context, draft, to)? {
            Some(listed) => change(context, draft, to, listed),
            None => Ok(()),
        }
    }

    /// The claims of a block after one more edge to it, if they change.
    fn claims_after(
        &mut self,
        alloc: Global,
        context: &FunctionContext,
        draft: &DraftClaims,
        to: BlockId,
    ) -> Result<Option<BlockClaims>, AllocError> {
        match draft.claims(to) {
            Some(listed) => weakened(
                alloc,
                context.summary,
                &mut self.flow,
                context.lengths,
                listed,
            ),
            None => {
                let claims = self.first_claims_at(alloc, context, to)?;
                Ok(Some(claims))
            }
        }
    }

    fn first_claims_at(
        &mut self,
        alloc: Global,
        context: &FunctionContext,
        to: BlockId,
    ) -> Result<BlockClaims, AllocError> {
        first_claims(
            alloc,
            context.rule_context,
            context.summary,
            self.flow.edge(),
            to,
            &self.names,
        )
    }
}

/// Puts claims in the place of those of a block, and wakes it. Where they list less of what is fresh, an edge that was walked may imply
/// them no longer. So the blocks from which the block is entered are woken too.
fn change(
    context: &FunctionContext,
    draft: &mut DraftClaims,
    to: BlockId,
    listed: BlockClaims,
) -> Result<(), AllocError> {
    let again = match draft.claims(to) {
        Some(before) => lists_less_of_fresh(before, &listed),
        None => false,
    };
    draft.set(to, listed);
    draft.wake(to)?;
    if again {
        let predecessors = &context.summary.reading.predecessors;
        for from in predecessors.group(to.number() as usize) {
            draft.wake(BlockId::new(*from))?;
        }
    }
    Ok(())
}

/// The targets of cases, each once, since a further edge to one says the same.
fn targets_of(alloc: Global, cases: &[Case]) -> Result<Vec<ValueId>, AllocError> {
    let mut seen = IndexSet::new(alloc);
    let mut targets = Vec::new(alloc);
    for case in cases {
        if seen.insert(case.target.number())? {
            targets.push(case.target)?;
        }
    }
    Ok(targets)
}

fn decided_by(condition: &Operand, taken: bool) -> Option<(ValueId, bool)> {
    match condition {
        Operand::Local(value) => Some((*value, taken)),
        _ => None,
    }
}
