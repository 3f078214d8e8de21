//! What is known at a place of a function, and how it goes on, by the rules.
use crate::call_graph::defined;
use crate::inferred::Shown;
use crate::summaries::Summaries;
use crate::summary::FunctionSummary;
use block_rules::{RuleContext, TypeKind, advance, below_next, given_by, known_in, known_of};
use certs::{Claim, Mark};
use facts::{Entry, Facts, Known, SpareRows};
use ir_ast::{BlockId, Call, Constant, Instr, Module, Op, Operand, Runtime, ValueId};
use items::Items;
use std::alloc::{AllocError, Global};
use types::{layout_meant, runtime_called};

/// Which facts are those of the edge that was entered.
#[derive(Clone, Copy)]
enum EdgeFacts {
    /// Those where it begins, since the edge changes nothing.
    Unchanged,
    /// Those in `changed`.
    Changed,
}

/// An edge from a block to another.
#[derive(Clone, Copy)]
pub struct Edge {
    pub from: BlockId,
    pub to: BlockId,
}

/// What is known at a place of a block, on an edge out of it, and where the block to which the edge leads begins.
#[derive(Drop)]
pub struct FlowFacts {
    pub here: Facts,
    pub there: Facts,
    edge_facts: EdgeFacts,
    changed: Facts,
    entries: Items<Entry>,
    spare: SpareRows,
}

impl FlowFacts {
    pub fn new(alloc: Global) -> Result<FlowFacts, AllocError> {
        let here = Facts::new(alloc, 0, 0)?;
        let Ok(changed) = Facts::new(alloc, 0, 0) else {
            drop(here);
            return Err(AllocError);
        };
        let Ok(there) = Facts::new(alloc, 0, 0) else {
            drop(here);
            drop(changed);
            return Err(AllocError);
        };
        Ok(FlowFacts {
            here,
            there,
            edge_facts: EdgeFacts::Unchanged,
            changed,
            entries: Items::new(alloc),
            spare: SpareRows::none(),
        })
    }

    /// Goes to where the function begins.
    pub fn begin_entry(
        &mut self,
        alloc: Global,
        rule_context: &RuleContext,
        summary: &FunctionSummary,
        summaries: &Summaries,
    ) -> Result<(), AllocError> {
        self.here
            .reset(alloc, summary.values, summary.slots.count())?;
        let mut place = 0usize;
        for parameter in rule_context.function.parameters.as_slice() {
            let given = given_by(TypeKind::of(rule_context.module(), parameter.written));
            let promise = summaries.parameter(summary.func, place).promise();
            self.here.receive(parameter.value, given, promise)?;
            place = place.saturating_add(1);
        }
        Ok(())
    }

    /// Goes to where a block with these claims begins.
    pub fn begin(
        &mut self,
        alloc: Global,
        summary: &FunctionSummary,
        claims: &[Claim],
    ) -> Result<(), AllocError> {
        self.here.begin(
            alloc,
            &mut self.spare,
            summary.values,
            &summary.slots,
            claims,
        )
    }

    /// What a target with these claims begins with.
    pub fn begin_there(
        &mut self,
        alloc: Global,
        summary: &FunctionSummary,
        claims: &[Claim],
    ) -> Result<(), AllocError> {
        self.there.begin(
            alloc,
            &mut self.spare,
            summary.values,
            &summary.slots,
            claims,
        )
    }

    /// Goes past an instruction.
    pub fn step(
        &mut self,
        rule_context: &RuleContext,
        summaries: &Summaries,
        instr: &Instr,
    ) -> Result<(), AllocError> {
        if let Op::Call(call) = &instr.op {
            if let Some(callee) = defined(rule_context.module(), call.callee) {
                self.drop_arguments(call)?;
                if summaries.mark(callee) == Mark::May {
                    self.here.make_stale()?;
                }
                return self.receive_result(
                    rule_context,
                    instr.result,
                    call,
                    summaries.promised(callee),
                );
            }
            if is_of_no_layout(rule_context.module(), call) {
                return self.receive_result(rule_context, instr.result, call, None);
            }
        }
        advance(rule_context, &mut self.here, instr)
    }

    fn drop_arguments(&mut self, call: &Call) -> Result<(), AllocError> {
        for argument in call.arguments.as_slice() {
            let known = known_of(&self.here, &argument.operand);
            self.here.drop_fresh_of(known)?;
        }
        Ok(())
    }

    fn receive_result(
        &mut self,
        rule_context: &RuleContext,
        defined: Option<ValueId>,
        call: &Call,
        promise: Option<certs::Promise>,
    ) -> Result<(), AllocError> {
        match defined {
            Some(value) => {
                let given = given_by(TypeKind::of(rule_context.module(), call.returned));
                self.here.receive(value, given, promise)
            }
            None => Ok(()),
        }
    }

    /// What is known of an operand here, where its type is of this kind.
    pub fn shown(&self, module: &Module, operand: &Operand, kind: TypeKind) -> Shown {
        match operand {
            Operand::Constant(Constant::Number(number)) => Shown::Number(below_next(*number)),
            Operand::Constant(Constant::Null) => Shown::Null,
            Operand::Constant(Constant::Float(_) | Constant::Truth(_)) => Shown::Number(None),
            operand => self.shown_of(known_in(module, &self.here, operand), kind),
        }
    }

    fn shown_of(&self, known: Known, kind: TypeKind) -> Shown {
        match known {
            Known::Number { below, .. } => match kind {
                TypeKind::Bits(_) => Shown::Number(below),
                _ => Shown::Outside,
            },
            Known::Null => Shown::Null,
            Known::Cell { class, layout, .. } => {
                if kind.fits_layout(layout) {
                    let nonnull = self.here.class(class).nonnull;
                    Shown::Cell { layout, nonnull }
                } else {
                    Shown::Nothing
                }
            }
            Known::Nothing | Known::Address { .. } | Known::GlobalAddress(_) => Shown::Nothing,
        }
    }

    /// Goes on an edge to a block, past its phis; `decided` is the value that decides the edge, and what it is.
    pub fn enter(
        &mut self,
        alloc: Global,
        rule_context: &RuleContext,
        summary: &FunctionSummary,
        edge: Edge,
        decided: Option<(ValueId, bool)>,
    ) -> Result<(), AllocError> {
        let enters_phis = has_phis(rule_context, edge.to);
        if decided.is_none() && !enters_phis {
            self.edge_facts = EdgeFacts::Unchanged;
            return Ok(());
        }
        self.edge_facts = EdgeFacts::Changed;
        self.changed.set_from(alloc, &self.here)?;
        if let Some((value, taken)) = decided {
            let test = self.changed.test(value);
            self.changed.learn(test, taken)?;
        }
        self.record_entries(rule_context, summary, edge)?;
        self.changed
            .after_phis(alloc, &mut self.spare, self.entries.as_slice())
    }

    /// What is known on the edge that was entered.
    pub fn edge(&self) -> &Facts {
        match self.edge_facts {
            EdgeFacts::Unchanged => &self.here,
            EdgeFacts::Changed => &self.changed,
        }
    }

    fn record_entries(
        &mut self,
        rule_context: &RuleContext,
        summary: &FunctionSummary,
        edge: Edge,
    ) -> Result<(), AllocError> {
        self.entries.clear();
        let Edge { from, to } = edge;
        let Some(block) = rule_context.function.blocks.get(to.number() as usize) else {
            return Ok(());
        };
        let mut place = 0usize;
        for phi in block.phis.as_slice() {
            let kind = TypeKind::of(rule_context.module(), phi.written);
            let operand = summary.reading.incoming.operand(to, place, from);
            let known = comes_in(rule_context.module(), &self.changed, kind, &operand);
            self.entries.push(Entry {
                phi: phi.value,
                known,
            })?;
            place = place.saturating_add(1);
        }
        Ok(())
    }
}

/// Whether a call asks for a cell by a number that means no layout. The check refuses it, and no certificate names the layout.
fn is_of_no_layout(module: &Module, call: &Call) -> bool {
    let runtime = runtime_called(module, call.callee);
    match (&runtime, call.arguments.as_slice()) {
        (Some(Runtime::Alloc), [layout, ..]) => numbers_no_layout(module, &layout.operand),
        _ => false,
    }
}

/// Whether an operand is a number that means no layout of the module.
fn numbers_no_layout(module: &Module, operand: &Operand) -> bool {
    match operand {
        Operand::Constant(Constant::Number(_)) => layout_meant(module, operand).is_none(),
        _ => false,
    }
}

/// Whether a block begins with phis.
fn has_phis(rule_context: &RuleContext, block: BlockId) -> bool {
    match rule_context.function.blocks.get(block.number() as usize) {
        Some(block) => !block.phis.is_empty(),
        None => false,
    }
}

/// What is known of what comes in to a phi.
fn comes_in(module: &Module, facts: &Facts, kind: TypeKind, operand: &Option<Operand>) -> Known {
    match operand {
        Some(Operand::Constant(constant)) => constant_comes_in(*constant, kind),
        Some(operand) => known_in(module, facts, operand),
        None => Known::Nothing,
    }
}

fn constant_comes_in(constant: Constant, kind: TypeKind) -> Known {
    match constant {
        Constant::Number(number) => number_comes_in(number, kind),
        Constant::Null => Known::Null,
        Constant::Float(_) => float_comes_in(kind),
        Constant::Truth(_) => Known::Nothing,
    }
}

fn float_comes_in(kind: TypeKind) -> Known {
    match kind {
        TypeKind::Bits(bits) => Known::Number { bits, below: None },
        _ => Known::Nothing,
    }
}

fn number_comes_in(number: u64, kind: TypeKind) -> Known {
    match kind {
        TypeKind::Bits(bits) => Known::Number {
            bits,
            below: below_next(number),
        },
        _ => Known::Nothing,
    }
}
