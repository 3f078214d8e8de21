//! K16: whether the entries of a phi are those of its block's predecessors.
ghost use Rattle.std.specs.Prelude.{◌≡◌, ◌<◌, ◌&&◌, length};
ghost use Rattle.std.specs.List.{list_all};
ghost use Rattle.block_rules.specs.InstrContext.{phis_of};
ghost use Rattle.block_rules.specs.Edges.{is_same_constant, is_same_operand, is_operand, are_entries};
ghost use Rattle.block_check.specs.Entries.{recorded_from, is_entry_recorded, has_each_recorded};
ghost use Rattle.block_check.specs.PhiOperands.{entries_at};
ghost use Rattle.block_check.specs.FunctionUnderCheck.{IsReady};

use crate::under_check::FunctionUnderCheck;
use ir_ast::{BlockId, Constant, Incoming, Operand};
use types::target_of;

/// Whether the entries of the phi at a place of a block are those of the predecessors of the block.
pub fn are_entries(
    under_check: &FunctionUnderCheck,
    to: BlockId,
    place: usize,
    incoming: &[Incoming],
) -> bool
    requires ready { IsReady under_check.now }
    requires within { to < length under_check.now.context.function.now.blocks }
    requires at { entries_at (phis_of under_check.now.context.function.now to) place ≡ incoming.now }
    ensures { result ≡ are_entries under_check.now.context.function.now to incoming.now }
{
    are_recorded(under_check, to, place, incoming)
}

fn are_recorded(
    under_check: &FunctionUnderCheck,
    to: BlockId,
    place: usize,
    incoming: &[Incoming],
) -> bool
    ensures { result ≡ (list_all (is_entry_recorded under_check.now to place) incoming.now && has_each_recorded under_check.now to place) }
{
    all_recorded(under_check, to, place, incoming) && has_each(under_check, to, place)
}

fn all_recorded(
    under_check: &FunctionUnderCheck,
    to: BlockId,
    place: usize,
    incoming: &[Incoming],
) -> bool
    ensures { result ≡ list_all (is_entry_recorded under_check.now to place) incoming.now }
{
    incoming
        .iter()
        .all(|entry| is_entry_recorded(under_check, to, place, *entry))
}

fn is_entry_recorded(
    under_check: &FunctionUnderCheck,
    to: BlockId,
    place: usize,
    entry: Incoming,
) -> bool
    ensures { result ≡ is_entry_recorded under_check.now to place entry }
{
    match target_of(under_check.context.function, entry.from) {
        Some(from) => {
            under_check.predecessors.has(to, from)
                && is_recorded(under_check, to, place, &entry.operand, from)
        }
        None => false,
    }
}

fn is_recorded(
    under_check: &FunctionUnderCheck,
    to: BlockId,
    place: usize,
    operand: &Operand,
    from: BlockId,
) -> bool
    ensures { result ≡ is_operand operand.now (recorded_from under_check.now to place from) }
{
    match under_check.recorded_from(to, place, from) {
        Some(other) => is_same_operand(&other, operand),
        None => true,
    }
}

fn has_each(under_check: &FunctionUnderCheck, to: BlockId, place: usize) -> bool
    ensures { result ≡ has_each_recorded under_check.now to place }
{
    under_check.predecessors.list(to).iter().all(|from| {
        under_check
            .recorded_from(to, place, BlockId::new(*from))
            .is_some()
    })
}

fn is_same_constant(one: Constant, other: Constant) -> bool
    ensures { result ≡ is_same_constant one other }
{
    match (one, other) {
        (Constant::Number(n), Constant::Number(m)) => n == m,
        (Constant::Float(n), Constant::Float(m)) => n == m,
        (Constant::Null, Constant::Null) => true,
        (Constant::Truth(b), Constant::Truth(c)) => b == c,
        _ => false,
    }
}

fn is_same_operand(one: &Operand, other: &Operand) -> bool
    ensures { result ≡ is_same_operand one.now other.now }
{
    match (one, other) {
        (Operand::Constant(c), Operand::Constant(d)) => is_same_constant(*c, *d),
        (Operand::Local(v), Operand::Local(w)) => *v == *w,
        (Operand::Global(g), Operand::Global(h)) => *g == *h,
        (
            Operand::CastGlobal { from, global, to },
            Operand::CastGlobal {
                from: other_from,
                global: other_global,
                to: other_to,
            },
        ) => *from == *other_from && *global == *other_global && *to == *other_to,
        _ => false,
    }
}
