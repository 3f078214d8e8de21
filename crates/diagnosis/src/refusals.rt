//! What is wrong with a refused instruction, by its rule.
use crate::cases::{Case, Mending, Seen};
use crate::cells::{element_base, find_mistyped, find_outside, runtime_named};
use crate::diagnosis::{Draft, Sought};
use crate::edges::find_edge;
use crate::mismatches::find_mismatch;
use crate::nulls::{find_place, mend_nullable, note_base};
use crate::operands::operands_of;
use crate::outside::outside_of;
use crate::phis::{block_of, entries_of};
use crate::promised::{find_argument, find_result, returned};
use crate::scene::Scene;
use crate::stale::find_lost;
use crate::subjects::{arguments_of, is_runtime_call, place_of, subject_of};
use crate::told::{Holes, Told, op_of, value_in};
use crate::unfresh::note_unfresh;
use crate::unknown::{find_unavailable, note_definition};
use crate::unrooted::find_unrooted;
use crate::write_barrier::{base_of, mend_object, target_of_store};
use block_rules::Rule;
use ir_ast::{MemoryOp, Op, Operand};

/// The place of the refused instruction: of a load or a store, or the last argument of a barrier.
fn place_in(scene: &Scene) -> Option<Operand> {
    match arguments_of(scene) {
        [_, .., place] if may_be_barrier(scene) => Some(place.operand),
        _ => place_of(scene),
    }
}

/// Whether the refused instruction may be a barrier whose place the diagnosis speaks of.
fn may_be_barrier(scene: &Scene) -> bool {
    matches!(scene.refusal.rule, Rule::K2 | Rule::K4 | Rule::K7) && is_runtime_call(scene)
}

/// What a diagnosis of the refused instruction speaks of.
fn told_of<'a>(scene: &'a Scene<'a>, operands: &[Operand]) -> Told<'a> {
    let place = place_in(scene);
    let told = Told::of(scene, subject_of(scene, operands));
    told.with(Holes {
        place,
        base: base_of(scene, &place),
        ..told.holes
    })
}

/// What a rule says of an instruction where nothing more depends on that.
fn find_by_rule(found: &mut Draft, told: &Told, rule: Rule) {
    found.case(told, Case::Rule(rule));
    found.mend(told, Mending::OfCase)
}

/// K1.
fn find_unknown(found: &mut Draft, told: &Told) {
    match value_in(told.holes.it) {
        Some(value) => find_unavailable(found, told, value),
        None => find_by_rule(found, told, Rule::K18),
    }
}

/// K3.
fn find_stale(found: &mut Draft, told: &Told, operands: &[Operand]) {
    found.case(told, Case::Stale);
    find_lost(found, told, operands)
}

/// K4.
fn find_nullable(found: &mut Draft, told: &Told, operands: &[Operand]) {
    find_place(found, told);
    note_base(found, told);
    note_definition(found, told, Seen::Uncompared);
    found.know(told.scene, operands);
    mend_nullable(found, told)
}

/// K5.
fn find_out_of_cell(found: &mut Draft, told: &Told, operands: &[Operand]) {
    let of_base = Told::of(told.scene, element_base(told.scene));
    if !find_mismatch(found, &of_base, operands) {
        find_outside(found, &of_base, operands)
    }
}

/// K6.
fn find_unbarred(found: &mut Draft, told: &Told, operands: &[Operand]) {
    found.case_under(
        told,
        Case::Unbarred(target_of_store(told)),
        told.holes.place,
    );
    note_unfresh(found, told);
    found.know(told.scene, operands);
    if let Some(
        Op::Memory(
            MemoryOp::Store {
                stored,
                place_type,
                ..
            },
        ),
    ) = op_of(told.scene)
    {
        let mending = Mending::Barrier {
            stored: *stored,
            place_type: *place_type,
        };
        found.mend(told, mending)
    }
}

/// K7.
fn find_other_object(found: &mut Draft, told: &Told, operands: &[Operand]) {
    let case = match told.holes.base {
        Some(_) => Case::OtherObject,
        None => Case::NoObject,
    };
    found.case(told, case);
    found.know(told.scene, operands);
    mend_object(found, told)
}

/// K13.
fn find_broken(found: &mut Draft, told: &Told) {
    if !find_argument(found, told.scene) {
        find_by_rule(found, told, Rule::K18)
    }
}

/// K16. The other block is that of the entry.
fn find_entries(found: &mut Draft, told: &Told) {
    match entries_of(told.scene) {
        Ok(entries) => {
            let told = told.with_block(block_of(&entries));
            found.case_under(&told, Case::Entries(entries), None);
            found.mend(&told, Mending::OfCase)
        }
        Err(_) => found.refuse(),
    }
}

/// K17.
fn find_marked(found: &mut Draft, told: &Told) {
    found.case_under(told, Case::Rule(Rule::K17), None);
    found.cert_note(told, Sought::Function, Seen::Mark);
    found.mend(told, Mending::OfCase)
}

/// K18.
fn find_callee(found: &mut Draft, told: &Told) {
    found.case(told, Case::Rule(Rule::K18));
    match (runtime_named(told.scene), outside_of(told.scene)) {
        (Some(runtime), _) => found.mend(told, Mending::Declare(runtime)),
        (None, Some(outside)) => {
            found.case(told, Case::Outside(outside));
            found.mend(told, Mending::OfCase)
        }
        (None, None) => found.mend(told, Mending::OfCase),
    }
}

/// K19.
fn find_led(found: &mut Draft, told: &Told, operands: &[Operand]) {
    if !find_mismatch(found, told, operands) {
        find_by_rule(found, told, Rule::K19)
    }
}

/// What is wrong with an instruction, by its rule.
fn find_in(found: &mut Draft, told: &Told, operands: &[Operand]) {
    match told.scene.refusal.rule {
        Rule::K1 => find_unknown(found, told),
        Rule::K2 => find_mistyped(found, told, operands),
        Rule::K3 => find_stale(found, told, operands),
        Rule::K4 => find_nullable(found, told, operands),
        Rule::K5 => find_out_of_cell(found, told, operands),
        Rule::K6 => find_unbarred(found, told, operands),
        Rule::K7 => find_other_object(found, told, operands),
        Rule::K8 => find_unrooted(found, told),
        Rule::K12 => find_by_rule(found, &told.with_it(returned(told.scene)), Rule::K12),
        Rule::K13 => find_broken(found, told),
        Rule::K14 => find_result(found, told.scene, operands),
        Rule::K16 => find_entries(found, told),
        Rule::K17 => find_marked(found, told),
        Rule::K18 => find_callee(found, told),
        Rule::K19 => find_led(found, told, operands),
        rule => find_by_rule(found, told, rule),
    }
}

/// What is wrong with the refused instruction of a scene.
pub(crate) fn find(found: &mut Draft, scene: &Scene) {
    if let Some(detail) = &scene.refusal.detail {
        return find_edge(found, scene, detail);
    }
    match operands_of(scene.alloc, scene.there()) {
        Ok(operands) => {
            let told = told_of(scene, operands.as_slice());
            find_in(found, &told, operands.as_slice());
            drop(operands)
        }
        Err(_) => found.refuse(),
    }
}
