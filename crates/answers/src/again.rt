//! The answers after an edit.
ghost use Rattle.std.specs.Prelude.{◌≡◌, ◌<◌, List, [], length, IfOk, OnOk, OnErr};
ghost use Rattle.certs.specs.declared.section.Section.{Section as ASection};
ghost use Rattle.layout.specs.Layouts.{LaidOut};
ghost use Rattle.answers.specs.Answers.{AreAnswers};
ghost use Rattle.answers.specs.Edited as spec;
ghost use Rattle.answers.specs.Edited.{IsEdited, AreWithin, AreAnswersTo};
ghost use Rattle.answers.specs.KeptRows.{AreKept, AreOthersKept, StayKept};

use crate::answers::answer_to;
use crate::callers::{Callers, touched_by};
use crate::kept_functions::KeptFunctions;
use crate::kept_rows::KeptRows;
use crate::locality::locality_law;
use block_check::rows;
use block_rules::Refusal;
use certs::Certs;
use ir_ast::FuncId;
use items::Items;
use layout::Program;
use std::alloc::{AllocError, Global};

/// Finds what the blocks of a function begin with, and keeps it, if there is memory for it. It is not kept of the function that was
/// replaced, which may be replaced again.
fn find_rows(
    alloc: Global,
    program: &Program,
    certs: &Certs,
    replaced: FuncId,
    func: FuncId,
    kept: &mut KeptRows,
)
    requires within { func < length program.now.of_module.functions }
    requires kept { AreOthersKept program.now certs.now.sections replaced kept.old }
    ensures rows { AreOthersKept program.now certs.now.sections replaced kept.new }
    ensures stay { StayKept replaced kept.old kept.new }
{
    if func == replaced {
        return;
    }
    if kept.get(func).is_some() {
        return;
    }
    match rows(alloc, program, certs, func) {
        Ok(found) => kept.keep(func, found),
        Err(_) => {}
    }
}

/// Finds what the blocks of these functions begin with, as far as there is memory for it.
fn find_all_rows(
    alloc: Global,
    program: &Program,
    certs: &Certs,
    replaced: FuncId,
    funcs: &[FuncId],
    kept: &mut KeptRows,
)
    requires within { AreWithin (length program.now.of_module.functions) funcs.now }
    requires kept { AreOthersKept program.now certs.now.sections replaced kept.old }
    ensures rows { AreOthersKept program.now certs.now.sections replaced kept.new }
    ensures stay { StayKept replaced kept.old kept.new }
{
    for place in 0..funcs.len() {
        find_rows(alloc, program, certs, replaced, funcs[place], kept);
    }
}

/// Puts the answers to these functions, in their order, into an empty list.
#[tactic(auto, using(crate::proofs::Put::answers_to_more))]
fn add_answers(
    alloc: Global,
    program: &Program,
    certs: &Certs,
    kept: &KeptRows,
    funcs: &[FuncId],
    answers: &mut Items<Option<Refusal>>,
) -> Result<(), AllocError>
    requires within { AreWithin (length program.now.of_module.functions) funcs.now }
    requires kept { AreKept program.now certs.now.sections kept.now }
    requires empty { answers.old ≡ [] }
    ensures { OnOk result (AreAnswersTo program.now certs.now.sections funcs.now answers.new) }
{
    for place in 0..funcs.len() {
        let func = funcs[place];
        let answer = [answer_to(alloc, program, certs, kept.get(func), func)?];
        answers.push(answer[0])?;
    }
    Ok(())
}

/// The answers to these functions, in their order.
fn answers_of(
    alloc: Global,
    program: &Program,
    certs: &Certs,
    kept: &KeptRows,
    funcs: &[FuncId],
) -> Result<Items<Option<Refusal>>, AllocError>
    requires within { AreWithin (length program.now.of_module.functions) funcs.now }
    requires kept { AreKept program.now certs.now.sections kept.now }
    ensures { IfOk result (AreAnswersTo program.now certs.now.sections funcs.now) }
{
    let mut answers = Items::new(alloc);
    add_answers(alloc, program, certs, kept, funcs, &mut answers)?;
    Ok(answers)
}

/// Puts the answers to these functions in their places.
fn put_answers(funcs: &[FuncId], anew: &[Option<Refusal>], answers: &mut Items<Option<Refusal>>)
    requires one_each { length anew.now ≡ length funcs.now }
    requires within { AreWithin (length answers.old) funcs.now }
    ensures { answers.new ≡ spec.put_first funcs.now anew.now answers.old (length funcs.now) }
{
    for place in 0..funcs.len() {
        answers.set(funcs[place].number() as usize, anew[place]);
    }
}

/// Makes the answers those after one function or its certificate was replaced: the function is checked again, and so are its
/// callers where they see a change. What the blocks of the callers begin with is kept for the next time, and what was kept of the
/// other functions is kept on. Returns how many functions' answers may change: the one, and its callers where they see a change.
/// Where memory is refused, the answers are as before.
pub fn answers_again(
    alloc: Global,
    program: &Program,
    certs: &Certs,
    replaced: FuncId,
    callers: Callers,
    kept: &mut KeptFunctions,
) -> Result<usize, AllocError>
    requires within { replaced < length program.now.of_module.functions }
    requires one_each { length kept.old.answers ≡ length program.now.of_module.functions }
    requires rows { AreOthersKept program.now certs.now.sections replaced kept.old.rows }
    ensures again { (p : LaidOut) (old : List ASection) → AreAnswers p old kept.old.answers → IsEdited p old program.now certs.now.sections replaced callers → OnOk result (AreAnswers program.now certs.now.sections kept.new.answers) }
    ensures checked { IfOk result (λ count. count ≡ length (spec.touched program.now.of_module replaced callers)) }
    ensures kept { OnErr result (kept.new.answers ≡ kept.old.answers) }
    ensures rows { AreOthersKept program.now certs.now.sections replaced kept.new.rows }
    ensures stay { StayKept replaced kept.old.rows kept.new.rows }
{
    locality_law();
    let touched = touched_by(alloc, program.module(), replaced, callers)?;
    let funcs = touched.as_slice();
    find_all_rows(alloc, program, certs, replaced, funcs, &mut kept.rows);
    let anew = answers_of(alloc, program, certs, &kept.rows, funcs)?;
    put_answers(funcs, anew.as_slice(), &mut kept.answers);
    Ok(touched.len())
}
