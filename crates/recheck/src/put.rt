//! One function with its section, put in the place of another.
ghost use Rattle.std.specs.Prelude.{◌≡◌, ◌≢◌, ◌<◌, List, Some, length, slice_get, slice_set, IfOk, IfErr, OnOk, OnErr};
ghost use Rattle.answers.specs.Answers.{AreAnswers};
ghost use Rattle.answers.specs.KeptRows.{AreKept, AreOthersKept, StayKept};
ghost use Rattle.certs.specs.declared.section.Section.{Section as ASection};
ghost use Rattle.layout.specs.Functions.{laid_with};
ghost use Rattle.layout.specs.Layouts.{LaidOut};
ghost use Rattle.recheck.specs.Edits as spec;
ghost use Rattle.recheck.specs.Edits.{HasSectionFault, IsEditAccepted, IsRefusedBy, IsShapedSection};
ghost use Rattle.recheck.specs.Put.{IsWithCode, IsWithSection, IsTextPut, with_function};
ghost use Rattle.recheck.specs.Interface.{rechecked_by};
ghost use Rattle.recheck.specs.declared.edit_fault.EditFault.{EditFault as AFault};
ghost use Rattle.recheck.specs.declared.edit_fault.EditFault.TheVariants.{Memory};

use crate::edit_fault::EditFault;
use crate::interface::{count_checked, seen};
use crate::roots::missing_root;
use crate::texts::{OldFunction, SectionText};
use answers::{KeptFunctions, answers_again, answers_to, rows_law, touched_by};
use certificate::{CertFault, read_section};
use certs::{Certs, Section};
use ir_ast::{FuncId, Function, Module};
use layout::Program;
use std::alloc::{AllocError, Global};

/// The function with this number.
pub fn function_at(module: &Module, func: FuncId) -> &Function
    requires { func < length «module».now.functions }
    ensures { slice_get «module».now.functions func ≡ Some result.now }
{
    &module.functions.as_slice()[func.number() as usize]
}

/// Makes the answers those of a program in which the tables and all other functions and sections are the same: only this function
/// is checked, and its callers where they see a change. Returns how many the edit makes be checked.
fn answer_anew(
    alloc: Global,
    program: &Program,
    certs: &Certs,
    old: &OldFunction<'_>,
    kept: &mut KeptFunctions,
) -> Result<u64, AllocError>
    requires within { old.now.func < length program.now.of_module.functions }
    requires one_each { length kept.old.answers ≡ length program.now.of_module.functions }
    requires rows { AreOthersKept program.now certs.now.sections old.now.func kept.old.rows }
    ensures answers { (p : LaidOut) (past_certs : List ASection) → AreAnswers p past_certs kept.old.answers → IsWithCode p program.now old.now.func old.now.code.now → IsWithSection past_certs certs.now.sections old.now.func old.now.section.now → OnOk result (AreAnswers program.now certs.now.sections kept.new.answers) }
    ensures count { IfOk result (λ count. count ≡ rechecked_by program.now.of_module certs.now.sections old.now.func (Some old.now.code.now) (Some old.now.section.now)) }
    ensures kept { OnErr result (kept.new.answers ≡ kept.old.answers) }
    ensures rows { AreOthersKept program.now certs.now.sections old.now.func kept.new.rows }
    ensures stay { StayKept old.now.func kept.old.rows kept.new.rows }
{
    let callers = seen(program.module(), certs, old.func, old.code, old.section);
    let checked = answers_again(alloc, program, certs, old.func, callers, kept)?;
    Ok(count_checked(
        program.module(),
        certs,
        old.func,
        old.code,
        old.section,
        checked,
    ))
}

/// Makes the answers those of a program in which more may be other: each function is checked, and what their blocks begin with is
/// kept no longer. Returns how many the edit makes be checked.
pub fn answer_all(
    alloc: Global,
    program: &Program,
    certs: &Certs,
    old: &OldFunction<'_>,
    kept: &mut KeptFunctions,
) -> Result<u64, AllocError>
    ensures answers { OnOk result (AreAnswers program.now certs.now.sections kept.new.answers) }
    ensures rows { OnOk result (AreKept program.now certs.now.sections kept.new.rows) }
    ensures count { IfOk result (λ count. count ≡ rechecked_by program.now.of_module certs.now.sections old.now.func (Some old.now.code.now) (Some old.now.section.now)) }
    ensures kept { OnErr result (kept.new ≡ kept.old) }
{
    let callers = seen(program.module(), certs, old.func, old.code, old.section);
    let touched = touched_by(alloc, program.module(), old.func, callers)?;
    kept.answers = answers_to(alloc, program, certs)?;
    kept.rows.forget_all();
    Ok(count_checked(
        program.module(),
        certs,
        old.func,
        old.code,
        old.section,
        touched.len(),
    ))
}

/// Whether a fault is looked for last: something is missing of what is read.
fn is_gap(fault: CertFault) -> bool
    ensures { result ≡ spec.is_gap fault }
{
    match fault {
        CertFault::Missing(_) | CertFault::MissingBlock(_, _) => true,
        _ => false,
    }
}

/// The fault of an edit of a function in which this root slot has no shape.
fn no_shape(func: FuncId, slot: usize) -> EditFault
    ensures { result ≡ spec.no_shape func slot }
{
    EditFault::Cert(CertFault::MissingRoot(func.number() as usize, slot))
}

/// The first fault of an edit whose section has this fault, where this root slot has no shape, if one has none.
fn first_fault(fault: CertFault, func: FuncId, missing: Option<usize>) -> EditFault
    ensures { result ≡ spec.first_fault fault func missing }
{
    match missing {
        None => EditFault::from(fault),
        Some(slot) => {
            if is_gap(fault) {
                no_shape(func, slot)
            } else {
                EditFault::from(fault)
            }
        }
    }
}

/// The section of a text, of a function in which no root slot lacks a shape.
pub fn read_text(
    alloc: Global,
    module: &Module,
    func: FuncId,
    text: &[u8],
) -> Result<Section, EditFault>
    ensures found { IfOk result (λ section. IsShapedSection text.now «module».now func section) }
    ensures only { (section : ASection) → IsShapedSection text.now «module».now func section → IsEditAccepted result }
    ensures fault { IfErr result (λ e. e ≢ Memory → HasSectionFault «module».now func text.now e) }
    ensures only_fault { (e : AFault) → HasSectionFault «module».now func text.now e → IsRefusedBy result e }
{
    let missing = match missing_root(alloc, module, func) {
        Ok(missing) => missing,
        Err(_) => return Err(EditFault::Memory),
    };
    match read_section(alloc, text, module, func) {
        Ok(section) => match missing {
            None => Ok(section),
            Some(slot) => Err(no_shape(func, slot)),
        },
        Err(fault) => Err(first_fault(fault, func, missing)),
    }
}

/// Puts the section of a text in the place of a function's, in a program in which the function had the old code before. Where
/// that is refused, the certificates are as before.
pub fn put_section(
    alloc: Global,
    program: &Program,
    certs: &mut Certs,
    text: &SectionText<'_>,
    old: &Function,
    kept: &mut KeptFunctions,
) -> Result<u64, EditFault>
    requires function { text.now.func < length program.now.of_module.functions }
    requires section { text.now.func < length certs.old.sections }
    requires answers { length kept.old.answers ≡ length program.now.of_module.functions }
    requires rows { AreOthersKept program.now certs.old.sections text.now.func kept.old.rows }
    ensures shapes { certs.new.shapes ≡ certs.old.shapes }
    ensures foreign { certs.new.foreign ≡ certs.old.foreign }
    ensures put { (p : LaidOut) → IsWithCode p program.now text.now.func old.now → IfOk result (λ count. IsTextPut p certs.old.sections text.now.func text.now.bytes.now program.now certs.new.sections count) }
    ensures answers { (p : LaidOut) → AreAnswers p certs.old.sections kept.old.answers → IsWithCode p program.now text.now.func old.now → OnOk result (AreAnswers program.now certs.new.sections kept.new.answers) }
    ensures kept { OnErr result ((certs.new ≡ certs.old) × (kept.new.answers ≡ kept.old.answers)) }
    ensures rows { AreOthersKept program.now certs.new.sections text.now.func kept.new.rows }
    ensures stay { StayKept text.now.func kept.old.rows kept.new.rows }
    ensures fault { IfErr result (λ e. e ≢ Memory → HasSectionFault program.now.of_module text.now.func text.now.bytes.now e) }
    ensures only { (section : ASection) → IsShapedSection text.now.bytes.now program.now.of_module text.now.func section → IsEditAccepted result }
    ensures only_fault { (e : AFault) → HasSectionFault program.now.of_module text.now.func text.now.bytes.now e → IsRefusedBy result e }
{
    rows_law();
    let section = match read_text(alloc, program.module(), text.func, text.bytes) {
        Ok(section) => section,
        Err(fault) => return Err(fault),
    };
    let past = certs.replace(text.func, section);
    let before = OldFunction {
        func: text.func,
        code: old,
        section: &past,
    };
    match answer_anew(alloc, program, certs, &before, kept) {
        Ok(count) => Ok(count),
        Err(_) => {
            certs.replace(text.func, past);
            Err(EditFault::Memory)
        }
    }
}

/// Puts a function with the section of a text in the place of those that are there. Where that is refused, all is as before.
pub fn put_in_place(
    alloc: Global,
    program: &mut Program,
    certs: &mut Certs,
    text: &SectionText<'_>,
    function: Function,
    kept: &mut KeptFunctions,
) -> Result<u64, EditFault>
    requires function { text.now.func < length program.old.of_module.functions }
    requires section { text.now.func < length certs.old.sections }
    requires answers { AreAnswers program.old certs.old.sections kept.old.answers }
    requires rows { AreKept program.old certs.old.sections kept.old.rows }
    ensures program { OnOk result (program.new ≡ laid_with program.old (slice_set program.old.of_module.functions text.now.func function)) }
    ensures shapes { certs.new.shapes ≡ certs.old.shapes }
    ensures foreign { certs.new.foreign ≡ certs.old.foreign }
    ensures put { IfOk result (λ count. IsTextPut program.old certs.old.sections text.now.func text.now.bytes.now program.new certs.new.sections count) }
    ensures answers { OnOk result (AreAnswers program.new certs.new.sections kept.new.answers) }
    ensures kept { OnErr result ((program.new ≡ program.old) × (certs.new ≡ certs.old) × (kept.new.answers ≡ kept.old.answers)) }
    ensures rows { AreKept program.new certs.new.sections kept.new.rows }
    ensures stay { StayKept text.now.func kept.old.rows kept.new.rows }
    ensures fault { IfErr result (λ e. e ≢ Memory → HasSectionFault (with_function program.old.of_module text.now.func function) text.now.func text.now.bytes.now e) }
    ensures only { (section : ASection) → IsShapedSection text.now.bytes.now (with_function program.old.of_module text.now.func function) text.now.func section → IsEditAccepted result }
    ensures only_fault { (e : AFault) → HasSectionFault (with_function program.old.of_module text.now.func function) text.now.func text.now.bytes.now e → IsRefusedBy result e }
{
    rows_law();
    kept.rows.forget(text.func);
    let old = program.replace_function(text.func, function);
    match put_section(alloc, program, certs, text, &old, kept) {
        Ok(count) => Ok(count),
        Err(fault) => {
            program.replace_function(text.func, old);
            Err(fault)
        }
    }
}

/// Puts the section of a text in the place of a function's. Where that is refused, the certificates are as before.
pub fn put_section_of(
    alloc: Global,
    program: &Program,
    certs: &mut Certs,
    text: &SectionText<'_>,
    kept: &mut KeptFunctions,
) -> Result<u64, EditFault>
    requires function { text.now.func < length program.now.of_module.functions }
    requires section { text.now.func < length certs.old.sections }
    requires answers { AreAnswers program.now certs.old.sections kept.old.answers }
    requires rows { AreKept program.now certs.old.sections kept.old.rows }
    ensures shapes { certs.new.shapes ≡ certs.old.shapes }
    ensures foreign { certs.new.foreign ≡ certs.old.foreign }
    ensures put { IfOk result (λ count. IsTextPut program.now certs.old.sections text.now.func text.now.bytes.now program.now certs.new.sections count) }
    ensures answers { OnOk result (AreAnswers program.now certs.new.sections kept.new.answers) }
    ensures kept { OnErr result ((certs.new ≡ certs.old) × (kept.new.answers ≡ kept.old.answers)) }
    ensures rows { AreKept program.now certs.new.sections kept.new.rows }
    ensures stay { StayKept text.now.func kept.old.rows kept.new.rows }
    ensures fault { IfErr result (λ e. e ≢ Memory → HasSectionFault program.now.of_module text.now.func text.now.bytes.now e) }
    ensures only { (section : ASection) → IsShapedSection text.now.bytes.now program.now.of_module text.now.func section → IsEditAccepted result }
    ensures only_fault { (e : AFault) → HasSectionFault program.now.of_module text.now.func text.now.bytes.now e → IsRefusedBy result e }
{
    kept.rows.forget(text.func);
    let old = function_at(program.module(), text.func);
    put_section(alloc, program, certs, text, old, kept)
}
