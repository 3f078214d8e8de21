//! The code of one function, read anew and put in the place of another with its section.
ghost use Rattle.std.specs.Prelude.{◌≡◌, ◌≢◌, ◌<◌, None, Some, length, IfOk, IfErr, IfSome, OnOk, OnErr};
ghost use Rattle.answers.specs.Answers.{AreAnswers};
ghost use Rattle.answers.specs.KeptRows.{AreKept};
ghost use Rattle.certs.specs.declared.section.Section.{Section as ASection};
ghost use Rattle.ir_ast.specs.declared.module.Module.{Module as AModule};
ghost use Rattle.copies.specs.Tables.{tables_of};
ghost use Rattle.ir_text.specs.Replaced.{IsReplaced, IsReplaceFault};
ghost use Rattle.ir_text.specs.declared.read_fault.ReadFault.{ReadFault as AReadFault};
ghost use Rattle.layout.specs.declared.fault.LayoutFault.TheVariants as layout_fault;
ghost use Rattle.recheck.specs.Edits.{AreRead, HasCodeFault, HasTextFault, IsCode, IsEditAccepted, IsRefusedBy, code_fault};
ghost use Rattle.recheck.specs.Put.{AreReady, IsBothPut, IsKept, IsReadAnew, with_function};
ghost use Rattle.recheck.specs.declared.edit_fault.EditFault.{EditFault as AFault};
ghost use Rattle.recheck.specs.declared.edit_fault.EditFault.TheVariants.{Memory};

use crate::edit_fault::EditFault;
use crate::kept::KeptWork;
use crate::put::{answer_all, function_at, put_in_place, read_text};
use crate::tables::same_tables;
use crate::texts::{OldFunction, SectionText};
use certs::{Certs, Section};
use copies::{Tables, copy_tables};
use ir_ast::{FuncId, Function, Module};
use ir_print_law::grown_law;
use ir_text::{Replacement, copy_first, name_of, read_function, replace};
use layout::{LayoutFault, Program, layouts_stay_law, wants_shapes};
use std::alloc::{AllocError, Global};
use std::mem;

/// Tables of a module for the reader of code: those that are ready, or else copies.
fn take_tables(
    alloc: Global,
    of_module: &Module,
    ready: &mut Option<Tables>,
) -> Result<Tables, AllocError>
    requires { AreReady of_module.now ready.old }
    ensures tables { IfOk result (λ tables. tables ≡ tables_of of_module.now) }
    ensures none { ready.new ≡ None }
{
    match ready.take() {
        Some(tables) => Ok(tables),
        None => copy_tables(alloc, of_module),
    }
}

/// The tables with which a function was read are ready.
fn keep_tables(ready: &mut Option<Tables>, read: Replacement)
    ensures { ready.new ≡ Some read.tables }
{
    *ready = Some(read.tables);
}

/// The function of a text, where the text adds nothing to the tables of the module. Then these are ready once more.
fn read_within(
    alloc: Global,
    of_module: &Module,
    ready: &mut Option<Tables>,
    func: FuncId,
    code: &[u8],
) -> Result<Option<Function>, EditFault>
    requires { AreReady of_module.now ready.old }
    ensures found { IfOk result (λ read. IfSome read (λ f. IsReplaced of_module.now func code.now (with_function of_module.now func f))) }
    ensures one { (n : AModule) → IsReplaced of_module.now func code.now n → IfOk result (λ read. IfSome read (λ f. n ≡ with_function of_module.now func f)) }
    ensures only { (n : AModule) → IsReplaced of_module.now func code.now n → IsEditAccepted result }
    ensures fault { IfErr result (λ e. e ≢ Memory → (f : AReadFault) × IsReplaceFault of_module.now func code.now f × (code_fault f ≡ e)) }
    ensures only_fault { (f : AReadFault) → IsReplaceFault of_module.now func code.now f → IsRefusedBy result (code_fault f) }
    ensures ready { AreReady of_module.now ready.new }
{
    let tables = take_tables(alloc, of_module, ready)?;
    let read = match read_function(alloc, tables, func, name_of(of_module, func), code) {
        Ok(read) => read,
        Err(fault) => return Err(EditFault::from(fault)),
    };
    if !same_tables(of_module, &read.tables) {
        drop(read);
        return Ok(None);
    }
    match copy_first(alloc, read.functions.as_slice()) {
        Ok(function) => {
            keep_tables(ready, read);
            Ok(function)
        }
        Err(_) => {
            drop(read);
            Err(EditFault::Memory)
        }
    }
}

/// The module with the function of a text in the place of one of its own.
fn read_code(
    alloc: Global,
    of_module: &Module,
    func: FuncId,
    code: &[u8],
) -> Result<Module, EditFault>
    requires { func < length of_module.now.functions }
    ensures found { IfOk result (IsCode of_module.now func code.now) }
    ensures one { (n : AModule) → IsCode of_module.now func code.now n → IfOk result (λ o. n ≡ o) }
    ensures only { (n : AModule) → IsCode of_module.now func code.now n → IsEditAccepted result }
    ensures fault { IfErr result (λ e. e ≢ Memory → HasTextFault of_module.now func code.now e) }
    ensures only_fault { (e : AFault) → HasTextFault of_module.now func code.now e → IsRefusedBy result e }
{
    let replaced = match replace(alloc, of_module, func, code) {
        Ok(replaced) => replaced,
        Err(fault) => return Err(EditFault::from(fault)),
    };
    if wants_shapes(&replaced) {
        drop(replaced);
        return Err(EditFault::ShapesWanted);
    }
    Ok(replaced)
}

/// The fault of an edit after which no layouts were made: only memory was refused.
fn without_layouts(fault: LayoutFault) -> EditFault
    requires { fault ≡ layout_fault.Memory }
    ensures { result ≡ Memory }
{
    match fault {
        LayoutFault::Memory => EditFault::Memory,
        _ => unreachable!(),
    }
}

/// The program is this one from now on.
fn put_program(program: &mut Program, anew: Program)
    ensures { program.new ≡ anew }
{
    drop(mem::replace(program, anew));
}

/// The program and the section of two texts, where the code may add to the tables.
fn read_anew(
    alloc: Global,
    program: &Program,
    code: &[u8],
    text: &SectionText<'_>,
) -> Result<(Program, Section), EditFault>
    requires { text.now.func < length program.now.of_module.functions }
    ensures found { IfOk result (λ read. IsReadAnew program.now.of_module text.now.func code.now text.now.bytes.now read.0 read.1) }
    ensures only { (n : AModule) (section : ASection) → AreRead program.now.of_module text.now.func code.now text.now.bytes.now n section → IsEditAccepted result }
    ensures fault { IfErr result (λ e. e ≢ Memory → HasCodeFault program.now.of_module text.now.func code.now text.now.bytes.now e) }
    ensures only_fault { (e : AFault) → HasCodeFault program.now.of_module text.now.func code.now text.now.bytes.now e → IsRefusedBy result e }
{
    grown_law();
    layouts_stay_law();
    let of_module = match read_code(alloc, program.module(), text.func, code) {
        Ok(of_module) => of_module,
        Err(fault) => return Err(fault),
    };
    let section = match read_text(alloc, &of_module, text.func, text.bytes) {
        Ok(section) => section,
        Err(fault) => {
            drop(of_module);
            return Err(fault);
        }
    };
    match Program::new(alloc, of_module) {
        Ok(anew) => Ok((anew, section)),
        Err(refused) => {
            let fault = refused.fault;
            drop(refused);
            drop(section);
            Err(without_layouts(fault))
        }
    }
}

/// Puts the function and the section of two texts in the place of those that are there, where the code may add to the tables.
/// Where that is refused, all is as before.
fn put_anew(
    alloc: Global,
    program: &mut Program,
    certs: &mut Certs,
    code: &[u8],
    text: &SectionText<'_>,
    kept: &mut KeptWork,
) -> Result<u64, EditFault>
    requires function { text.now.func < length program.old.of_module.functions }
    requires section { text.now.func < length certs.old.sections }
    ensures shapes { certs.new.shapes ≡ certs.old.shapes }
    ensures foreign { certs.new.foreign ≡ certs.old.foreign }
    ensures put { IfOk result (λ count. IsBothPut program.old certs.old.sections text.now.func code.now text.now.bytes.now program.new certs.new.sections count) }
    ensures answers { OnOk result (AreAnswers program.new certs.new.sections kept.new.functions.answers) }
    ensures rows { OnOk result (AreKept program.new certs.new.sections kept.new.functions.rows) }
    ensures ready { OnOk result (kept.new.tables ≡ None) }
    ensures kept { OnErr result ((program.new ≡ program.old) × (certs.new ≡ certs.old) × (kept.new ≡ kept.old)) }
    ensures fault { IfErr result (λ e. e ≢ Memory → HasCodeFault program.old.of_module text.now.func code.now text.now.bytes.now e) }
    ensures only { (n : AModule) (section : ASection) → AreRead program.old.of_module text.now.func code.now text.now.bytes.now n section → IsEditAccepted result }
    ensures only_fault { (e : AFault) → HasCodeFault program.old.of_module text.now.func code.now text.now.bytes.now e → IsRefusedBy result e }
{
    let (anew, section) = match read_anew(alloc, program, code, text) {
        Ok(read) => read,
        Err(fault) => return Err(fault),
    };
    let past = certs.replace(text.func, section);
    let old = OldFunction {
        func: text.func,
        code: function_at(program.module(), text.func),
        section: &past,
    };
    match answer_all(alloc, &anew, certs, &old, &mut kept.functions) {
        Ok(count) => {
            drop(past);
            put_program(program, anew);
            drop(kept.tables.take());
            Ok(count)
        }
        Err(_) => {
            drop(anew);
            drop(certs.replace(text.func, past));
            Err(EditFault::Memory)
        }
    }
}

/// Puts the function and the section of two texts in the place of those that are there. Where that is refused, all is as before.
pub fn put_code(
    alloc: Global,
    program: &mut Program,
    certs: &mut Certs,
    code: &[u8],
    text: &SectionText<'_>,
    kept: &mut KeptWork,
) -> Result<u64, EditFault>
    requires function { text.now.func < length program.old.of_module.functions }
    requires section { text.now.func < length certs.old.sections }
    requires kept { IsKept program.old certs.old.sections kept.old }
    ensures shapes { certs.new.shapes ≡ certs.old.shapes }
    ensures foreign { certs.new.foreign ≡ certs.old.foreign }
    ensures put { IfOk result (λ count. IsBothPut program.old certs.old.sections text.now.func code.now text.now.bytes.now program.new certs.new.sections count) }
    ensures answers { OnOk result (AreAnswers program.new certs.new.sections kept.new.functions.answers) }
    ensures rows { AreKept program.new certs.new.sections kept.new.functions.rows }
    ensures ready { AreReady program.new.of_module kept.new.tables }
    ensures kept { OnErr result ((program.new ≡ program.old) × (certs.new ≡ certs.old) × (kept.new.functions.answers ≡ kept.old.functions.answers)) }
    ensures fault { IfErr result (λ e. e ≢ Memory → HasCodeFault program.old.of_module text.now.func code.now text.now.bytes.now e) }
    ensures only { (n : AModule) (section : ASection) → AreRead program.old.of_module text.now.func code.now text.now.bytes.now n section → IsEditAccepted result }
    ensures only_fault { (e : AFault) → HasCodeFault program.old.of_module text.now.func code.now text.now.bytes.now e → IsRefusedBy result e }
{
    layouts_stay_law();
    match read_within(alloc, program.module(), &mut kept.tables, text.func, code) {
        Ok(Some(function)) => put_in_place(
            alloc,
            program,
            certs,
            text,
            function,
            &mut kept.functions,
        ),
        Ok(None) => put_anew(alloc, program, certs, code, text, kept),
        Err(fault) => Err(fault),
    }
}
