//! What an edit makes of a module and its certificates.
ghost use Rattle.std.specs.Prelude.{◌≡◌, ◌≢◌, ◌<◌, ℕ, Some, length, slice_get, IfOk, IfErr, OnErr};
ghost use Rattle.certs.specs.declared.section.Section.{Section as ASection};
ghost use Rattle.ir_ast.specs.declared.module.Module.{Module as AModule};
ghost use Rattle.recheck.specs.Edits as spec;
ghost use Rattle.recheck.specs.Edits.{IsRead, IsEdited, IsEditFault, IsEditAccepted, IsRefusedBy};
ghost use Rattle.recheck.specs.Put.{IsKept, state};
ghost use Rattle.recheck.specs.declared.edit_fault.EditFault.{EditFault as AFault};
ghost use Rattle.recheck.specs.declared.edit_fault.EditFault.TheVariants.{Memory};

use crate::code::put_code;
use crate::edit::Edit;
use crate::edit_fault::EditFault;
use crate::kept::KeptWork;
use crate::named::function_named;
use crate::put::{function_at, put_section_of};
use crate::texts::SectionText;
use certificate::print_section;
use certs::{Certs, Section};
use ir_ast::FuncId;
use layout::Program;
use std::alloc::{AllocError, Global};

/// The name in an edit.
fn name_in(edit: &Edit) -> &[u8]
    ensures { result.now ≡ spec.name_in edit.now }
{
    match edit {
        Edit::Code { name, .. } => name.as_slice(),
        Edit::Cert { name, .. } => name.as_slice(),
        Edit::Both { name, .. } => name.as_slice(),
    }
}

/// The fault of an edit of a function that is not there.
fn no_function(edit: &Edit) -> EditFault
    ensures { result ≡ spec.no_function edit.now }
{
    match edit {
        Edit::Cert { .. } => EditFault::NoSection,
        _ => EditFault::NoFunction,
    }
}

/// The section of the function with this number.
fn section_at(certs: &Certs, func: FuncId) -> &Section
    requires { func < length certs.now.sections }
    ensures { slice_get certs.now.sections func ≡ Some result.now }
{
    &certs.sections.as_slice()[func.number() as usize]
}

/// The text of a function's section, as it is printed with the code that is there.
fn kept_text(
    alloc: Global,
    program: &Program,
    certs: &Certs,
    func: FuncId,
) -> Result<Vec<u8>, AllocError>
    requires function { func < length program.now.of_module.functions }
    requires section { func < length certs.now.sections }
    ensures { IfOk result (λ text. text.items ≡ spec.text_with program.now.of_module (slice_get program.now.of_module.functions func) (slice_get certs.now.sections func)) }
{
    let of_module = program.module();
    let function = function_at(of_module, func);
    let section = section_at(certs, func);
    print_section(alloc, section, of_module, function)
}

/// Puts the texts of an edit of this function in the place of what is there. Where that is refused, all is as before.
fn put_at(
    alloc: Global,
    program: &mut Program,
    certs: &mut Certs,
    kept: &mut KeptWork,
    func: FuncId,
    edit: &Edit,
) -> Result<u64, EditFault>
    requires function { func < length program.old.of_module.functions }
    requires kept { IsKept program.old certs.old.sections kept.old }
    ensures put { (n : ℕ) → IfOk result (λ count. spec.IsEditedAt (state program.old certs.old certs.old.sections n) func edit.now (state program.new certs.old certs.new.sections count)) }
    ensures shapes { certs.new.shapes ≡ certs.old.shapes }
    ensures foreign { certs.new.foreign ≡ certs.old.foreign }
    ensures kept_so { IsKept program.new certs.new.sections kept.new }
    ensures kept { OnErr result ((program.new ≡ program.old) × (certs.new ≡ certs.old)) }
    ensures fault { (n : ℕ) → IfErr result (λ e. e ≢ Memory → spec.IsFaultAt (state program.old certs.old certs.old.sections n) func edit.now e) }
    ensures only { (n : ℕ) (m : AModule) (section : ASection) → spec.IsReadAt (state program.old certs.old certs.old.sections n) func edit.now m section → IsEditAccepted result }
    ensures only_fault { (n : ℕ) (e : AFault) → spec.IsFaultAt (state program.old certs.old certs.old.sections n) func edit.now e → IsRefusedBy result e }
{
    match edit {
        Edit::Cert { section, .. } => put_section_of(
            alloc,
            program,
            certs,
            &SectionText {
                func,
                bytes: section.as_slice(),
            },
            &mut kept.functions,
        ),
        Edit::Code { code, .. } => {
            let text = match kept_text(alloc, program, certs, func) {
                Ok(text) => text,
                Err(_) => return Err(EditFault::Memory),
            };
            put_code(
                alloc,
                program,
                certs,
                code.as_slice(),
                &SectionText {
                    func,
                    bytes: text.as_slice(),
                },
                kept,
            )
        }
        Edit::Both { code, section, .. } => put_code(
            alloc,
            program,
            certs,
            code.as_slice(),
            &SectionText {
                func,
                bytes: section.as_slice(),
            },
            kept,
        ),
    }
}

/// Puts the texts of an edit in the place of what is there. Where that is refused, all is as before.
pub fn put_edit(
    alloc: Global,
    program: &mut Program,
    certs: &mut Certs,
    kept: &mut KeptWork,
    edit: &Edit,
) -> Result<u64, EditFault>
    requires { IsKept program.old certs.old.sections kept.old }
    ensures put { (n : ℕ) → IfOk result (λ count. IsEdited (state program.old certs.old certs.old.sections n) edit.now (state program.new certs.old certs.new.sections count)) }
    ensures shapes { certs.new.shapes ≡ certs.old.shapes }
    ensures foreign { certs.new.foreign ≡ certs.old.foreign }
    ensures kept_so { IsKept program.new certs.new.sections kept.new }
    ensures kept { OnErr result ((program.new ≡ program.old) × (certs.new ≡ certs.old)) }
    ensures fault { (n : ℕ) → IfErr result (λ e. e ≢ Memory → IsEditFault (state program.old certs.old certs.old.sections n) edit.now e) }
    ensures only { (n : ℕ) (m : AModule) (section : ASection) → IsRead (state program.old certs.old certs.old.sections n) edit.now m section → IsEditAccepted result }
    ensures only_fault { (n : ℕ) (e : AFault) → IsEditFault (state program.old certs.old certs.old.sections n) edit.now e → IsRefusedBy result e }
{
    match function_named(program.module(), name_in(edit)) {
        Some(func) => put_at(alloc, program, certs, kept, func, edit),
        None => Err(no_function(edit)),
    }
}
