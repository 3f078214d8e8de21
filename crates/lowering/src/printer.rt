//! The text that LLVM gets of a module.
ghost use Rattle.std.specs.Prelude.{◌≡◌, ◌++◌, [], OnOk, IfOk};
ghost use Rattle.lowering.specs.Lowered as spec;

use crate::items_of_text::{put_declares, put_functions, put_globals, put_structs};
use crate::starts::{count_starts, put_start_count, put_start_table};
use crate::tables::{
    Tables, put_global_count, put_global_table, put_layout_count, put_layout_table, put_name_table,
};
use ir_ast::Module;
use pools::Layouts;
use std::alloc::{AllocError, Global};

/// The functions of the runtime and of LLVM.
#[tactic(auto, unfolding(crate::specs::Lowered::runtime_lines))]
fn runtime_lines() -> &'static [u8]
    ensures { result.now ≡ spec.runtime_lines }
{
    b"declare ptr @dg_alloc(i32) nounwind\ndeclare void @dg_safepoint() nounwind\ndeclare void @dg_write(ptr, ptr) nounwind\ndeclare void @dg_end() noreturn nounwind\ndeclare void @llvm.gcroot(ptr, ptr)\n"
}

/// The functions of the recorder.
#[tactic(auto, unfolding(crate::specs::Lowered::recorder_lines))]
fn recorder_lines() -> &'static [u8]
    ensures { result.now ≡ spec.recorder_lines }
{
    b"declare i64 @dg_read(ptr) nounwind\ndeclare void @dg_store(ptr, i64) nounwind\ndeclare void @dg_local(i32) nounwind\n"
}

/// The functions of the recorder, where there is one.
fn hook_lines(recorded: bool) -> &'static [u8]
    ensures { result.now ≡ spec.hook_lines recorded }
{
    if recorded { recorder_lines() } else { b"" }
}

/// The chain of roots.
#[tactic(auto, unfolding(crate::specs::Lowered::chain_lines))]
fn chain_lines() -> &'static [u8]
    ensures { result.now ≡ spec.chain_lines }
{
    b"@llvm_gc_root_chain = external thread_local global ptr\n@llvm.compiler.used = appending global [1 x ptr] [ptr @llvm_gc_root_chain], section \"llvm.metadata\"\n"
}

/// The items of the module.
#[tactic(auto, unfolding(crate::specs::Lowered::items_text))]
fn put_items(
    alloc: Global,
    out: &mut Vec<u8>,
    of_module: &Module,
    recorded: bool,
) -> Result<(), AllocError>
    ensures { OnOk result (out.new.items ≡ out.old.items ++ spec.items_text recorded of_module.now) }
{
    put_structs(alloc, out, of_module, of_module.structs.as_slice())?;
    put_globals(alloc, out, of_module, of_module.globals.as_slice())?;
    put_declares(alloc, out, of_module, of_module.declares.as_slice())?;
    put_functions(
        alloc,
        out,
        of_module,
        of_module.functions.as_slice(),
        recorded,
    )
}

/// The tables of the module, whose structs have these words.
#[tactic(auto, unfolding(crate::specs::Lowered::tables_text))]
fn put_tables(alloc: Global, out: &mut Vec<u8>, tables: &Tables<'_>) -> Result<(), AllocError>
    ensures { OnOk result (out.new.items ≡ out.old.items ++ spec.tables_text tables.now.layouts.now tables.now.of_module.now) }
{
    let structs = tables.of_module.structs.as_slice();
    let globals = tables.of_module.globals.as_slice();
    put_layout_count(alloc, out, structs.len())?;
    put_layout_table(alloc, out, tables, structs)?;
    put_global_count(alloc, out, globals.len())?;
    put_global_table(alloc, out, tables.of_module, globals)?;
    put_name_table(alloc, out, tables.of_module, structs)?;
    put_start_count(
        alloc,
        out,
        count_starts(tables.of_module, tables.of_module.functions.as_slice()),
    )?;
    put_start_table(alloc, out, tables.of_module)
}

fn put_module(
    alloc: Global,
    out: &mut Vec<u8>,
    recorded: bool,
    tables: &Tables<'_>,
) -> Result<(), AllocError>
    ensures { OnOk result (out.new.items ≡ out.old.items ++ spec.lowered_text recorded tables.now.layouts.now tables.now.of_module.now) }
{
    put_items(alloc, out, tables.of_module, recorded)?;
    put_tables(alloc, out, tables)?;
    out.extend_from_slice(runtime_lines())?;
    out.extend_from_slice(hook_lines(recorded))?;
    out.extend_from_slice(chain_lines())
}

/// The text that LLVM gets of a module with `ptr` for its pointers, whose structs have these words; with a recorder each step on a word
/// is a call of it.
pub fn lower(
    alloc: Global,
    recorded: bool,
    layouts: &Layouts,
    of_module: &Module,
) -> Result<Vec<u8>, AllocError>
    ensures { IfOk result (λ text. text.items ≡ spec.lowered_text recorded layouts.now of_module.now) }
{
    let mut out = Vec::new(alloc);
    let tables = Tables { layouts, of_module };
    put_module(alloc, &mut out, recorded, &tables)?;
    Ok(out)
}
