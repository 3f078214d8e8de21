//! What the runtime has to know of a module.
ghost use Rattle.std.specs.Prelude.{◌≡◌, ◌++◌, ◌∷◌, [], OnOk, ◌≤◌, length, slice_get, take};
ghost use Rattle.lowering.specs.Rows.{numbered};
ghost use Rattle.lowering.specs.Tables as spec;

use crate::rows::before_row;
use crate::strings::put_name_string;
use crate::word_types::is_number;
use ir_ast::{Global as Word, IrType, Module, StructType};
use name_text::{Blank, put_global, put_number};
use pools::{Layouts, WordKind};
use std::alloc::{AllocError, Global};

/// A module, and the words of its structs.
#[derive(Clone, Copy)]
pub(crate) struct Tables<'a> {
    pub layouts: &'a Layouts,
    pub of_module: &'a Module,
}

/// The bit of a word in a mask.
fn bit_of(word: &WordKind) -> u64
    ensures { result ≡ spec.bit_of word.now }
{
    match word {
        WordKind::Integer(_) => 0,
        WordKind::Reference(_) => 1,
    }
}

/// The first 64 words of a layout.
fn first_words(words: &[WordKind]) -> &[WordKind]
    ensures { result.now ≡ take 64 words.now }
{
    if words.len() <= 64 {
        words
    } else {
        &words[..64]
    }
}

/// The mask of these words.
fn mask_of(words: &[WordKind]) -> u64
    requires { length words.now ≤ 64 }
    ensures { result ≡ spec.mask_of words.now }
{
    match words {
        [] => 0,
        [word, rest @ ..] => {
            let mask = mask_of(rest);
            mask.wrapping_add(mask).wrapping_add(bit_of(word))
        }
    }
}

/// The row of a layout.
fn put_layout_row(alloc: Global, out: &mut Vec<u8>, words: &[WordKind]) -> Result<(), AllocError>
    ensures { OnOk result (out.new.items ≡ out.old.items ++ spec.layout_row words.now) }
{
    out.extend_from_slice(b"{ i64, i64 } { i64 ")?;
    put_number(alloc, out, words.len() as u64)?;
    out.extend_from_slice(b", i64 ")?;
    put_number(alloc, out, mask_of(first_words(words)))?;
    out.extend_from_slice(b" }")
}

/// The words of a struct.
fn words_in<'a>(layouts: &'a Layouts, module: &Module, struct_type: &StructType) -> &'a [WordKind]
    ensures { result.now ≡ spec.words_in layouts.now (slice_get «module».now.struct_of struct_type.now.name) }
{
    match module.struct_of.get(struct_type.name.number() as usize) {
        Some(Some(layout)) => layouts.words(*layout),
        _ => &[],
    }
}

/// The row of a struct at this place, after what stands before it.
fn put_layout_at(
    alloc: Global,
    out: &mut Vec<u8>,
    tables: &Tables<'_>,
    place: usize,
    struct_type: &StructType,
) -> Result<(), AllocError>
    ensures { OnOk result (out.new.items ≡ out.old.items ++ spec.layout_row_at tables.now.layouts.now tables.now.of_module.now place struct_type.now) }
{
    out.extend_from_slice(before_row(place))?;
    put_layout_row(
        alloc,
        out,
        words_in(tables.layouts, tables.of_module, struct_type),
    )
}

/// The end of the row of a global.
fn global_mark(shown: Option<IrType>) -> &'static [u8]
    ensures { result.now ≡ spec.global_mark shown }
{
    if is_number(shown) {
        b", i64 0 }"
    } else {
        b", i64 1 }"
    }
}

/// The row of a global at this place, after what stands before it.
fn put_global_at(
    out: &mut Vec<u8>,
    module: &Module,
    place: usize,
    global: &Word,
) -> Result<(), AllocError>
    ensures { OnOk result (out.new.items ≡ out.old.items ++ spec.global_row_at «module».now place global.now) }
{
    out.extend_from_slice(before_row(place))?;
    out.extend_from_slice(b"{ ptr, i64 } { ptr ")?;
    put_global(out, module, global.symbol, Blank::Kept)?;
    out.extend_from_slice(global_mark(module.types.get(global.held)))
}

fn put_layout_rows(
    alloc: Global,
    out: &mut Vec<u8>,
    tables: &Tables<'_>,
    structs: &[StructType],
) -> Result<(), AllocError>
    ensures { OnOk result (out.new.items ≡ out.old.items ++ numbered (spec.layout_row_at tables.now.layouts.now tables.now.of_module.now) 0 structs.now) }
{
    let mut place = 0;
    for struct_type in structs {
        put_layout_at(alloc, out, tables, place, struct_type)?;
        place += 1;
    }
    Ok(())
}

fn put_global_rows(out: &mut Vec<u8>, module: &Module, globals: &[Word]) -> Result<(), AllocError>
    ensures { OnOk result (out.new.items ≡ out.old.items ++ numbered (spec.global_row_at «module».now) 0 globals.now) }
{
    let mut place = 0;
    for global in globals {
        put_global_at(out, module, place, global)?;
        place += 1;
    }
    Ok(())
}

/// A number with these words before it and after it.
#[tactic(auto, unfolding(crate::specs::Tables::counted))]
pub(crate) fn put_counted(
    alloc: Global,
    out: &mut Vec<u8>,
    before: &[u8],
    count: usize,
    after: &[u8],
) -> Result<(), AllocError>
    ensures { OnOk result (out.new.items ≡ out.old.items ++ spec.counted before.now count after.now) }
{
    out.extend_from_slice(before)?;
    put_number(alloc, out, count as u64)?;
    out.extend_from_slice(after)
}

/// How many layouts there are.
#[tactic(auto, unfolding(crate::specs::Tables::layout_count))]
pub(crate) fn put_layout_count(
    alloc: Global,
    out: &mut Vec<u8>,
    count: usize,
) -> Result<(), AllocError>
    ensures { OnOk result (out.new.items ≡ out.old.items ++ spec.layout_count count) }
{
    put_counted(
        alloc,
        out,
        b"@dg_layout_count = constant i64 ",
        count,
        b"\n",
    )
}

/// How the table of layouts begins.
#[tactic(auto, unfolding(crate::specs::Tables::layout_begin))]
fn put_layout_begin(alloc: Global, out: &mut Vec<u8>, count: usize) -> Result<(), AllocError>
    ensures { OnOk result (out.new.items ≡ out.old.items ++ spec.layout_begin count) }
{
    put_counted(
        alloc,
        out,
        b"@dg_layouts = constant [",
        count,
        b" x { i64, i64 }] [",
    )
}

/// The table of layouts.
#[tactic(auto, unfolding(crate::specs::Tables::layout_table))]
pub(crate) fn put_layout_table(
    alloc: Global,
    out: &mut Vec<u8>,
    tables: &Tables<'_>,
    structs: &[StructType],
) -> Result<(), AllocError>
    ensures { OnOk result (out.new.items ≡ out.old.items ++ spec.layout_table tables.now.layouts.now tables.now.of_module.now structs.now) }
{
    put_layout_begin(alloc, out, structs.len())?;
    put_layout_rows(alloc, out, tables, structs)?;
    out.extend_from_slice(b"]\n")
}

/// How many globals there are.
#[tactic(auto, unfolding(crate::specs::Tables::global_count))]
pub(crate) fn put_global_count(
    alloc: Global,
    out: &mut Vec<u8>,
    count: usize,
) -> Result<(), AllocError>
    ensures { OnOk result (out.new.items ≡ out.old.items ++ spec.global_count count) }
{
    put_counted(
        alloc,
        out,
        b"@dg_global_count = constant i64 ",
        count,
        b"\n",
    )
}

/// How the table of globals begins.
#[tactic(auto, unfolding(crate::specs::Tables::global_begin))]
fn put_global_begin(alloc: Global, out: &mut Vec<u8>, count: usize) -> Result<(), AllocError>
    ensures { OnOk result (out.new.items ≡ out.old.items ++ spec.global_begin count) }
{
    put_counted(
        alloc,
        out,
        b"@dg_globals = constant [",
        count,
        b" x { ptr, i64 }] [",
    )
}

/// The table of globals.
#[tactic(auto, unfolding(crate::specs::Tables::global_table))]
pub(crate) fn put_global_table(
    alloc: Global,
    out: &mut Vec<u8>,
    module: &Module,
    globals: &[Word],
) -> Result<(), AllocError>
    ensures { OnOk result (out.new.items ≡ out.old.items ++ spec.global_table «module».now globals.now) }
{
    put_global_begin(alloc, out, globals.len())?;
    put_global_rows(out, module, globals)?;
    out.extend_from_slice(b"]\n")
}

/// The constant that the name of a layout is.
#[tactic(auto, unfolding(crate::specs::Tables::name_label))]
fn put_name_label(alloc: Global, out: &mut Vec<u8>, place: usize) -> Result<(), AllocError>
    ensures { OnOk result (out.new.items ≡ out.old.items ++ spec.name_label place) }
{
    out.extend_from_slice(b"@dg.layout.")?;
    put_number(alloc, out, place as u64)
}

/// The line of the name of the struct at this place.
fn put_name_line(
    alloc: Global,
    out: &mut Vec<u8>,
    module: &Module,
    place: usize,
    struct_type: &StructType,
) -> Result<(), AllocError>
    ensures { OnOk result (out.new.items ≡ out.old.items ++ spec.name_line «module».now place struct_type.now) }
{
    put_name_label(alloc, out, place)?;
    put_name_string(
        alloc,
        out,
        module
            .struct_names
            .name_at(struct_type.name.number() as usize),
    )
}

fn put_name_lines(
    alloc: Global,
    out: &mut Vec<u8>,
    module: &Module,
    structs: &[StructType],
) -> Result<(), AllocError>
    ensures { OnOk result (out.new.items ≡ out.old.items ++ numbered (spec.name_line «module».now) 0 structs.now) }
{
    let mut place = 0;
    for struct_type in structs {
        put_name_line(alloc, out, module, place, struct_type)?;
        place += 1;
    }
    Ok(())
}

/// The rows of the table of names.
fn put_name_rows(alloc: Global, out: &mut Vec<u8>, structs: &[StructType]) -> Result<(), AllocError>
    ensures { OnOk result (out.new.items ≡ out.old.items ++ numbered spec.name_row_at 0 structs.now) }
{
    let mut place = 0;
    for _struct_type in structs {
        out.extend_from_slice(before_row(place))?;
        out.extend_from_slice(b"ptr ")?;
        put_name_label(alloc, out, place)?;
        place += 1;
    }
    Ok(())
}

/// How the table of names begins.
#[tactic(auto, unfolding(crate::specs::Tables::name_begin))]
fn put_name_begin(alloc: Global, out: &mut Vec<u8>, count: usize) -> Result<(), AllocError>
    ensures { OnOk result (out.new.items ≡ out.old.items ++ spec.name_begin count) }
{
    put_counted(
        alloc,
        out,
        b"@dg_layout_names = constant [",
        count,
        b" x ptr] [",
    )
}

/// The names of layouts, and their table.
#[tactic(auto, unfolding(crate::specs::Tables::name_table))]
pub(crate) fn put_name_table(
    alloc: Global,
    out: &mut Vec<u8>,
    module: &Module,
    structs: &[StructType],
) -> Result<(), AllocError>
    ensures { OnOk result (out.new.items ≡ out.old.items ++ spec.name_table «module».now structs.now) }
{
    put_name_lines(alloc, out, module, structs)?;
    put_name_begin(alloc, out, structs.len())?;
    put_name_rows(alloc, out, structs)?;
    out.extend_from_slice(b"]\n")
}
