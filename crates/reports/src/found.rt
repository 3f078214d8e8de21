//! The names of what a module has at some number.
ghost use Rattle.std.specs.Prelude.{◌≡◌, OnOk};
ghost use Rattle.std.specs.Io.KnownBytes.{Appends};
ghost use Rattle.std.specs.Option.{option_copied};
ghost use Rattle.reports.specs.Report as spec;
ghost use Rattle.reports.specs.Report.{name_of_block, name_of_function, name_of_local, name_of_struct};

use crate::name::{write_local, write_name};
use ir_ast::{BlockId, FuncId, Module};
use std::io;
use std::io::Write;

/// The name of a function, if there is that function.
pub fn name_of_function(of_module: &Module, number: usize) -> Option<&[u8]>
    ensures { option_copied result ≡ name_of_function of_module.now number }
{
    let function = of_module.functions.get(number)?;
    of_module.symbols.get(function.symbol.number() as usize)
}

/// The key of the name of a block of a function, if there is that block.
pub fn name_of_block(of_module: &Module, func: FuncId, block: BlockId) -> Option<&[u8]>
    ensures { option_copied result ≡ name_of_block of_module.now func block }
{
    name_of_block_at(of_module, func.number() as usize, block.number() as usize)
}

/// The same, by the places of the function and of the block.
pub fn name_of_block_at(of_module: &Module, func: usize, block: usize) -> Option<&[u8]>
    ensures { option_copied result ≡ name_of_block of_module.now func block }
{
    let function = of_module.functions.get(func)?;
    let block = function.blocks.get(block)?;
    function.locals.get(block.label.number() as usize)
}

/// The key of a local name of a function, if there is that name.
pub fn name_of_local(of_module: &Module, func: usize, local: usize) -> Option<&[u8]>
    ensures { option_copied result ≡ name_of_local of_module.now func local }
{
    let function = of_module.functions.get(func)?;
    function.locals.get(local)
}

/// The name of a struct, if there is that struct.
pub fn name_of_struct(of_module: &Module, number: usize) -> Option<&[u8]>
    ensures { option_copied result ≡ name_of_struct of_module.now number }
{
    let named = of_module.structs.get(number)?;
    of_module.struct_names.get(named.name.number() as usize)
}

/// Writes a name, if there is one.
pub fn write_found_name<W: Write>(out: &mut W, name: Option<&[u8]>) -> io::Result<()>
    ensures { OnOk result (Appends (W.contents out.old) (W.contents out.new) (spec.found_name (option_copied name.entry))) }
{
    match name {
        Some(name) => write_name(out, name),
        None => Ok(()),
    }
}

/// Writes what has a key, if there is one.
pub fn write_found_local<W: Write>(out: &mut W, key: Option<&[u8]>) -> io::Result<()>
    ensures { OnOk result (Appends (W.contents out.old) (W.contents out.new) (spec.found_key (option_copied key.entry))) }
{
    match key {
        Some(key) => write_local(out, key),
        None => Ok(()),
    }
}
