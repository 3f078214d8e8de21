//! The text of a module.
ghost use Rattle.std.specs.Prelude.{◌≡◌, ◌++◌, [], OnOk, IfOk};
ghost use Rattle.ir_print.specs.Items.{text_of};

use crate::items_of_text::{put_declares, put_functions, put_structs, put_words};
use ir_ast::Module;
use std::alloc::{AllocError, Global};

fn put_module(alloc: Global, out: &mut Vec<u8>, module: &Module) -> Result<(), AllocError>
    ensures { OnOk result (out.new.items ≡ out.old.items ++ text_of «module».now) }
{
    put_structs(alloc, out, module, module.structs.as_slice())?;
    put_words(alloc, out, module, module.globals.as_slice())?;
    put_declares(alloc, out, module, module.declares.as_slice())?;
    put_functions(alloc, out, module, module.functions.as_slice())
}

/// The text of a module.
pub fn print(alloc: Global, module: &Module) -> Result<Vec<u8>, AllocError>
    ensures text { IfOk result (λ text. text.items ≡ text_of «module».now) }
{
    let mut out = Vec::new(alloc);
    put_module(alloc, &mut out, module)?;
    Ok(out)
}
