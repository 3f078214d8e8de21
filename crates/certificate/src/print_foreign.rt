//! The text of functions outside that are trusted.
ghost use Rattle.std.specs.Prelude.{◌≡◌, ◌++◌, OnOk};
ghost use Rattle.certificate.specs.ForeignPrint as spec;

use ir_ast::{Module, SymbolId};
use name_text::{Blank, put_global};
use std::alloc::AllocError;

fn put_foreign_line(out: &mut Vec<u8>, module: &Module, symbol: SymbolId) -> Result<(), AllocError>
    ensures { OnOk result (out.new.items ≡ out.old.items ++ spec.foreign_line_text «module».now symbol) }
{
    out.extend_from_slice(b"foreign ")?;
    put_global(out, module, symbol, Blank::Kept)?;
    out.extend_from_slice(b" none\n")
}

/// The lines of these functions, in their order.
pub fn put_foreign(
    out: &mut Vec<u8>,
    module: &Module,
    symbols: &[SymbolId],
) -> Result<(), AllocError>
    ensures { OnOk result (out.new.items ≡ out.old.items ++ spec.foreign_text «module».now symbols.now) }
{
    for symbol in symbols {
        put_foreign_line(out, module, *symbol)?;
    }
    Ok(())
}
