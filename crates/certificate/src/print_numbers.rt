//! The text of numbers of layouts.
ghost use Rattle.std.specs.Prelude.{◌≡◌, ◌++◌, OnOk};
ghost use Rattle.certificate.specs.NumbersPrint as spec;

use ir_ast::{LayoutNumber, Module};
use name_text::{Blank, put_layout, put_number};
use std::alloc::{AllocError, Global};

fn put_number_line(
    alloc: Global,
    out: &mut Vec<u8>,
    module: &Module,
    line: LayoutNumber,
) -> Result<(), AllocError>
    ensures { OnOk result (out.new.items ≡ out.old.items ++ spec.number_line_text «module».now line) }
{
    out.extend_from_slice(b"number ")?;
    put_layout(out, module, line.layout, Blank::Kept)?;
    out.push(b' ')?;
    put_number(alloc, out, line.number)?;
    out.extend_from_slice(b"\n")
}

/// The lines of these, in their order.
pub fn put_numbers(
    alloc: Global,
    out: &mut Vec<u8>,
    module: &Module,
    lines: &[LayoutNumber],
) -> Result<(), AllocError>
    ensures { OnOk result (out.new.items ≡ out.old.items ++ spec.numbers_text «module».now lines.now) }
{
    for line in lines {
        put_number_line(alloc, out, module, *line)?;
    }
    Ok(())
}
