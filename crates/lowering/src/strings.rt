//! Names as strings of C.
ghost use Rattle.std.specs.Prelude.{◌≡◌, ◌++◌, OnOk};
ghost use Rattle.lowering.specs.Strings as spec;

use name_text::{Blank, put_name, put_number, put_quoted};
use std::alloc::{AllocError, Global};

/// How the line of a constant with these bytes goes on after its name.
#[tactic(auto, unfolding(crate::specs::Strings::string_of))]
fn put_string(alloc: Global, out: &mut Vec<u8>, bytes: &[u8]) -> Result<(), AllocError>
    ensures { OnOk result (out.new.items ≡ out.old.items ++ spec.string_of bytes.now) }
{
    out.extend_from_slice(b" = private constant [")?;
    put_number(alloc, out, bytes.len() as u64)?;
    out.extend_from_slice(b" x i8] c")?;
    put_quoted(out, bytes, Blank::Kept)?;
    out.push(b'\n')?;
    Ok(())
}

/// The same, with a name as it is printed without its sign, and then a 0.
pub(crate) fn put_name_string(
    alloc: Global,
    out: &mut Vec<u8>,
    name: &[u8],
) -> Result<(), AllocError>
    ensures { OnOk result (out.new.items ≡ out.old.items ++ spec.name_string name.now) }
{
    let mut bytes = Vec::new(alloc);
    put_name(&mut bytes, name, Blank::Kept)?;
    bytes.push(0)?;
    put_string(alloc, out, bytes.as_slice())
}
