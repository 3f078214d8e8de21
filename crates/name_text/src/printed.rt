//! The text of names with their signs, and of numbers, as they are in modules, traces and certificates.
ghost use Rattle.std.specs.Prelude.{◌≡◌, ◌++◌, OnOk};
ghost use Rattle.std.specs.Fmt.{decimal};
ghost use Rattle.name_text.specs.Names as spec;

use crate::blank::Blank;
use crate::names::put_name;
use ir_ast::{Module, Names, SymbolId, ValueId, is_number_key, name_of_key};
use pools::LayoutId;
use std::alloc::{AllocError, Global};

/// What has this key: a number as it is, and otherwise the name.
pub fn put_key(out: &mut Vec<u8>, key: &[u8], blank: Blank) -> Result<(), AllocError>
    ensures { OnOk result (out.new.items ≡ out.old.items ++ spec.key_text blank key.now) }
{
    if is_number_key(key) {
        out.extend_from_slice(key)
    } else {
        put_name(out, name_of_key(key), blank)
    }
}

/// A local name with its sign.
pub fn put_local(
    out: &mut Vec<u8>,
    locals: &Names,
    value: ValueId,
    blank: Blank,
) -> Result<(), AllocError>
    ensures { OnOk result (out.new.items ≡ out.old.items ++ spec.local_text blank locals.now value) }
{
    out.push(b'%')?;
    put_key(out, locals.name_at(value.number() as usize), blank)
}

/// A global name with its sign.
pub fn put_global(
    out: &mut Vec<u8>,
    module: &Module,
    symbol: SymbolId,
    blank: Blank,
) -> Result<(), AllocError>
    ensures { OnOk result (out.new.items ≡ out.old.items ++ spec.global_text blank «module».now symbol) }
{
    out.push(b'@')?;
    put_name(out, module.symbols.name_at(symbol.number() as usize), blank)
}

/// The name of a layout's type, without its sign.
pub fn put_layout(
    out: &mut Vec<u8>,
    module: &Module,
    layout: LayoutId,
    blank: Blank,
) -> Result<(), AllocError>
    ensures { OnOk result (out.new.items ≡ out.old.items ++ spec.layout_text blank «module».now layout) }
{
    put_name(out, module.struct_name(layout), blank)
}

/// A number without a sign.
pub fn put_number(alloc: Global, out: &mut Vec<u8>, number: u64) -> Result<(), AllocError>
    ensures { OnOk result (out.new.items ≡ out.old.items ++ decimal number) }
{
    let digits = number.to_string(alloc)?;
    out.extend_from_slice(digits.as_bytes())
}
