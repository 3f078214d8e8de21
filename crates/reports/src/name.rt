//! How names are spelled in what the program prints: as in the text that is printed of a module.
ghost use Rattle.std.specs.Prelude.{OnOk};
ghost use Rattle.std.specs.List.{flat_map};
ghost use Rattle.std.specs.Io.KnownBytes.{Appends};
ghost use Rattle.ir_print.specs.Names.{key_text};
ghost use Rattle.name_text.specs.Names as spec;
ghost use Rattle.name_text.specs.declared.blank.Blank.TheVariants as blank;

use ir_ast::{is_number_key, name_of_key};
use name_text::{Blank, is_plain, quoted_byte};
use std::io;
use std::io::Write;

/// Writes the bytes of a name that is put in quotes.
fn write_quoted<W: Write>(out: &mut W, name: &[u8]) -> io::Result<()>
    ensures { OnOk result (Appends (W.contents out.old) (W.contents out.new) (flat_map (spec.quoted_byte blank.Kept) name.now)) }
{
    for byte in name {
        out.write_all(quoted_byte(*byte, Blank::Kept).bytes())?;
    }
    Ok(())
}

/// Writes a name, in quotes where it is not plain.
pub fn write_name<W: Write>(out: &mut W, name: &[u8]) -> io::Result<()>
    ensures { OnOk result (Appends (W.contents out.old) (W.contents out.new) (spec.name_text blank.Kept name.now)) }
{
    if is_plain(name) {
        return out.write_all(name);
    }
    out.write_all(b"\"".as_slice())?;
    write_quoted(out, name)?;
    out.write_all(b"\"".as_slice())
}

/// Writes the name of a value or a block by its key: digits as they are where it has no name.
pub fn write_local<W: Write>(out: &mut W, key: &[u8]) -> io::Result<()>
    ensures { OnOk result (Appends (W.contents out.old) (W.contents out.new) (key_text key.now)) }
{
    if is_number_key(key) {
        out.write_all(key)
    } else {
        write_name(out, name_of_key(key))
    }
}
