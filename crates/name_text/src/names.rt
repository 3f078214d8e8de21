//! The text of names.
ghost use Rattle.std.specs.Prelude.{◌≡◌, ◌++◌, ◌<◌, ◌||◌, OnOk};
ghost use Rattle.std.specs.List.{list_all, flat_map};
ghost use Rattle.ir_tokens.specs.Bytes.{is_letter as letter, is_digit as digit};
ghost use Rattle.name_text.specs.Names as spec;

use crate::blank::Blank;
use crate::numbers::is_digit;
use crate::quoted::QuotedByte;
use std::alloc::AllocError;

fn is_letter(byte: u8) -> bool
    ensures { result ≡ letter byte }
{
    matches!(byte, b'a'..=b'z' | b'A'..=b'Z' | b'-' | b'$' | b'.' | b'_')
}

fn begins_plain(name: &[u8]) -> bool
    ensures { result ≡ spec.begins_plain name.now }
{
    match name {
        [first, ..] => is_letter(*first),
        [] => false,
    }
}

fn has_plain_bytes(name: &[u8]) -> bool
    ensures { result ≡ list_all (λ byte. letter byte || digit byte) name.now }
{
    name.iter().all(|byte| is_letter(*byte) || is_digit(*byte))
}

/// Whether a name is printed without quotes.
pub fn is_plain(name: &[u8]) -> bool
    ensures { result ≡ spec.is_plain name.now }
{
    begins_plain(name) && has_plain_bytes(name)
}

/// The lowest byte that may be printed as it is between quotes.
fn first_shown(blank: Blank) -> u8
    ensures { result ≡ spec.first_shown blank }
{
    match blank {
        Blank::Kept => 32,
        Blank::Escaped => 33,
    }
}

/// Whether a byte is printed as it is between quotes.
fn is_shown(byte: u8, blank: Blank) -> bool
    ensures { result ≡ spec.is_shown blank byte }
{
    byte >= first_shown(blank) && byte <= 126 && byte != b'"' && byte != b'\\'
}

fn hexadecimal(digit: u8) -> u8
    requires { digit < 16 }
    ensures { result ≡ spec.hexadecimal digit }
{
    if digit < 10 { 48 + digit } else { 55 + digit }
}

/// A byte as it is printed between quotes.
pub fn quoted_byte(byte: u8, blank: Blank) -> QuotedByte
    ensures { spec.bytes_of result ≡ spec.quoted_byte blank byte }
{
    if is_shown(byte, blank) {
        QuotedByte::Shown([byte])
    } else {
        QuotedByte::Escaped([b'\\', hexadecimal(byte / 16), hexadecimal(byte % 16)])
    }
}

fn put_quoted_bytes(out: &mut Vec<u8>, name: &[u8], blank: Blank) -> Result<(), AllocError>
    ensures { OnOk result (out.new.items ≡ out.old.items ++ flat_map (spec.quoted_byte blank) name.now) }
{
    for byte in name {
        out.extend_from_slice(quoted_byte(*byte, blank).bytes())?;
    }
    Ok(())
}

/// A text in quotes.
pub fn put_quoted(out: &mut Vec<u8>, name: &[u8], blank: Blank) -> Result<(), AllocError>
    ensures { OnOk result (out.new.items ≡ out.old.items ++ spec.quoted_text blank name.now) }
{
    out.push(b'"')?;
    put_quoted_bytes(out, name, blank)?;
    out.push(b'"')?;
    Ok(())
}

/// A name, in quotes where it is not plain.
pub fn put_name(out: &mut Vec<u8>, name: &[u8], blank: Blank) -> Result<(), AllocError>
    ensures { OnOk result (out.new.items ≡ out.old.items ++ spec.name_text blank name.now) }
{
    if is_plain(name) {
        out.extend_from_slice(name)
    } else {
        put_quoted(out, name, blank)
    }
}
