//! The text of the bits of floating point numbers.
ghost use Rattle.std.specs.Prelude.{◌≡◌, ◌++◌, ◌%◌, OnOk};
ghost use Rattle.name_text.specs.Names.{hexadecimal};
ghost use Rattle.ir_print.specs.Hexadecimal as spec;

use std::alloc::AllocError;

/// The last hexadecimal digit of a number.
fn last_digit(number: u64) -> u8
    ensures { result ≡ hexadecimal (number % 16) }
{
    let digit = (number % 16) as u8;
    if digit < 10 { 48 + digit } else { 55 + digit }
}

/// Prints the last hexadecimal digits of a number, `many` of them.
#[tactic(auto, unfolding(crate::specs::Hexadecimal::digits_text))]
fn put_digits(out: &mut Vec<u8>, many: u32, number: u64) -> Result<(), AllocError>
    ensures { OnOk result (out.new.items ≡ out.old.items ++ spec.digits_text many number) }
{
    if many == 0 {
        return Ok(());
    }
    put_digits(out, many - 1, number / 16)?;
    out.push(last_digit(number))?;
    Ok(())
}

/// The bits of a number of 64 bits.
pub fn put_bits(out: &mut Vec<u8>, number: u64) -> Result<(), AllocError>
    ensures { OnOk result (out.new.items ≡ out.old.items ++ spec.bits_text number) }
{
    out.extend_from_slice(b"0x")?;
    put_digits(out, 16, number)
}
