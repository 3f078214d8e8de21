//! Items that have no effect on the module.
ghost use Rattle.std.specs.Prelude.{◌≡◌};
ghost use Rattle.ir_forms.specs.Input.{Reads};
ghost use Rattle.ir_text.specs.Lines as form;

use ir_forms::{Fault, Input, Listed, any_token, many};
use ir_tokens::Kind;
use std::alloc::Global;

/// `= "x"`
fn text_after(input: &mut Input<'_>) -> Result<(), Fault>
    ensures { Reads (form.text_after.read input.old) result input.new }
{
    input.expect(Kind::Equals)?;
    input.expect(Kind::Quoted)
}

/// `source_filename = "x"`
#[tactic(auto, unfolding(crate::specs::Lines::source_name))]
pub fn source_name(input: &mut Input<'_>) -> Result<(), Fault>
    ensures { Reads (form.source_name.read input.old) result input.new }
{
    input.skip();
    text_after(input)
}

/// `datalayout` or `triple`
#[tactic(auto, unfolding(crate::specs::Lines::target_part))]
fn target_part(input: &mut Input<'_>) -> Result<(), Fault>
    ensures { Reads (form.target_part.read input.old) result input.new }
{
    match input.kind() {
        Kind::Datalayout | Kind::Triple => {
            input.skip();
            Ok(())
        }
        _ => Err(input.refuse(false)),
    }
}

/// `target datalayout = "x"` or `target triple = "x"`
#[tactic(auto, unfolding(crate::specs::Lines::target_line))]
pub fn target_line(input: &mut Input<'_>) -> Result<(), Fault>
    ensures { Reads (form.target_line.read input.old) result input.new }
{
    input.skip();
    target_part(input)?;
    text_after(input)
}

/// The tokens up to a brace that closes.
pub struct Braced;

impl Listed for Braced {
    ghost use Rattle.ir_forms.specs.Decorations.{any_token};
    ghost use Rattle.ir_text.specs.Lines.{at_brace};

    type Item = Kind;

    ghost form = { any_token.read };

    ghost ends = { at_brace };

    fn ends(input: &Input<'_>) -> bool {
        input.sees(Kind::CloseBrace)
    }

    fn read(_alloc: Global, input: &mut Input<'_>) -> Result<Kind, Fault> {
        any_token(input)
    }
}

/// `attributes #n = { .. }`
#[tactic(auto, unfolding(crate::specs::Lines::group, crate::specs::Lines::braced))]
pub fn group(alloc: Global, input: &mut Input<'_>) -> Result<(), Fault>
    ensures { Reads (form.group.read input.old) result input.new }
{
    input.skip();
    input.expect(Kind::AttributeGroup)?;
    input.expect(Kind::Equals)?;
    input.expect(Kind::OpenBrace)?;
    many::<Braced>(alloc, input)?;
    input.expect(Kind::CloseBrace)
}

fn begins_dollar(bytes: &[u8]) -> bool
    ensures { result ≡ form.begins_dollar bytes.now }
{
    matches!(bytes, [b'$', ..])
}

fn is_dollar(bytes: &[u8]) -> bool
    ensures { result ≡ form.is_dollar bytes.now }
{
    matches!(bytes, [b'$'])
}

/// `$x`, or `$"x"`
#[tactic(auto, unfolding(crate::specs::Lines::dollar_name))]
fn dollar_name(input: &mut Input<'_>) -> Result<(), Fault>
    ensures { Reads (form.dollar_name.read input.old) result input.new }
{
    if is_dollar(input.cursor.spelling()) {
        input.skip();
        return input.expect(Kind::Quoted);
    }
    input.skip();
    Ok(())
}

/// `$x = comdat any`
#[tactic(auto, unfolding(crate::specs::Lines::comdat))]
pub fn comdat(input: &mut Input<'_>) -> Result<(), Fault>
    ensures { Reads (form.comdat.read input.old) result input.new }
{
    if !begins_dollar(input.cursor.spelling()) {
        return Err(input.refuse(false));
    }
    dollar_name(input)?;
    input.expect(Kind::Equals)?;
    input.expect(Kind::Comdat)?;
    input.expect(Kind::LowercaseWord)
}

/// The tokens up to the end of a line.
pub struct LineTokens;

impl Listed for LineTokens {
    ghost use Rattle.ir_forms.specs.Decorations.{any_token};
    ghost use Rattle.ir_text.specs.Lines.{at_line_end};

    type Item = Kind;

    ghost form = { any_token.read };

    ghost ends = { at_line_end };

    fn ends(input: &Input<'_>) -> bool {
        input.cursor.begins_line() || input.sees(Kind::End)
    }

    fn read(_alloc: Global, input: &mut Input<'_>) -> Result<Kind, Fault> {
        any_token(input)
    }
}

/// A line that begins with `!`.
#[tactic(auto, unfolding(crate::specs::Lines::metadata_line, crate::specs::Lines::rest_of_line))]
pub fn metadata_line(alloc: Global, input: &mut Input<'_>) -> Result<(), Fault>
    ensures { Reads (form.metadata_line.read input.old) result input.new }
{
    if !input.cursor.begins_line() {
        return Err(input.refuse(false));
    }
    input.skip();
    many::<LineTokens>(alloc, input)?;
    Ok(())
}
