//! The reader of edits.
ghost use Rattle.std.specs.Prelude.{◌≡◌, ◌≢◌, List, IfOk, IfErr, Ok, Err};
ghost use Rattle.grammar.specs.Outcome.{Gives};
ghost use Rattle.grammar.specs.Whole.{value_of};
ghost use Rattle.recheck.specs.Forms as form;
ghost use Rattle.recheck.specs.Forms.{Reads};
ghost use Rattle.recheck.specs.Text as text;
ghost use Rattle.recheck.specs.Text.{IsEdits, IsFault};
ghost use Rattle.recheck.specs.declared.edit.Edit.{Edit as AnEdit};
ghost use Rattle.recheck.specs.declared.frame_fault.FrameFault.TheVariants.{Memory};
ghost use Rattle.certificate.specs.declared.fault.CertFault.{CertFault as AFault};
ghost use Rattle.certificate.specs.declared.fault.CertFault.TheVariants as fault;

use crate::edit::Edit;
use crate::edit_input::EditInput;
use crate::frame_fault::FrameFault;
use crate::part::{Part, part_of_word};
use certificate::CertFault;
use items::Items;
use name_text::{Sigil, name_in, place};
use std::alloc::Global;

/// The word that tells what the edit replaces.
#[tactic(auto, unfolding(crate::specs::Forms::part, crate::specs::Forms::skip))]
fn part(input: &mut EditInput<'_>) -> Result<Part, FrameFault>
    ensures { Reads (form.part.read input.old) result input.new }
{
    match part_of_word(input.word()) {
        None => Err(FrameFault::Syntax(input.left())),
        Some(part) => {
            input.skip();
            Ok(part)
        }
    }
}

/// The name of a function, without its sign.
#[tactic(auto, unfolding(crate::specs::Forms::name, crate::specs::Forms::skip))]
fn name(alloc: Global, input: &mut EditInput<'_>) -> Result<Items<u8>, FrameFault>
    ensures { Reads (form.name.read input.old) result input.new }
{
    match name_in(alloc, Sigil::Global, input.word())? {
        None => Err(FrameFault::Syntax(input.left())),
        Some(name) => {
            input.skip();
            Ok(name)
        }
    }
}

/// A line, whatever stands on it.
#[tactic(auto, unfolding(crate::specs::Forms::line))]
fn line(input: &mut EditInput<'_>) -> Result<(), FrameFault>
    ensures { Reads (form.line.read input.old) result input.new }
{
    if input.ended() {
        return Err(FrameFault::Syntax(input.left()));
    }
    input.skip_line();
    Ok(())
}

/// The lines before the next `.` that stands alone on its line.
#[tactic(auto, unfolding(crate::specs::Forms::lines))]
fn lines(input: &mut EditInput<'_>) -> Result<(), FrameFault>
    ensures { Reads (form.lines.read input.old) result input.new }
{
    for _turn in 0..input.left() + 1 {
        if input.is_dot() {
            return Ok(());
        }
        line(input)?;
    }
    Ok(())
}

/// The bytes of the lines before the next `.`, which is read too.
#[tactic(auto, unfolding(crate::specs::Forms::text))]
fn text(alloc: Global, input: &mut EditInput<'_>) -> Result<Items<u8>, FrameFault>
    ensures { Reads (form.text.read input.old) result input.new }
{
    let begin = input.rest();
    lines(input)?;
    let text = Items::from_slice(alloc, &begin[..begin.len().saturating_sub(input.left())])?;
    input.skip_line();
    Ok(text)
}

/// An edit after its first line.
#[tactic(auto, unfolding(crate::specs::Text::edit_of))]
fn edit_of(
    alloc: Global,
    input: &mut EditInput<'_>,
    part: Part,
    name: Items<u8>,
) -> Result<Edit, FrameFault>
    ensures { Reads ((text.edit_of part name).read input.old) result input.new }
{
    match part {
        Part::Code => {
            let code = text(alloc, input)?;
            Ok(Edit::Code { name, code })
        }
        Part::Cert => {
            let section = text(alloc, input)?;
            Ok(Edit::Cert { name, section })
        }
        Part::Both => {
            let code = text(alloc, input)?;
            let section = text(alloc, input)?;
            Ok(Edit::Both {
                name,
                code,
                section,
            })
        }
    }
}

/// An edit, and what may stand between it and the next one.
#[tactic(auto, unfolding(crate::specs::Text::edit, crate::specs::Forms::gap))]
fn edit(alloc: Global, input: &mut EditInput<'_>) -> Result<Edit, FrameFault>
    ensures { Reads (text.edit.read input.old) result input.new }
{
    input.expect(b"edit")?;
    let part = part(input)?;
    let name = name(alloc, input)?;
    input.line_end()?;
    let edit = edit_of(alloc, input, part, name)?;
    input.skip_gap();
    Ok(edit)
}

/// The edits up to the text's end.
#[tactic(auto, unfolding(crate::specs::Text::edits))]
fn edits(alloc: Global, input: &mut EditInput<'_>) -> Result<Items<Edit>, FrameFault>
    ensures { Reads (text.edits.read input.old) result input.new }
{
    let mut edits = Items::new(alloc);
    for _turn in 0..input.left() + 1 {
        if input.ended() {
            return Ok(edits);
        }
        edits.push(edit(alloc, input)?)?;
    }
    Ok(edits)
}

#[tactic(auto, unfolding(crate::specs::Text::file, crate::specs::Forms::gap))]
fn edits_of(alloc: Global, bytes: &[u8]) -> Result<Items<Edit>, FrameFault>
    ensures { Gives Memory result (value_of (text.file.read bytes.now)) }
{
    let mut input = EditInput::new(bytes);
    input.skip_gap();
    edits(alloc, &mut input)
}

/// The fault with its line and column.
fn placed(bytes: &[u8], found: FrameFault) -> CertFault
    ensures { result ≡ text.placed bytes.now found }
{
    match found {
        FrameFault::Syntax(rest) => CertFault::Syntax(place(bytes, rest)),
        FrameFault::Memory => CertFault::Memory,
    }
}

/// Reads edits in their frame. The texts within are not looked at.
pub fn read_edits(alloc: Global, bytes: &[u8]) -> Result<Items<Edit>, CertFault>
    // What is read is a text of these edits.
    ensures found { IfOk result (λ edits. IsEdits bytes.now edits) }
    // What is a text of some edits is read, unless memory runs out.
    ensures only { (edits : List AnEdit) → IsEdits bytes.now edits → Gives fault.Memory result (Ok edits) }
    // What is refused is refused for its first fault.
    ensures fault { IfErr result (λ e. e ≢ fault.Memory → IsFault bytes.now e) }
    // What has a first fault is refused for it, unless memory runs out.
    ensures only_fault { (e : AFault) → IsFault bytes.now e → Gives fault.Memory result (Err e) }
{
    match edits_of(alloc, bytes) {
        Ok(edits) => Ok(edits),
        Err(found) => Err(placed(bytes, found)),
    }
}
