//! Lines of steps in the place of others.
ghost use Rattle.std.specs.Prelude.{◌≡◌, [], ◌∷◌, ◌++◌, ◌+◌, ℕ, take, drop, IfOk, OnOk};
ghost use Rattle.moves.specs.Runs.{IsActor};
ghost use Rattle.trace_text.specs.Traces.{step_sum};
ghost use Rattle.hunting.specs.Parts.{AreOfActors};

use items::Items;
use std::alloc::{AllocError, Global};
use trace_text::Steps;

/// The first `count` lines, or all if there are fewer.
pub(crate) fn front(lines: &[Steps], count: usize) -> &[Steps]
    ensures { result.now ≡ take count lines.now }
{
    if count < lines.len() {
        &lines[..count]
    } else {
        lines
    }
}

/// The lines after the first `count`.
pub(crate) fn back(lines: &[Steps], count: usize) -> &[Steps]
    ensures { result.now ≡ drop count lines.now }
{
    if count < lines.len() {
        &lines[count..]
    } else {
        &[]
    }
}

/// Some lines, then others, then more.
pub(crate) fn joined(
    alloc: Global,
    first: &[Steps],
    others: &[Steps],
    last: &[Steps],
) -> Result<Items<Steps>, AllocError>
    ensures { IfOk result (λ lines. lines ≡ first.now ++ others.now ++ last.now) }
{
    let mut lines = Vec::from_slice(alloc, first)?;
    lines.extend_from_slice(others)?;
    lines.extend_from_slice(last)?;
    Ok(Items::from_vec(lines))
}

/// One line more at the end.
pub fn add_line(lines: &mut Items<Steps>, line: Steps) -> Result<(), AllocError>
    ensures actors { (threads : ℕ) → AreOfActors threads lines.old → IsActor threads line.actor → OnOk result (AreOfActors threads lines.new) }
    ensures sum { OnOk result (step_sum lines.new ≡ step_sum lines.old + line.count) }
    ensures lines { OnOk result (lines.new ≡ lines.old ++ line ∷ []) }
{
    lines.push(line)?;
    Ok(())
}
