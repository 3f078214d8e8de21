//! The texts after all steps of mending.
ghost use Rattle.std.specs.Prelude.{◌≡◌, [], IfOk};

use crate::pair::{Pair, copied};
use crate::steps::{Step, next_step};
use crate::trial::trial_of;
use messages::Pen;
use std::alloc::AllocError;

/// How many steps are made at most.
const STEPS: usize = 1000;

/// Texts after fixes, and a line for each of these.
#[derive(Drop)]
pub(crate) struct Mended {
    pub pair: Pair,
    pub lines: Vec<u8>,
}

/// What comes after a step: another one, or nothing.
#[derive(Drop)]
enum Next {
    Made(Step),
    Ended(Mended),
}

/// The step after this one. Its lines come after those of this one.
fn after(pen: Pen, wide: bool, step: Step) -> Result<Next, AllocError> {
    let Step { pair, trial, lines } = step;
    match next_step(pen, wide, &pair, trial) {
        Ok(Some(next)) => {
            drop(pair);
            joined(lines, next)
        }
        Ok(None) => Ok(Next::Ended(Mended { pair, lines })),
        Err(refused) => {
            drop(pair);
            drop(lines);
            Err(refused)
        }
    }
}

/// A step whose lines come after these.
fn joined(lines: Vec<u8>, next: Step) -> Result<Next, AllocError> {
    let Step {
        pair,
        trial,
        lines: more,
    } = next;
    let mut lines = lines;
    if let Err(refused) = lines.extend_from_slice(more.as_slice()) {
        drop(pair);
        drop(trial);
        return Err(refused);
    }
    Ok(Next::Made(Step { pair, trial, lines }))
}

/// These texts after all steps, from the first on.
fn after_steps(pen: Pen, wide: bool, first: Step) -> Result<Mended, AllocError> {
    let mut step = first;
    for _turn in 0..STEPS {
        match after(pen, wide, step)? {
            Next::Made(next) => step = next,
            Next::Ended(mended) => return Ok(mended),
        }
    }
    let Step { pair, trial, lines } = step;
    drop(trial);
    Ok(Mended { pair, lines })
}

/// The step in front of all, without a fix.
fn first_step(
    pen: Pen,
    wide: bool,
    of_module: &[u8],
    certificate: &[u8],
) -> Result<Step, AllocError> {
    let pair = copied(pen.alloc, of_module, certificate)?;
    match trial_of(pen.alloc, wide, &pair) {
        Ok(trial) => Ok(Step {
            pair,
            trial,
            lines: Vec::new(pen.alloc),
        }),
        Err(refused) => {
            drop(pair);
            Err(refused)
        }
    }
}

/// These texts with the safe fixes. Where no fix was made they are as they were.
pub(crate) fn after_fixes(
    pen: Pen,
    wide: bool,
    of_module: &[u8],
    certificate: &[u8],
) -> Result<Mended, AllocError>
    ensures of_module { IfOk result (λ mended. mended.lines.items ≡ [] → mended.pair.of_module.items ≡ of_module.now) }
    ensures certificate { IfOk result (λ mended. mended.lines.items ≡ [] → mended.pair.certificate.items ≡ certificate.now) }
{
    let first = first_step(pen, wide, of_module, certificate)?;
    let mended = after_steps(pen, wide, first)?;
    if mended.lines.is_empty() {
        drop(mended);
        return Ok(Mended {
            pair: copied(pen.alloc, of_module, certificate)?,
            lines: Vec::new(pen.alloc),
        });
    }
    Ok(mended)
}
