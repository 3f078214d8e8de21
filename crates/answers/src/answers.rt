//! The answers to functions.
ghost use Rattle.std.specs.Prelude.{◌≡◌, ◌<◌, ◌≤◌, [], length, IfOk, IfSome, OnOk};
ghost use Rattle.std.specs.Option.{option_copied};
ghost use Rattle.answers.specs.Answers as spec;
ghost use Rattle.answers.specs.Answers.{AreAnswers, AreAnswersSoFar, IsAnswer};
ghost use Rattle.block_check.specs.Rows.{AreRowsOf};

use block_check::{Rows, check_function, check_function_rows};
use block_rules::{BlockFault, Refusal};
use certs::Certs;
use ir_ast::FuncId;
use items::Items;
use layout::Program;
use std::alloc::{AllocError, Global};

/// The first refusal in a function, if it is not certified. What its blocks begin with may have been found before.
pub fn answer_to(
    alloc: Global,
    program: &Program,
    certs: &Certs,
    rows: Option<&Rows>,
    func: FuncId,
) -> Result<Option<Refusal>, AllocError>
    requires func { func < length program.now.of_module.functions }
    requires rows { IfSome (option_copied rows) (AreRowsOf program.now certs.now.sections func) }
    ensures { IfOk result (IsAnswer program.now certs.now.sections func) }
{
    let checked = match rows {
        Some(rows) => check_function_rows(alloc, program, certs, rows, func),
        None => check_function(alloc, program, certs, func),
    };
    match checked {
        Ok(()) => Ok(None),
        Err(BlockFault::Refused(refusal)) => Ok(Some(refusal)),
        Err(BlockFault::Memory) => Err(AllocError),
    }
}

/// Puts the answers to the first `count` functions into an empty list.
#[tactic(auto, using(crate::proofs::Kept::answers_more))]
fn put_answers(
    alloc: Global,
    program: &Program,
    certs: &Certs,
    count: u32,
    answers: &mut Items<Option<Refusal>>,
) -> Result<(), AllocError>
    requires within { count ≤ length program.now.of_module.functions }
    requires empty { answers.old ≡ [] }
    ensures { OnOk result ((length answers.new ≡ count) × AreAnswersSoFar program.now certs.now.sections answers.new) }
{
    for number in 0..count {
        let answer = [answer_to(alloc, program, certs, None, FuncId::new(number))?];
        answers.push(answer[0])?;
    }
    Ok(())
}

/// The answers to all functions of a program.
#[tactic(auto, using(crate::proofs::Kept::all_answers))]
pub fn answers_to(
    alloc: Global,
    program: &Program,
    certs: &Certs,
) -> Result<Items<Option<Refusal>>, AllocError>
    ensures { IfOk result (AreAnswers program.now certs.now.sections) }
{
    // No memory holds more functions than there are numbers for them.
    let Ok(count) = u32::try_from(program.module().functions.len()) else {
        return Err(AllocError);
    };
    let mut answers = Items::new(alloc);
    put_answers(alloc, program, certs, count, &mut answers)?;
    Ok(answers)
}

/// The first refusal in the order of the functions.
pub fn first_refusal(answers: &[Option<Refusal>]) -> Option<Refusal>
    ensures { result ≡ spec.first_refusal answers.now }
{
    for answer in answers {
        if let Some(refusal) = answer {
            return Some(*refusal);
        }
    }
    None
}
