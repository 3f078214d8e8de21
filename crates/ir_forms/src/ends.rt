//! How a block ends.
ghost use Rattle.std.specs.Prelude.{◌≡◌};
ghost use Rattle.ir_forms.specs.Input.{Reads};
ghost use Rattle.ir_forms.specs.Ends as form;

use crate::case_values::{CaseValue, CaseValues};
use crate::decorating::{Trail, trailing};
use crate::fault::Fault;
use crate::following::{Following, many_with};
use crate::input::Input;
use crate::lists::typed;
use crate::numbers::condition;
use crate::written::{Word, WrittenType, word_of};
use ir_ast::{Case, Constant, End};
use ir_tokens::Kind;
use items::Items;
use std::alloc::Global;

/// br with a condition, after its word.
#[tactic(auto, unfolding(crate::specs::Ends::branch))]
fn branch(alloc: Global, input: &mut Input<'_>) -> Result<End, Fault>
    ensures { Reads (form.branch.read input.old) result input.new }
{
    let condition = condition(alloc, input)?;
    input.expect(Kind::Comma)?;
    let taken = input.target(alloc)?;
    input.expect(Kind::Comma)?;
    let other = input.target(alloc)?;
    Ok(End::Branch {
        condition_type: condition.written,
        condition: condition.operand,
        taken,
        other,
    })
}

#[tactic(auto, unfolding(crate::specs::Ends::br))]
fn br(alloc: Global, input: &mut Input<'_>) -> Result<End, Fault>
    ensures { Reads (form.br.read input.old) result input.new }
{
    input.skip();
    if input.sees(Kind::Label) {
        return Ok(End::Jump(input.target(alloc)?));
    }
    branch(alloc, input)
}

/// The constant of a case, which is not among those of the cases before.
#[tactic(auto, unfolding(crate::specs::Ends::case_constant))]
fn case_constant(input: &mut Input<'_>, word: Word, seen: &CaseValues) -> Result<Constant, Fault>
    ensures { Reads ((form.case_constant word seen.now).read input.old) result input.new }
{
    let start = input.cursor.start();
    let constant = input.constant(word)?;
    if seen.has(CaseValue::of(constant)) {
        return Err(Fault::DefinedTwice(start));
    }
    Ok(constant)
}

/// The cases of a switch so far.
#[derive(Drop)]
pub struct Cases {
    /// The type of the constants.
    pub written: WrittenType,
    pub seen: CaseValues,
}

#[tactic(auto, unfolding(crate::specs::Ends::case))]
fn case(alloc: Global, input: &mut Input<'_>, cases: &Cases) -> Result<Case, Fault>
    ensures { Reads ((form.case cases.now).read input.old) result input.new }
{
    input.again(alloc, &cases.written)?;
    let constant = case_constant(input, word_of(&cases.written), &cases.seen)?;
    input.expect(Kind::Comma)?;
    let target = input.target(alloc)?;
    Ok(Case { constant, target })
}

impl Following for Cases {
    ghost use Rattle.ir_forms.specs.Ends.{case, at_square, after_case};

    type Item = Case;

    ghost form = { λ c. (case c).read };

    ghost ends = { at_square };

    ghost next = { after_case };

    fn ends(&self, input: &Input<'_>) -> bool {
        input.sees(Kind::CloseSquare)
    }

    fn read(&mut self, alloc: Global, input: &mut Input<'_>) -> Result<Case, Fault> {
        let read = case(alloc, input, self)?;
        self.seen.add(CaseValue::of(read.constant))?;
        Ok(read)
    }
}

/// The cases of a switch of this type.
#[tactic(auto, unfolding(crate::specs::Ends::all_cases))]
fn all_cases(
    alloc: Global,
    input: &mut Input<'_>,
    written: &WrittenType,
) -> Result<Items<Case>, Fault>
    ensures { Reads ((form.all_cases written.now).read input.old) result input.new }
{
    let first = Cases {
        written: *written,
        seen: CaseValues::new(alloc, input.types.key()),
    };
    many_with(alloc, input, first)
}

/// The cases of a switch in their brackets.
#[tactic(auto, unfolding(crate::specs::Ends::bracketed_cases))]
fn bracketed_cases(
    alloc: Global,
    input: &mut Input<'_>,
    written: &WrittenType,
) -> Result<Items<Case>, Fault>
    ensures { Reads ((form.bracketed_cases written.now).read input.old) result input.new }
{
    input.expect(Kind::OpenSquare)?;
    let cases = all_cases(alloc, input, written)?;
    input.expect(Kind::CloseSquare)?;
    Ok(cases)
}

#[tactic(auto, unfolding(crate::specs::Ends::switch))]
fn switch(alloc: Global, input: &mut Input<'_>) -> Result<End, Fault>
    ensures { Reads (form.switch.read input.old) result input.new }
{
    input.skip();
    let written = input.integer_scalar(alloc)?;
    let value = input.operand(alloc, word_of(&written))?;
    input.expect(Kind::Comma)?;
    let otherwise = input.target(alloc)?;
    let cases = bracketed_cases(alloc, input, &written)?;
    Ok(End::Switch {
        written: written.id,
        value,
        otherwise,
        cases,
    })
}

#[tactic(auto, unfolding(crate::specs::Ends::ret))]
fn ret(alloc: Global, input: &mut Input<'_>) -> Result<End, Fault>
    ensures { Reads (form.ret.read input.old) result input.new }
{
    input.skip();
    if input.sees(Kind::Void) {
        input.skip();
        return Ok(End::ReturnVoid);
    }
    Ok(End::Return(typed(alloc, input)?))
}

/// The instruction that ends a block.
#[tactic(auto, unfolding(crate::specs::Ends::terminator))]
fn terminator(alloc: Global, input: &mut Input<'_>) -> Result<End, Fault>
    ensures { Reads (form.terminator.read input.old) result input.new }
{
    match input.kind() {
        Kind::Ret => ret(alloc, input),
        Kind::Br => br(alloc, input),
        Kind::Switch => switch(alloc, input),
        Kind::Unreachable => {
            input.skip();
            Ok(End::Unreachable)
        }
        _ => Err(input.refuse(false)),
    }
}

/// The end of a block, and the decorations after it.
#[tactic(auto, unfolding(crate::specs::Ends::block_end))]
pub fn block_end(alloc: Global, input: &mut Input<'_>) -> Result<End, Fault>
    ensures { Reads (form.block_end.read input.old) result input.new }
{
    let end = terminator(alloc, input)?;
    trailing(alloc, input, Trail::Other)?;
    Ok(end)
}

/// Whether an instruction that begins with this token ends its block.
pub fn ends_block(kind: Kind) -> bool
    ensures { result ≡ form.ends_block kind }
{
    matches!(
        kind,
        Kind::Ret | Kind::Br | Kind::Switch | Kind::Unreachable
    )
}
