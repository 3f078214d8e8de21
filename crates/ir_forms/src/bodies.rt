//! The instructions of the body of a block.
ghost use Rattle.std.specs.Prelude.{◌≡◌};
ghost use Rattle.ir_forms.specs.Input.{Reads};
ghost use Rattle.ir_forms.specs.Instructions as form;

use crate::calls::{call, call_statement, tail_call, tail_call_statement, unnamed, valued};
use crate::casts::{bitcast, freeze, freezes};
use crate::choices::select;
use crate::elements::element;
use crate::ends::ends_block;
use crate::fault::Fault;
use crate::float_ops::number_op;
use crate::following::{Following, many_with};
use crate::input::Input;
use crate::memory::{alloca, load, store};
use crate::numbers::{compare, integer_op};
use crate::site::Site;
use ir_ast::{BlockId, Instr, Op, ValueId};
use ir_tokens::Kind;
use items::Items;
use std::alloc::Global;

/// An instruction that begins with a word that is left out where the wide forms may not stand.
#[tactic(auto, unfolding(crate::specs::Instructions::wide_op))]
fn wide_op(alloc: Global, input: &mut Input<'_>, value: ValueId) -> Result<Op, Fault>
    ensures { Reads ((form.wide_op value).read input.old) result input.new }
{
    if freezes(input) {
        Ok(Op::Cast(freeze(alloc, input, value)?))
    } else {
        number_op(alloc, input, value)
    }
}

/// An instruction after the name of its value.
#[tactic(auto, unfolding(crate::specs::Instructions::named_op))]
fn named_op(alloc: Global, input: &mut Input<'_>, site: Site, value: ValueId) -> Result<Op, Fault>
    ensures { Reads ((form.named_op site value).read input.old) result input.new }
{
    match input.kind() {
        Kind::Alloca => Ok(Op::Memory(alloca(alloc, input, value)?)),
        Kind::Bitcast => Ok(Op::Cast(bitcast(alloc, input, value)?)),
        Kind::Load => Ok(Op::Memory(load(alloc, input, value)?)),
        Kind::Getelementptr => Ok(Op::Element(element(alloc, input, site, value)?)),
        Kind::Icmp => Ok(Op::Number(compare(alloc, input, value)?)),
        Kind::Select => Ok(Op::Choice(select(alloc, input, value)?)),
        Kind::Call => call(alloc, input, value),
        Kind::Tail | Kind::Notail => tail_call(alloc, input, value),
        Kind::LeftOut => wide_op(alloc, input, value),
        _ => Ok(Op::Number(integer_op(alloc, input, value)?)),
    }
}

/// What follows the name of a value.
fn named(alloc: Global, input: &mut Input<'_>, site: Site, value: ValueId) -> Result<Instr, Fault>
    ensures { Reads ((form.named_after site value).read input.old) result input.new }
{
    input.expect(Kind::Equals)?;
    let op = named_op(alloc, input, site, value)?;
    valued(alloc, input, value, op)
}

/// An instruction of a body.
#[tactic(auto, unfolding(crate::specs::Instructions::instruction))]
fn instruction(alloc: Global, input: &mut Input<'_>, site: Site) -> Result<Instr, Fault>
    ensures { Reads ((form.instruction site).read input.old) result input.new }
{
    match input.kind() {
        Kind::LocalName => {
            let value = input.new_value(alloc)?;
            named(alloc, input, site, value)
        }
        Kind::LocalNumber => {
            let value = input.numbered_value(alloc)?;
            named(alloc, input, site, value)
        }
        Kind::Call => call_statement(alloc, input),
        Kind::Tail | Kind::Notail => tail_call_statement(alloc, input),
        Kind::Store => {
            let store = store(alloc, input)?;
            unnamed(alloc, input, Op::Memory(store))
        }
        _ => Err(input.refuse(false)),
    }
}

impl Following for Site {
    ghost use Rattle.ir_forms.specs.Instructions.{placed, at_terminator};
    ghost use Rattle.ir_forms.specs.Sites.{afterwards};

    type Item = Instr;

    ghost form = { λ site. (placed site).read };

    ghost ends = { at_terminator };

    ghost next = { afterwards };

    fn ends(&self, input: &Input<'_>) -> bool {
        ends_block(input.kind())
    }

    fn read(&mut self, alloc: Global, input: &mut Input<'_>) -> Result<Instr, Fault> {
        if self.place >= u32::MAX {
            return Err(input.limit());
        }
        let read = instruction(alloc, input, *self)?;
        self.place += 1;
        Ok(read)
    }
}

/// The instructions of the body of a block.
#[tactic(auto, unfolding(crate::specs::Instructions::body))]
pub fn body(alloc: Global, input: &mut Input<'_>, block: BlockId) -> Result<Items<Instr>, Fault>
    ensures { Reads ((form.body block).read input.old) result input.new }
{
    many_with(alloc, input, Site::first_of(block))
}
