use crate::calls::Call;
use crate::casts::Cast;
use crate::choices::Choice;
use crate::elements::Element;
use crate::memory::MemoryOp;
use crate::numbers::NumberOp;

/// What an instruction of a block's body does, with the types that it writes.
#[derive(Drop)]
pub enum Op {
    Number(NumberOp),
    Memory(MemoryOp),
    Element(Element),
    Cast(Cast),
    Choice(Choice),
    Call(Call),
}
