ghost use Rattle.std.specs.Prelude.{◌≡◌, [], ◌∷◌, ◌++◌, slice_get, slice_set, OnOk, IfOk};
ghost use Rattle.layout.specs.Words.{copies};
ghost use Rattle.layout.specs.declared.survey.SizeMark.TheVariants.{New};
ghost use Rattle.layout.specs.Survey.{mark_at, fields_at, IsWithin, IsReady, IsSurvey, IsAdvance, IsSettling, IsSettled, TurnFits, SpansFit, marks_after, fields_after, stack_after, name_turn, array_turn, repeat_turn, struct_turn, large_turn, known_turn, join_turn, turn_at};

use ir_ast::{IrType, Module, TypeId};
use items::Items;
use std::alloc::{AllocError, Global};
use types::body_named;

/// How many words a cell may have.
const WORD_LIMIT: u32 = 64;

pub const NO_FIELDS: Span = Span { start: 0, count: 0 };

/// Some scalar fields, one after another.
#[derive(Clone, Copy)]
pub struct Span {
    pub start: usize,
    pub count: usize,
}

/// What is known of a type.
#[derive(Clone, Copy)]
pub enum SizeMark {
    /// Nothing so far.
    New,
    /// It waits for a part of it.
    Open,
    /// It holds itself, or a type that does.
    Endless,
    /// It has more than 64 scalar fields.
    Large,
    /// Where its scalar fields are.
    Known(Span),
}

/// What comes next at a type.
#[derive(Clone, Copy)]
pub enum SizeTurn {
    /// A part of it has to be known first.
    Wait(TypeId),
    Done(SizeMark),
    /// It is a scalar.
    Alone,
    /// Its fields are those of two parts.
    Join(Span, Span),
    /// Its fields are those of a part, this number of times.
    Repeat(u64, Span),
}

/// The scalar fields of the types of a table.
#[derive(Drop)]
pub struct Survey {
    pub marks: Items<SizeMark>,
    pub fields: Vec<TypeId>,
}

impl Survey {
    pub fn mark(&self, written: TypeId) -> SizeMark
        ensures { result ≡ mark_at self.now.marks written }
    {
        match self.marks.get(written.number() as usize) {
            Some(mark) => *mark,
            None => SizeMark::Endless,
        }
    }

    fn put(&mut self, written: TypeId, mark: SizeMark)
        ensures marks { self.new.marks ≡ slice_set self.old.marks written mark }
        ensures fields { self.new.fields.items ≡ self.old.fields.items }
    {
        let at = written.number() as usize;
        if at < self.marks.len() {
            self.marks.set(at, mark);
        }
    }

    /// What comes next at a type.
    #[tactic(auto, using(crate::proofs::Turns::turn_right))]
    fn turn(&self, module: &Module, written: TypeId) -> SizeTurn
        requires ready { IsReady «module».now self.now.marks self.now.fields.items written }
        ensures right { TurnFits «module».now self.now.marks self.now.fields.items written result }
        ensures turn { result ≡ turn_at «module».now self.now.marks (slice_get «module».now.types written) }
    {
        let Some(kind) = module.types.get(written) else {
            return SizeTurn::Done(SizeMark::Endless);
        };
        match kind {
            IrType::Array { length, part } => array_turn(length, part, self.mark(part)),
            IrType::EmptyStruct => SizeTurn::Done(SizeMark::Known(NO_FIELDS)),
            IrType::Struct { first, rest } => {
                struct_turn(first, rest, self.mark(first), self.mark(rest))
            }
            IrType::Named(name) => match body_named(module, name) {
                Some(body) => name_turn(body, self.mark(body)),
                None => SizeTurn::Alone,
            },
            _ => SizeTurn::Alone,
        }
    }

    /// One turn at the type that was on top of the stack.
    fn advance(
        &mut self,
        module: &Module,
        stack: &mut Vec<TypeId>,
        top: TypeId,
    ) -> Result<(), AllocError>
        requires survey { IsSurvey «module».now self.old.marks self.old.fields.items (stack.old.items ++ top ∷ []) }
        ensures { OnOk result (IsAdvance «module».now self.old.marks self.old.fields.items (stack.old.items ++ top ∷ []) self.new.marks self.new.fields.items stack.new.items) }
    {
        let turn = self.turn(module, top);
        self.take(stack, top, turn)?;
        Ok(())
    }

    /// What is known of the types of a module, once each is settled.
    pub fn of(alloc: Global, module: &Module) -> Result<Survey, AllocError>
        ensures { IfOk result (λ survey. IsSettled «module».now survey.marks survey.fields.items) }
    {
        let count = module.types.count();
        let marks = vec![in alloc; SizeMark::New; count]?;
        let mut survey = Survey {
            marks: Items::from_vec(marks),
            fields: Vec::new(alloc),
        };
        for number in 0..count {
            survey.meet(alloc, module, TypeId::new(number as u32))?;
        }
        Ok(survey)
    }

    /// Settles a type, if it wasn't met so far.
    fn meet(&mut self, alloc: Global, module: &Module, written: TypeId) -> Result<(), AllocError>
        requires survey { IsSurvey «module».now self.old.marks self.old.fields.items [] }
        ensures { OnOk result (IsSettling «module».now self.old.marks written self.new.marks self.new.fields.items []) }
    {
        match self.mark(written) {
            SizeMark::New => self.settle(alloc, module, written)?,
            _ => {}
        }
        Ok(())
    }

    /// Settles a type, and with it all types in it.
    fn settle(&mut self, alloc: Global, module: &Module, written: TypeId) -> Result<(), AllocError>
        requires survey { IsSurvey «module».now self.old.marks self.old.fields.items [] }
        requires is_new { mark_at self.old.marks written ≡ New }
        ensures { OnOk result (IsSettling «module».now self.old.marks written self.new.marks self.new.fields.items []) }
    {
        let mut stack = Vec::new(alloc);
        stack.push(written)?;
        self.put(written, SizeMark::Open);
        while let Some(top) = stack.pop() {
            self.advance(module, &mut stack, top)?;
        }
        Ok(())
    }

    /// What a turn does at the type that was on top of the stack.
    fn take(
        &mut self,
        stack: &mut Vec<TypeId>,
        top: TypeId,
        turn: SizeTurn,
    ) -> Result<(), AllocError>
        requires spans { SpansFit self.old.fields.items turn }
        ensures marks { OnOk result (self.new.marks ≡ marks_after turn self.old.marks self.old.fields.items top) }
        ensures fields { OnOk result (self.new.fields.items ≡ fields_after turn self.old.fields.items top) }
        ensures stack { OnOk result (stack.new.items ≡ stack_after turn stack.old.items top) }
    {
        let start = self.fields.len();
        match turn {
            SizeTurn::Wait(part) => {
                stack.push(top)?;
                stack.push(part)?;
                self.put(part, SizeMark::Open);
            }
            SizeTurn::Done(mark) => self.put(top, mark),
            SizeTurn::Alone => {
                self.fields.push(top)?;
                self.put(top, SizeMark::Known(Span { start, count: 1 }));
            }
            SizeTurn::Join(one, other) => {
                copy(&mut self.fields, one)?;
                copy(&mut self.fields, other)?;
                let count = one.count + other.count;
                self.put(top, SizeMark::Known(Span { start, count }));
            }
            SizeTurn::Repeat(times, span) => {
                repeat(&mut self.fields, times, span)?;
                let count = times as usize * span.count;
                self.put(top, SizeMark::Known(Span { start, count }));
            }
        }
        Ok(())
    }
}

/// The fields at a span once more, after the others.
fn copy(fields: &mut Vec<TypeId>, span: Span) -> Result<(), AllocError>
    requires { IsWithin fields.old.items span }
    ensures { OnOk result (fields.new.items ≡ fields.old.items ++ fields_at fields.old.items span) }
{
    fields.extend_from_within(span.start..span.start + span.count)
}

/// The fields at a span `times` times more, after the others.
fn repeat(fields: &mut Vec<TypeId>, times: u64, span: Span) -> Result<(), AllocError>
    requires { IsWithin fields.old.items span }
    ensures { OnOk result (fields.new.items ≡ fields.old.items ++ copies times (fields_at fields.old.items span)) }
{
    let mut left = times;
    while left > 0 {
        copy(fields, span)?;
        left -= 1;
    }
    Ok(())
}

/// The turn at a name, by what is known of its body.
fn name_turn(body: TypeId, mark: SizeMark) -> SizeTurn
    ensures { result ≡ name_turn body mark }
{
    match mark {
        SizeMark::New => SizeTurn::Wait(body),
        SizeMark::Open | SizeMark::Endless => SizeTurn::Done(SizeMark::Endless),
        SizeMark::Large => SizeTurn::Done(SizeMark::Large),
        SizeMark::Known(span) => SizeTurn::Done(SizeMark::Known(span)),
    }
}

/// The turn at an array, by what is known of its elements' type.
fn array_turn(length: u64, part: TypeId, mark: SizeMark) -> SizeTurn
    ensures { result ≡ array_turn length part mark }
{
    match mark {
        SizeMark::New => SizeTurn::Wait(part),
        SizeMark::Open | SizeMark::Endless => SizeTurn::Done(SizeMark::Endless),
        SizeMark::Large => {
            if length == 0 {
                SizeTurn::Done(SizeMark::Known(NO_FIELDS))
            } else {
                SizeTurn::Done(SizeMark::Large)
            }
        }
        SizeMark::Known(span) => repeat_turn(length, span),
    }
}

fn repeat_turn(length: u64, span: Span) -> SizeTurn
    ensures { result ≡ repeat_turn length span }
{
    let count = u128::from(length) * span.count as u128;
    if count > u128::from(WORD_LIMIT) {
        SizeTurn::Done(SizeMark::Large)
    } else if count == 0 {
        SizeTurn::Done(SizeMark::Known(NO_FIELDS))
    } else if length == 1 {
        SizeTurn::Done(SizeMark::Known(span))
    } else {
        SizeTurn::Repeat(length, span)
    }
}

/// The turn at a struct, by what is known of its first field and of the others.
fn struct_turn(first: TypeId, rest: TypeId, of_first: SizeMark, of_rest: SizeMark) -> SizeTurn
    ensures { result ≡ struct_turn first rest of_first of_rest }
{
    match of_first {
        SizeMark::New => SizeTurn::Wait(first),
        SizeMark::Open | SizeMark::Endless => SizeTurn::Done(SizeMark::Endless),
        SizeMark::Large => large_turn(rest, of_rest),
        SizeMark::Known(one) => known_turn(one, rest, of_rest),
    }
}

/// The turn at a struct with a large first field, by what is known of the others.
fn large_turn(rest: TypeId, of_rest: SizeMark) -> SizeTurn
    ensures { result ≡ large_turn rest of_rest }
{
    match of_rest {
        SizeMark::New => SizeTurn::Wait(rest),
        SizeMark::Open | SizeMark::Endless => SizeTurn::Done(SizeMark::Endless),
        SizeMark::Large | SizeMark::Known(_) => SizeTurn::Done(SizeMark::Large),
    }
}

/// The turn at a struct whose first field is known, by what is known of the others.
fn known_turn(one: Span, rest: TypeId, of_rest: SizeMark) -> SizeTurn
    ensures { result ≡ known_turn one rest of_rest }
{
    match of_rest {
        SizeMark::New => SizeTurn::Wait(rest),
        SizeMark::Open | SizeMark::Endless => SizeTurn::Done(SizeMark::Endless),
        SizeMark::Large => SizeTurn::Done(SizeMark::Large),
        SizeMark::Known(other) => join_turn(one, other),
    }
}

fn join_turn(one: Span, other: Span) -> SizeTurn
    ensures { result ≡ join_turn one other }
{
    if one.count as u128 + other.count as u128 > u128::from(WORD_LIMIT) {
        SizeTurn::Done(SizeMark::Large)
    } else if other.count == 0 {
        SizeTurn::Done(SizeMark::Known(one))
    } else if one.count == 0 {
        SizeTurn::Done(SizeMark::Known(other))
    } else {
        SizeTurn::Join(one, other)
    }
}
