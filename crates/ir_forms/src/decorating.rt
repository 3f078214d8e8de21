//! Decorations: what is written beside the parts of a form and has no effect on the module.
ghost use Rattle.std.specs.Prelude.{◌≡◌, Ok};
ghost use Rattle.ir_forms.specs.Input.{Reads};
ghost use Rattle.ir_forms.specs.Decorations as form;

use crate::fault::Fault;
use crate::following::{Following, many_with};
use crate::input::Input;
use crate::starts::{begins_any_type, is_flag_of};
use ir_tokens::Kind;
use std::alloc::Global;

/// A token, whatever its kind, but not the end of the text.
#[tactic(auto, unfolding(crate::specs::Decorations::any_token))]
pub fn any_token(input: &mut Input<'_>) -> Result<Kind, Fault>
    ensures { Reads (form.any_token.read input.old) result input.new }
{
    if input.sees(Kind::End) {
        return Err(input.refuse(false));
    }
    let kind = input.kind();
    input.skip();
    Ok(kind)
}

// ---- what follows a word

/// How many round brackets are open.
#[derive(Clone, Copy)]
pub struct Brackets {
    pub depth: u32,
}

impl Following for Brackets {
    ghost use Rattle.ir_forms.specs.Decorations.{in_brackets, are_closed, after_bracket};

    type Item = Kind;

    ghost form = { λ b. (in_brackets b).read };

    ghost ends = { are_closed };

    ghost next = { after_bracket };

    fn ends(&self, _input: &Input<'_>) -> bool {
        self.depth == 0
    }

    fn read(&mut self, _alloc: Global, input: &mut Input<'_>) -> Result<Kind, Fault> {
        if self.depth >= u32::MAX {
            return Err(input.limit());
        }
        let kind = any_token(input)?;
        match kind {
            Kind::OpenRound => self.depth += 1,
            Kind::CloseRound => self.depth = self.depth.saturating_sub(1),
            _ => {}
        }
        Ok(kind)
    }
}

/// The tokens after a round bracket, up to the one that closes it.
#[tactic(auto, unfolding(crate::specs::Decorations::bracketed, crate::specs::Decorations::past_brackets))]
pub fn past_brackets(alloc: Global, input: &mut Input<'_>) -> Result<(), Fault>
    ensures { Reads (form.past_brackets.read input.old) result input.new }
{
    many_with(alloc, input, Brackets { depth: 1 })?;
    Ok(())
}

/// Which part of a form the decorations are written beside.
#[derive(Clone, Copy)]
pub enum Spot {
    /// A global, after its `=`.
    Global,
    /// A global, after all else.
    GlobalEnd,
    /// A declared function, after `declare`.
    Declare,
    /// The result of a function or a call, before its type.
    Result,
    /// A parameter, after its type.
    Parameter,
    /// An argument, after its type.
    Argument,
    /// A call, after its arguments.
    Call,
    /// A defined function, after its parameters.
    Defined,
    /// A declared function, after its parameters.
    Declared,
}

fn ends_operand(kind: Kind) -> bool
    ensures { result ≡ form.ends_operand kind }
{
    matches!(kind, Kind::Comma | Kind::CloseRound)
}

/// Whether a number after a word is the operand of an argument.
fn is_operand(input: &Input<'_>, spot: Spot) -> bool
    ensures { result ≡ form.is_operand spot input.now }
{
    matches!(spot, Spot::Argument)
        && (ends_operand(input.cursor.kind_after()) || input.wide && input.cursor.sees_float())
}

/// Round brackets, a quoted text or a number after a word, or nothing.
#[tactic(auto, unfolding(crate::specs::Decorations::word_end))]
fn word_end(alloc: Global, input: &mut Input<'_>, spot: Spot) -> Result<(), Fault>
    ensures { Reads ((form.word_end spot).read input.old) result input.new }
{
    match input.kind() {
        Kind::OpenRound => {
            input.skip();
            past_brackets(alloc, input)
        }
        Kind::Quoted => {
            input.skip();
            Ok(())
        }
        Kind::Number => {
            if !is_operand(input, spot) {
                input.skip();
            }
            Ok(())
        }
        _ => Ok(()),
    }
}

// ---- decorations of a part

fn may_have_word(spot: Spot) -> bool
    ensures { result ≡ form.may_have_word spot }
{
    !matches!(spot, Spot::GlobalEnd | Spot::Declare)
}

fn may_be_external(spot: Spot) -> bool
    ensures { result ≡ form.may_be_external spot }
{
    may_have_word(spot) && !matches!(spot, Spot::Global)
}

fn ends_head(spot: Spot) -> bool
    ensures { result ≡ form.ends_head spot }
{
    matches!(spot, Spot::Defined | Spot::Declared)
}

fn may_have_group(spot: Spot) -> bool
    ensures { result ≡ form.may_have_group spot }
{
    ends_head(spot) || matches!(spot, Spot::Call | Spot::GlobalEnd)
}

fn may_have_metadata(spot: Spot, is_first: bool) -> bool
    ensures { result ≡ form.may_have_metadata spot is_first }
{
    match spot {
        Spot::Declare | Spot::Defined => true,
        Spot::Declared => !is_first,
        _ => false,
    }
}

/// Whether a token of this kind is a decoration there, which is the first one on its line or not.
fn begins_decoration(spot: Spot, is_first: bool, kind: Kind) -> bool
    ensures { result ≡ form.begins_decoration spot is_first kind }
{
    match kind {
        Kind::LowercaseWord | Kind::Align => may_have_word(spot),
        Kind::External | Kind::ExternWeak => may_be_external(spot),
        Kind::Comdat => ends_head(spot),
        Kind::AttributeGroup => may_have_group(spot),
        Kind::MetadataName => may_have_metadata(spot, is_first),
        _ => false,
    }
}

/// `!name !n`
fn metadata(input: &mut Input<'_>) -> Result<(), Fault>
    ensures { Reads (form.metadata.read input.old) result input.new }
{
    input.skip();
    input.expect(Kind::MetadataNumber)
}

/// A decoration of this part.
#[tactic(auto, unfolding(crate::specs::Decorations::decoration))]
fn decoration(alloc: Global, input: &mut Input<'_>, spot: Spot) -> Result<(), Fault>
    ensures { Reads ((form.decoration spot).read input.old) result input.new }
{
    match input.kind() {
        Kind::LowercaseWord | Kind::Align | Kind::External | Kind::ExternWeak | Kind::Comdat => {
            input.skip();
            word_end(alloc, input, spot)
        }
        Kind::AttributeGroup => {
            input.skip();
            Ok(())
        }
        Kind::MetadataName => metadata(input),
        _ => Err(input.refuse(false)),
    }
}

impl Following for Spot {
    ghost use Rattle.ir_forms.specs.Decorations.{decoration, at_no_decoration, same_spot};

    type Item = ();

    ghost form = { λ s. (decoration s).read };

    ghost ends = { at_no_decoration };

    ghost next = { same_spot };

    fn ends(&self, input: &Input<'_>) -> bool {
        !begins_decoration(*self, input.cursor.begins_line(), input.kind())
    }

    fn read(&mut self, alloc: Global, input: &mut Input<'_>) -> Result<(), Fault> {
        decoration(alloc, input, *self)
    }
}

/// The decorations of this part.
#[tactic(auto, unfolding(crate::specs::Decorations::decorations))]
pub fn decorations(alloc: Global, input: &mut Input<'_>, spot: Spot) -> Result<(), Fault>
    ensures { Reads ((form.decorations spot).read input.old) result input.new }
{
    if begins_decoration(spot, input.cursor.begins_line(), input.kind()) {
        many_with(alloc, input, spot)?;
    }
    Ok(())
}

// ---- words that are written once

/// A word, if it is there.
#[tactic(auto, unfolding(crate::specs::Decorations::optional))]
pub fn optional(input: &mut Input<'_>, kind: Kind)
    ensures { (form.optional kind).read input.old ≡ Ok (tt, input.new) }
{
    if input.sees(kind) {
        input.skip();
    }
}

// ---- the word of an instruction

/// The flags of the instruction with this word.
#[derive(Clone, Copy)]
pub struct FlagsAfter {
    pub word: Kind,
}

/// A flag of the instruction with this word.
#[tactic(auto, unfolding(crate::specs::Decorations::flag))]
fn flag(input: &mut Input<'_>, word: Kind) -> Result<(), Fault>
    ensures { Reads ((form.flag word).read input.old) result input.new }
{
    if !is_flag_of(word, input.kind()) {
        return Err(input.refuse(false));
    }
    input.skip();
    Ok(())
}

impl Following for FlagsAfter {
    ghost use Rattle.ir_forms.specs.Decorations.{flag, at_no_flag, same_flags};

    type Item = ();

    ghost form = { λ f. (flag f.word).read };

    ghost ends = { at_no_flag };

    ghost next = { same_flags };

    fn ends(&self, input: &Input<'_>) -> bool {
        !is_flag_of(self.word, input.kind())
    }

    fn read(&mut self, _alloc: Global, input: &mut Input<'_>) -> Result<(), Fault> {
        flag(input, self.word)
    }
}

/// The flags of the instruction with this word.
#[tactic(auto, unfolding(crate::specs::Decorations::flags))]
fn flags(alloc: Global, input: &mut Input<'_>, word: Kind) -> Result<(), Fault>
    ensures { Reads ((form.flags word).read input.old) result input.new }
{
    if is_flag_of(word, input.kind()) {
        many_with(alloc, input, FlagsAfter { word })?;
    }
    Ok(())
}

/// The word of an instruction, with the flags after it.
#[tactic(auto, unfolding(crate::specs::Decorations::flagged_word))]
pub fn flagged_word(alloc: Global, input: &mut Input<'_>) -> Result<(), Fault>
    ensures { Reads (form.flagged_word.read input.old) result input.new }
{
    let word = input.kind();
    input.skip();
    flags(alloc, input, word)
}

// ---- after an instruction or a global

/// Which decorations may follow an instruction or a global.
#[derive(Clone, Copy)]
pub enum Trail {
    /// Those of an alloca, whose count is left out.
    Slot,
    /// Those of a load or a store.
    Memory,
    /// Those of a global, which tell where it is placed.
    Global,
    /// Those of another instruction.
    Other,
}

fn may_align(trail: Trail) -> bool
    ensures { result ≡ form.may_align trail }
{
    matches!(trail, Trail::Slot | Trail::Memory | Trail::Global)
}

fn begins_count(trail: Trail, kind: Kind) -> bool
    ensures { result ≡ form.begins_count trail kind }
{
    matches!(trail, Trail::Slot) && begins_any_type(kind)
}

/// `align n`, where it is allowed.
fn aligned(input: &mut Input<'_>, may_stand: bool) -> Result<(), Fault>
    ensures { Reads ((form.aligned may_stand).read input.old) result input.new }
{
    if !may_stand {
        return Err(input.refuse(false));
    }
    input.skip();
    input.expect(Kind::Number)
}

/// Where a global is placed: a word with what belongs to it.
fn placed(alloc: Global, input: &mut Input<'_>, may_stand: bool) -> Result<(), Fault>
    ensures { Reads ((form.placed may_stand).read input.old) result input.new }
{
    if !may_stand {
        return Err(input.refuse(false));
    }
    input.skip();
    word_end(alloc, input, Spot::Global)
}

/// `, align n`, `, !name !n`, or `, comdat` and the like after a global.
#[tactic(auto, unfolding(crate::specs::Decorations::comma_trail))]
fn comma_trail(alloc: Global, input: &mut Input<'_>, trail: Trail) -> Result<(), Fault>
    ensures { Reads ((form.comma_trail trail).read input.old) result input.new }
{
    input.expect(Kind::Comma)?;
    match input.kind() {
        Kind::MetadataName => metadata(input),
        Kind::Align => aligned(input, may_align(trail)),
        Kind::Comdat | Kind::LowercaseWord => placed(alloc, input, matches!(trail, Trail::Global)),
        kind => Err(input.refuse(begins_count(trail, kind))),
    }
}

impl Following for Trail {
    ghost use Rattle.ir_forms.specs.Decorations.{comma_trail, at_no_trail, same_trail};

    type Item = ();

    ghost form = { λ t. (comma_trail t).read };

    ghost ends = { at_no_trail };

    ghost next = { same_trail };

    fn ends(&self, input: &Input<'_>) -> bool {
        !input.sees(Kind::Comma)
    }

    fn read(&mut self, alloc: Global, input: &mut Input<'_>) -> Result<(), Fault> {
        comma_trail(alloc, input, *self)
    }
}

/// The decorations after an instruction or a global.
#[tactic(auto, unfolding(crate::specs::Decorations::trailing))]
pub fn trailing(alloc: Global, input: &mut Input<'_>, trail: Trail) -> Result<(), Fault>
    ensures { Reads ((form.trailing trail).read input.old) result input.new }
{
    if input.sees(Kind::Comma) {
        many_with(alloc, input, trail)?;
    }
    Ok(())
}
