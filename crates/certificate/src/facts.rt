//! Facts, and the claims of a block.
ghost use Rattle.std.specs.Prelude.{◌≡◌};
ghost use Rattle.name_text.specs.Reader.{Reads};
ghost use Rattle.certificate.specs.Lines as form;
ghost use Rattle.name_text.specs.Words.{begins_with};
ghost use Rattle.certs.specs.declared.section.Claim.TheVariants.{Slot};

use crate::forms::{age, count, flag, layout_name, listed_name, new_slot, new_value, word_set};
use crate::input::{Input, WordFault};
use crate::mistake::Mistake;
use crate::naming::{Naming, global_of_word};
use crate::numbers::bits_of_word;
use certs::{Age, Claim, Fact, Family, family_of_value};
use ir_ast::{BlockId, Function, Module, SymbolId, ValueId};
use std::alloc::Global;

/// Which fact a word begins.
#[derive(Clone, Copy)]
pub enum Head {
    Number(u32),
    /// 64 bits of a pointer that may be an address outside.
    Outside,
    Reference,
    Address,
    /// None, or one that does not fit the type.
    Other,
}

fn bits_head(module: &Module, family: &Family, bits: Option<u64>) -> Head
    ensures { result ≡ form.bits_head «module».now family.now bits }
{
    if family.may_be_outside(module) && has_bits(64, bits) {
        return Head::Outside;
    }
    match family.same_bits(bits) {
        None => Head::Other,
        Some(bits) => Head::Number(bits),
    }
}

fn head_by(module: &Module, family: &Family, word: &[u8]) -> Head
    ensures { result ≡ form.head_by «module».now family.now word.now }
{
    if word == b"ref".as_slice() {
        return if family.is_reference() {
            Head::Reference
        } else {
            Head::Other
        };
    }
    if word == b"addr".as_slice() {
        return if family.is_address() {
            Head::Address
        } else {
            Head::Other
        };
    }
    bits_head(module, family, bits_of_word(word))
}

#[tactic(auto, unfolding(crate::specs::Lines::below, name_text::specs::Forms::skip))]
fn below(input: &mut Input<'_>) -> Result<Option<u64>, WordFault>
    ensures { Reads (form.below.read input.old) result input.new }
{
    if !input.begins(b"below") {
        return Ok(None);
    }
    input.skip();
    let count = count(input)?;
    Ok(Some(count))
}

/// This word and a value that the block has to list, or nothing.
#[tactic(auto, unfolding(crate::specs::Lines::listed_after, name_text::specs::Forms::skip))]
fn listed_after(
    alloc: Global,
    input: &mut Input<'_>,
    function: &Function,
    wanted: &[u8],
) -> Result<Option<ValueId>, WordFault>
    ensures { Reads ((form.listed_after function.now wanted.now).read input.old) result input.new }
{
    if !input.begins(wanted) {
        return Ok(None);
    }
    input.skip();
    let value = listed_name(alloc, input, function)?;
    Ok(Some(value))
}

#[tactic(auto, unfolding(crate::specs::Lines::number, name_text::specs::Forms::skip))]
fn number(input: &mut Input<'_>, bits: u32) -> Result<Fact, WordFault>
    ensures { Reads ((form.number bits).read input.old) result input.new }
{
    input.skip();
    let below = below(input)?;
    Ok(Fact::Number { bits, below })
}

#[tactic(auto, unfolding(crate::specs::Lines::reference, name_text::specs::Forms::skip))]
fn reference(
    alloc: Global,
    input: &mut Input<'_>,
    module: &Module,
    function: &Function,
    family: &Family,
) -> Result<Fact, WordFault>
    ensures { Reads ((form.reference «module».now function.now family.now).read input.old) result input.new }
{
    input.skip();
    let layout = layout_name(alloc, input, module, *family)?;
    let nonnull = flag(input, b"nonnull")?;
    let age = age(input)?;
    let same = listed_after(alloc, input, function, b"same")?;
    Ok(Fact::Reference {
        layout,
        nonnull,
        age,
        same,
    })
}

#[tactic(auto, unfolding(crate::specs::Lines::words_of_cell))]
fn words_of_cell(
    alloc: Global,
    input: &mut Input<'_>,
    function: &Function,
) -> Result<Fact, WordFault>
    ensures { Reads ((form.words_of_cell function.now).read input.old) result input.new }
{
    let base = listed_name(alloc, input, function)?;
    let words = word_set(input)?;
    Ok(Fact::Address { base, words })
}

/// The address of the global that is named.
#[tactic(auto, unfolding(crate::specs::Lines::global_address, name_text::specs::Forms::skip))]
fn global_address(alloc: Global, input: &mut Input<'_>, module: &Module) -> Result<Fact, WordFault>
    ensures { Reads ((form.global_address «module».now).read input.old) result input.new }
{
    match global_of_word(alloc, module, input.word())? {
        Naming::NoName => Err(WordFault::Syntax(input.left())),
        Naming::Unknown => Err(WordFault::Wrong(Mistake::UnknownName(input.left()))),
        Naming::Named(symbol) => {
            input.skip();
            Ok(Fact::GlobalAddress(SymbolId::new(symbol)))
        }
    }
}

fn begins_global(word: &[u8]) -> bool
    ensures { result ≡ begins_with 64 word.now }
{
    match word {
        [first, ..] => *first == b'@',
        [] => false,
    }
}

/// The address of a global where the sign of its name begins the word, and otherwise of words of a cell.
#[tactic(auto, unfolding(crate::specs::Lines::address, name_text::specs::Forms::skip))]
fn address(
    alloc: Global,
    input: &mut Input<'_>,
    module: &Module,
    function: &Function,
) -> Result<Fact, WordFault>
    ensures { Reads ((form.address «module».now function.now).read input.old) result input.new }
{
    input.skip();
    if begins_global(input.word()) {
        global_address(alloc, input, module)
    } else {
        words_of_cell(alloc, input, function)
    }
}

/// A fact that fits such a value.
#[tactic(auto, unfolding(crate::specs::Lines::fact_of, name_text::specs::Forms::skip))]
fn fact_of(
    alloc: Global,
    input: &mut Input<'_>,
    module: &Module,
    function: &Function,
    family: &Family,
) -> Result<Fact, WordFault>
    ensures { Reads ((form.fact_of «module».now function.now family.now).read input.old) result input.new }
{
    match head_by(module, family, input.word()) {
        Head::Number(bits) => number(input, bits),
        Head::Outside => {
            input.skip();
            let bits = 64;
            Ok(Fact::Number { bits, below: None })
        }
        Head::Reference => reference(alloc, input, module, function, family),
        Head::Address => address(alloc, input, module, function),
        Head::Other => Err(WordFault::Syntax(input.left())),
    }
}

fn has_bits(bits: u32, word: Option<u64>) -> bool
    ensures { result ≡ form.has_bits bits word }
{
    match word {
        None => false,
        Some(number) => number == bits as u64,
    }
}

fn has_age(age: Age, word: &[u8]) -> bool
    ensures { result ≡ form.has_age age word.now }
{
    match age {
        Age::Stale => word == b"stale".as_slice(),
        Age::Fresh => word == b"fresh".as_slice(),
        Age::Held => false,
    }
}

/// Whether a word is one of a fact that is given.
fn has_word(fact: &Fact, word: &[u8]) -> bool
    ensures { result ≡ form.has_word fact.now word.now }
{
    match *fact {
        Fact::Number { bits, below } => {
            has_bits(bits, bits_of_word(word)) || (below.is_some() && word == b"below".as_slice())
        }
        Fact::Reference {
            nonnull,
            age,
            same,
            ..
        } => {
            word == b"ref".as_slice()
                || (nonnull && word == b"nonnull".as_slice())
                || has_age(age, word)
                || (same.is_some() && word == b"same".as_slice())
        }
        Fact::Address { .. } | Fact::GlobalAddress(_) => word == b"addr".as_slice(),
    }
}

#[tactic(auto, unfolding(crate::specs::Lines::fact_end))]
fn fact_end(input: &mut Input<'_>, fact: &Fact) -> Result<(), WordFault>
    ensures { Reads ((form.fact_end fact.now).read input.old) result input.new }
{
    if !input.line_ends() && has_word(fact, input.word()) {
        return Err(WordFault::Wrong(Mistake::ListedTwice(input.left())));
    }
    input.line_end()
}

fn slot_has_word(nonnull: bool, holds: Option<ValueId>, word: &[u8]) -> bool
    ensures { result ≡ form.slot_has_word nonnull holds word.now }
{
    (nonnull && word == b"nonnull".as_slice()) || (holds.is_some() && word == b"holds".as_slice())
}

#[tactic(auto, unfolding(crate::specs::Lines::slot_end))]
fn slot_end(input: &mut Input<'_>, nonnull: bool, holds: Option<ValueId>) -> Result<(), WordFault>
    ensures { Reads ((form.slot_end nonnull holds).read input.old) result input.new }
{
    if !input.line_ends() && slot_has_word(nonnull, holds, input.word()) {
        return Err(WordFault::Wrong(Mistake::ListedTwice(input.left())));
    }
    input.line_end()
}

/// A claim about a value.
#[tactic(auto, unfolding(crate::specs::Lines::value_claim, crate::specs::Forms::put_value))]
fn value_claim(
    alloc: Global,
    input: &mut Input<'_>,
    module: &Module,
    function: &Function,
    block: BlockId,
) -> Result<(), WordFault>
    ensures { Reads ((form.value_claim «module».now function.now block).read input.old) result input.new }
{
    let value = new_value(alloc, input, function, block)?;
    let family = family_of_value(module, function, value);
    let fact = fact_of(alloc, input, module, function, &family)?;
    fact_end(input, &fact)?;
    input.read.put_value(block, value, &fact)?;
    Ok(())
}

/// What a claim says of a slot.
fn slot_said(slot: ValueId, nonnull: bool, holds: &Option<ValueId>) -> Claim
    ensures { result ≡ Slot slot nonnull holds.now }
{
    Claim::Slot {
        slot,
        nonnull,
        holds: *holds,
    }
}

/// A claim about a slot.
#[tactic(auto, unfolding(crate::specs::Lines::slot_claim, crate::specs::Forms::put_slot))]
fn slot_claim(
    alloc: Global,
    input: &mut Input<'_>,
    function: &Function,
    block: BlockId,
) -> Result<(), WordFault>
    ensures { Reads ((form.slot_claim function.now block).read input.old) result input.new }
{
    input.expect(b"slot")?;
    let slot = new_slot(alloc, input, function, block)?;
    let nonnull = flag(input, b"nonnull")?;
    let holds = listed_after(alloc, input, function, b"holds")?;
    slot_end(input, nonnull, holds)?;
    let line = slot_said(slot, nonnull, &holds);
    input.read.put_slot(block, slot, &line)?;
    Ok(())
}

/// A claim of a block.
#[tactic(auto, unfolding(crate::specs::Lines::line))]
pub fn line(
    alloc: Global,
    input: &mut Input<'_>,
    module: &Module,
    function: &Function,
    block: BlockId,
) -> Result<(), WordFault>
    ensures { Reads ((form.line «module».now function.now block).read input.old) result input.new }
{
    if input.begins(b"slot") {
        slot_claim(alloc, input, function, block)
    } else {
        value_claim(alloc, input, module, function, block)
    }
}
