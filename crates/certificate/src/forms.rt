//! Words, names and numbers of a certificate's text.
ghost use Rattle.std.specs.Prelude.{◌≡◌, slice_get, unwrap_or, false};
ghost use Rattle.certificate.specs.Drafts.{is_in};
ghost use Rattle.certificate.specs.Forms as form;
ghost use Rattle.name_text.specs.Reader.{Reads};

use crate::input::{Input, WordFault};
use crate::mistake::Mistake;
use crate::naming::{Naming, block_of_word, function_of_word, layout_of_word, value_of_word};
use crate::numbers::{count_of_word, words_of_word};
use certs::{Age, Family, Mark};
use ir_ast::{BlockId, FuncId, Function, Module, ValueId};
use pools::{LayoutId, WordSet};
use std::alloc::Global;

fn mark_of_word(word: &[u8]) -> Option<Mark>
    ensures { result ≡ form.mark_of_word word.now }
{
    if word == b"may".as_slice() {
        Some(Mark::May)
    } else if word == b"none".as_slice() {
        Some(Mark::None)
    } else {
        None
    }
}

fn age_of_word(word: &[u8]) -> Option<Age>
    ensures { result ≡ form.age_of_word word.now }
{
    if word == b"stale".as_slice() {
        Some(Age::Stale)
    } else if word == b"fresh".as_slice() {
        Some(Age::Fresh)
    } else {
        None
    }
}

fn is_parameter(function: &Function, value: ValueId) -> bool
    ensures { result ≡ form.is_parameter function.now value }
{
    match function.parameters.get(value.number() as usize) {
        Some(parameter) => parameter.value == value,
        None => false,
    }
}

/// This word or not.
#[tactic(auto, unfolding(crate::specs::Forms::flag, name_text::specs::Forms::skip))]
pub fn flag(input: &mut Input<'_>, wanted: &[u8]) -> Result<bool, WordFault>
    ensures { Reads ((form.flag wanted.now).read input.old) result input.new }
{
    let begins = input.begins(wanted);
    if begins {
        input.skip();
    }
    Ok(begins)
}

/// A number from 1.
#[tactic(auto, unfolding(crate::specs::Forms::count, name_text::specs::Forms::skip))]
pub fn count(input: &mut Input<'_>) -> Result<u64, WordFault>
    ensures { Reads (form.count.read input.old) result input.new }
{
    match count_of_word(input.word()) {
        None => Err(WordFault::Syntax(input.left())),
        Some(count) => {
            input.skip();
            Ok(count)
        }
    }
}

/// Some words of a cell.
#[tactic(auto, unfolding(crate::specs::Forms::word_set, name_text::specs::Forms::skip))]
pub fn word_set(input: &mut Input<'_>) -> Result<WordSet, WordFault>
    ensures { Reads (form.word_set.read input.old) result input.new }
{
    match words_of_word(input.word()) {
        None => Err(WordFault::Syntax(input.left())),
        Some(words) => {
            input.skip();
            Ok(words)
        }
    }
}

/// `may` or `none`.
#[tactic(auto, unfolding(crate::specs::Forms::marked, name_text::specs::Forms::skip))]
pub fn mark(input: &mut Input<'_>) -> Result<Mark, WordFault>
    ensures { Reads (form.marked.read input.old) result input.new }
{
    match mark_of_word(input.word()) {
        None => Err(WordFault::Syntax(input.left())),
        Some(mark) => {
            input.skip();
            Ok(mark)
        }
    }
}

/// `stale`, `fresh` or neither.
#[tactic(auto, unfolding(crate::specs::Forms::age, name_text::specs::Forms::skip))]
pub fn age(input: &mut Input<'_>) -> Result<Age, WordFault>
    ensures { Reads (form.age.read input.old) result input.new }
{
    match age_of_word(input.word()) {
        None => Ok(Age::Held),
        Some(age) => {
            input.skip();
            Ok(age)
        }
    }
}

/// The name of a defined function that has no section so far.
#[tactic(auto, unfolding(crate::specs::Forms::new_function, name_text::specs::Forms::skip))]
pub fn new_function(
    alloc: Global,
    input: &mut Input<'_>,
    module: &Module,
) -> Result<FuncId, WordFault>
    ensures { Reads ((form.new_function «module».now).read input.old) result input.new }
{
    match function_of_word(alloc, module, input.word())? {
        Naming::NoName => Err(WordFault::Syntax(input.left())),
        Naming::Unknown => Err(WordFault::Wrong(Mistake::UnknownName(input.left()))),
        Naming::Named(function) => match input.read.sections().get(function as usize) {
            None => Err(WordFault::Wrong(Mistake::UnknownName(input.left()))),
            Some(Some(_)) => Err(WordFault::Wrong(Mistake::ListedTwice(input.left()))),
            Some(None) => {
                input.skip();
                Ok(FuncId::new(function))
            }
        },
    }
}

/// The name of a parameter of which nothing is promised so far.
#[tactic(auto, unfolding(crate::specs::Forms::new_parameter, name_text::specs::Forms::skip))]
pub fn new_parameter(
    alloc: Global,
    input: &mut Input<'_>,
    function: &Function,
) -> Result<ValueId, WordFault>
    ensures { Reads ((form.new_parameter function.now).read input.old) result input.new }
{
    match value_of_word(alloc, function, input.word())? {
        Naming::NoName => Err(WordFault::Syntax(input.left())),
        Naming::Unknown => Err(WordFault::Wrong(Mistake::UnknownName(input.left()))),
        Naming::Named(value) => {
            if !is_parameter(function, ValueId::new(value)) {
                return Err(WordFault::Wrong(Mistake::UnknownName(input.left())));
            }
            match input.read.draft().parameters.get(value as usize) {
                None => Err(WordFault::Wrong(Mistake::UnknownName(input.left()))),
                Some(Some(_)) => Err(WordFault::Wrong(Mistake::ListedTwice(input.left()))),
                Some(None) => {
                    input.skip();
                    Ok(ValueId::new(value))
                }
            }
        }
    }
}

/// The name of a block, not the entry, whose claims did not come so far.
#[tactic(auto, unfolding(crate::specs::Forms::new_block, name_text::specs::Forms::skip))]
pub fn new_block(
    alloc: Global,
    input: &mut Input<'_>,
    function: &Function,
) -> Result<BlockId, WordFault>
    ensures { Reads ((form.new_block function.now).read input.old) result input.new }
{
    match block_of_word(alloc, function, input.word())? {
        Naming::NoName => Err(WordFault::Syntax(input.left())),
        Naming::Unknown => Err(WordFault::Wrong(Mistake::UnknownName(input.left()))),
        Naming::Named(block) => match input.read.draft().given.get(block as usize) {
            None => Err(WordFault::Wrong(Mistake::UnknownName(input.left()))),
            Some(true) => Err(WordFault::Wrong(Mistake::ListedTwice(input.left()))),
            Some(false) => {
                input.skip();
                Ok(BlockId::new(block))
            }
        },
    }
}

fn lists(input: &Input<'_>, block: BlockId, value: ValueId) -> bool
    ensures { result ≡ is_in block (slice_get input.now.read.draft.values value) }
{
    match input.read.draft().values.get(value.number() as usize) {
        Some(Some(last)) => *last == block,
        _ => false,
    }
}

fn lists_slot(input: &Input<'_>, block: BlockId, slot: ValueId) -> bool
    ensures { result ≡ is_in block (slice_get input.now.read.draft.slots slot) }
{
    match input.read.draft().slots.get(slot.number() as usize) {
        Some(Some(last)) => *last == block,
        _ => false,
    }
}

fn is_root(input: &Input<'_>, slot: ValueId) -> bool
    ensures { result ≡ unwrap_or (slice_get input.now.read.draft.roots slot) false }
{
    match input.read.draft().roots.get(slot.number() as usize) {
        Some(is_root) => *is_root,
        None => false,
    }
}

/// The name of a value that the block does not list so far.
#[tactic(auto, unfolding(crate::specs::Forms::new_value, name_text::specs::Forms::skip))]
pub fn new_value(
    alloc: Global,
    input: &mut Input<'_>,
    function: &Function,
    block: BlockId,
) -> Result<ValueId, WordFault>
    ensures { Reads ((form.new_value function.now block).read input.old) result input.new }
{
    match value_of_word(alloc, function, input.word())? {
        Naming::NoName => Err(WordFault::Syntax(input.left())),
        Naming::Unknown => Err(WordFault::Wrong(Mistake::UnknownName(input.left()))),
        Naming::Named(number) => {
            let value = ValueId::new(number);
            if lists(input, block, value) {
                return Err(WordFault::Wrong(Mistake::ListedTwice(input.left())));
            }
            input.skip();
            Ok(value)
        }
    }
}

/// The name of a root slot that the block does not list so far.
#[tactic(auto, unfolding(crate::specs::Forms::new_slot, name_text::specs::Forms::skip))]
pub fn new_slot(
    alloc: Global,
    input: &mut Input<'_>,
    function: &Function,
    block: BlockId,
) -> Result<ValueId, WordFault>
    ensures { Reads ((form.new_slot function.now block).read input.old) result input.new }
{
    match value_of_word(alloc, function, input.word())? {
        Naming::NoName => Err(WordFault::Syntax(input.left())),
        Naming::Unknown => Err(WordFault::Wrong(Mistake::UnknownName(input.left()))),
        Naming::Named(number) => {
            let slot = ValueId::new(number);
            if !is_root(input, slot) {
                return Err(WordFault::Wrong(Mistake::UnknownName(input.left())));
            }
            if lists_slot(input, block, slot) {
                return Err(WordFault::Wrong(Mistake::ListedTwice(input.left())));
            }
            input.skip();
            Ok(slot)
        }
    }
}

/// The name of a value that the block has to list.
#[tactic(auto, unfolding(crate::specs::Forms::listed_name, crate::specs::Forms::want, name_text::specs::Forms::skip))]
pub fn listed_name(
    alloc: Global,
    input: &mut Input<'_>,
    function: &Function,
) -> Result<ValueId, WordFault>
    ensures { Reads ((form.listed_name function.now).read input.old) result input.new }
{
    match value_of_word(alloc, function, input.word())? {
        Naming::NoName => Err(WordFault::Syntax(input.left())),
        Naming::Unknown => Err(WordFault::Wrong(Mistake::UnknownName(input.left()))),
        Naming::Named(number) => {
            let value = ValueId::new(number);
            let left = input.left();
            input.read.want(value, left)?;
            input.skip();
            Ok(value)
        }
    }
}

/// A layout to whose cells such a value may refer.
#[tactic(auto, unfolding(crate::specs::Forms::layout_name, name_text::specs::Forms::skip))]
pub fn layout_name(
    alloc: Global,
    input: &mut Input<'_>,
    module: &Module,
    family: Family,
) -> Result<LayoutId, WordFault>
    ensures { Reads ((form.layout_name «module».now family).read input.old) result input.new }
{
    match layout_of_word(alloc, module, input.word())? {
        Naming::NoName => Err(WordFault::Syntax(input.left())),
        Naming::Unknown => Err(WordFault::Wrong(Mistake::UnknownName(input.left()))),
        Naming::Named(number) => {
            let layout = LayoutId::new(number);
            if !family.refers_to(layout) {
                return Err(WordFault::Syntax(input.left()));
            }
            input.skip();
            Ok(layout)
        }
    }
}
