//! The text of the claims of certificates.
ghost use Rattle.std.specs.Prelude.{◌≡◌, ◌++◌, OnOk, IfOk, drop, slice_get};
ghost use Rattle.std.specs.Option.{option_copied};
ghost use Rattle.certificate.specs.Print as spec;

use certs::{Age, Certs, Claim, Fact};
use ir_ast::{BlockId, FuncId, Function, Module, ValueId};
use name_text::{Blank, put_global, put_layout, put_local, put_number};
use pools::WordSet;
use std::alloc::{AllocError, Global};

/// A word that may be there.
pub(crate) fn put_if(out: &mut Vec<u8>, stands: bool, word: &[u8]) -> Result<(), AllocError>
    ensures { OnOk result (out.new.items ≡ out.old.items ++ spec.word_if stands word.now) }
{
    if stands {
        out.extend_from_slice(word)
    } else {
        Ok(())
    }
}

pub(crate) fn put_below(
    alloc: Global,
    out: &mut Vec<u8>,
    below: Option<u64>,
) -> Result<(), AllocError>
    ensures { OnOk result (out.new.items ≡ out.old.items ++ spec.below_text below) }
{
    match below {
        None => Ok(()),
        Some(number) => {
            out.extend_from_slice(b" below ")?;
            put_number(alloc, out, number)
        }
    }
}

/// A word and a value, where there is one.
fn put_value(
    out: &mut Vec<u8>,
    function: &Function,
    word: &[u8],
    value: Option<ValueId>,
) -> Result<(), AllocError>
    ensures { OnOk result (out.new.items ≡ out.old.items ++ spec.value_text function.now word.now value) }
{
    match value {
        None => Ok(()),
        Some(value) => {
            out.extend_from_slice(word)?;
            put_local(out, &function.locals, value, Blank::Kept)
        }
    }
}

fn put_age(out: &mut Vec<u8>, age: Age) -> Result<(), AllocError>
    ensures { OnOk result (out.new.items ≡ out.old.items ++ spec.age_text age) }
{
    match age {
        Age::Fresh => out.extend_from_slice(b" fresh"),
        Age::Held => Ok(()),
        Age::Stale => out.extend_from_slice(b" stale"),
    }
}

fn put_listed(
    alloc: Global,
    out: &mut Vec<u8>,
    words: &WordSet,
    word: u32,
) -> Result<(), AllocError>
    ensures { OnOk result (out.new.items ≡ out.old.items ++ spec.listed_word words.now word) }
{
    if !words.has(word) {
        return Ok(());
    }
    out.push(b',')?;
    put_number(alloc, out, word as u64)
}

/// The words of a set, each after a comma.
fn commas_and_words(alloc: Global, words: &WordSet) -> Result<Vec<u8>, AllocError>
    ensures { IfOk result (λ text. drop 1 text.items ≡ spec.words_text words.now) }
{
    let mut out = Vec::new(alloc);
    for word in 0..64u32 {
        put_listed(alloc, &mut out, words, word)?;
    }
    Ok(out)
}

/// The words of a set, with commas between.
fn put_words(alloc: Global, out: &mut Vec<u8>, words: &WordSet) -> Result<(), AllocError>
    ensures { OnOk result (out.new.items ≡ out.old.items ++ spec.words_text words.now) }
{
    let listed = commas_and_words(alloc, words)?;
    out.extend_from_slice(listed.get(1..).unwrap_or(&[]))
}

fn put_fact(
    alloc: Global,
    out: &mut Vec<u8>,
    module: &Module,
    function: &Function,
    fact: &Fact,
) -> Result<(), AllocError>
    ensures { OnOk result (out.new.items ≡ out.old.items ++ spec.fact_text «module».now function.now fact.now) }
{
    match fact {
        Fact::Number { bits, below } => {
            out.extend_from_slice(b" i")?;
            put_number(alloc, out, *bits as u64)?;
            put_below(alloc, out, *below)
        }
        Fact::Reference {
            layout,
            nonnull,
            age,
            same,
        } => {
            out.extend_from_slice(b" ref ")?;
            put_layout(out, module, *layout, Blank::Kept)?;
            put_if(out, *nonnull, b" nonnull")?;
            put_age(out, *age)?;
            put_value(out, function, b" same ", *same)
        }
        Fact::Address { base, words } => {
            out.extend_from_slice(b" addr ")?;
            put_local(out, &function.locals, *base, Blank::Kept)?;
            out.push(b' ')?;
            put_words(alloc, out, words)
        }
        Fact::GlobalAddress(symbol) => {
            out.extend_from_slice(b" addr ")?;
            put_global(out, module, *symbol, Blank::Kept)
        }
    }
}

/// A claim as a line, without the line's end.
pub(crate) fn put_claim(
    alloc: Global,
    out: &mut Vec<u8>,
    module: &Module,
    function: &Function,
    line: &Claim,
) -> Result<(), AllocError>
    ensures { OnOk result (out.new.items ≡ out.old.items ++ spec.claim_text «module».now function.now line.now) }
{
    match line {
        Claim::Value { value, fact } => {
            put_local(out, &function.locals, *value, Blank::Kept)?;
            put_fact(alloc, out, module, function, fact)
        }
        Claim::Slot {
            slot,
            nonnull,
            holds,
        } => {
            out.extend_from_slice(b"slot ")?;
            put_local(out, &function.locals, *slot, Blank::Kept)?;
            put_if(out, *nonnull, b" nonnull")?;
            put_value(out, function, b" holds ", *holds)
        }
    }
}

fn line_at(certs: &Certs, function: FuncId, block: BlockId, place: usize) -> Option<&Claim>
    ensures { option_copied result ≡ spec.line_at (slice_get certs.now.sections function) block place }
{
    let section = certs.section(function)?;
    let lines = section.blocks.get(block.number() as usize)?;
    lines.get(place)
}

/// The claim at this place of a block as a line of the certificates' text, without the line's end. The text is empty where
/// there is no such claim.
pub fn print_line(
    alloc: Global,
    certs: &Certs,
    module: &Module,
    function: FuncId,
    block: BlockId,
    place: usize,
) -> Result<Vec<u8>, AllocError>
    ensures { IfOk result (λ text. text.items ≡ spec.line_shown certs.now.sections «module».now function block place) }
{
    let mut out = Vec::new(alloc);
    let body = module.functions.get(function.number() as usize);
    let line = line_at(certs, function, block, place);
    if let (Some(body), Some(line)) = (body, line) {
        put_claim(alloc, &mut out, module, body, line)?;
    }
    Ok(out)
}
