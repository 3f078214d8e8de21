//! What is promised of a parameter or of the result.
ghost use Rattle.std.specs.Prelude.{◌≡◌};
ghost use Rattle.name_text.specs.Reader.{Reads};
ghost use Rattle.certificate.specs.Lines as form;

use crate::forms::{count, layout_name};
use crate::input::{Input, WordFault};
use crate::mistake::Mistake;
use certs::{Family, Promise};
use ir_ast::Module;
use std::alloc::Global;

/// What a word promises.
#[derive(Clone, Copy)]
pub enum Promised {
    /// `ref`.
    Layout,
    Nonnull,
    Below,
    /// `i64`: it is an address outside.
    Number,
    /// It is promised already.
    Again,
    /// Nothing, or what does not fit the type.
    Other,
}

/// Nothing is promised.
fn no_promise() -> Promise
    ensures { result ≡ form.no_promise }
{
    Promise {
        layout: None,
        nonnull: false,
        below: None,
        number: false,
    }
}

fn fact_if(given: bool, fits: bool, fact: Promised) -> Promised
    ensures { result ≡ form.fact_if given fits fact }
{
    if given {
        Promised::Again
    } else if fits {
        fact
    } else {
        Promised::Other
    }
}

fn promised_by(family: Family, promise: &Promise, word: &[u8]) -> Promised
    ensures { result ≡ form.promised_by family promise.now word.now }
{
    if word == b"ref".as_slice() {
        fact_if(
            promise.layout.is_some(),
            family.is_reference(),
            Promised::Layout,
        )
    } else if word == b"nonnull".as_slice() {
        fact_if(promise.nonnull, family.is_reference(), Promised::Nonnull)
    } else if word == b"below".as_slice() {
        fact_if(
            promise.below.is_some(),
            family.is_integer(),
            Promised::Below,
        )
    } else {
        Promised::Other
    }
}

/// Whether an address outside may be promised of such a value, of which nothing is promised so far.
fn may_stand_alone(module: &Module, family: &Family, promise: &Promise) -> bool
    ensures { result ≡ form.may_stand_alone «module».now family.now promise.now }
{
    family.may_be_outside(module)
        && (promise.layout.is_none() && (!promise.nonnull && promise.below.is_none()))
}

/// What a word promises, where an address outside may be promised, with which no other word stands.
fn promised_in(module: &Module, family: &Family, promise: &Promise, word: &[u8]) -> Promised
    ensures { result ≡ form.promised_in «module».now family.now promise.now word.now }
{
    if word == b"i64".as_slice() {
        let alone = may_stand_alone(module, family, promise);
        fact_if(promise.number, alone, Promised::Number)
    } else if promise.number {
        Promised::Other
    } else {
        promised_by(*family, promise, word)
    }
}

#[tactic(auto, unfolding(crate::specs::Lines::promised_fact, name_text::specs::Forms::skip))]
fn promised_fact(
    alloc: Global,
    input: &mut Input<'_>,
    module: &Module,
    family: &Family,
    promise: &Promise,
) -> Result<Promise, WordFault>
    ensures { Reads ((form.promised_fact «module».now family.now promise.now).read input.old) result input.new }
{
    match promised_in(module, family, promise, input.word()) {
        Promised::Again => Err(WordFault::Wrong(Mistake::ListedTwice(input.left()))),
        Promised::Other => Err(WordFault::Syntax(input.left())),
        Promised::Layout => {
            input.skip();
            let layout = Some(layout_name(alloc, input, module, *family)?);
            Ok(Promise { layout, ..*promise })
        }
        Promised::Nonnull => {
            input.skip();
            Ok(Promise {
                nonnull: true,
                ..*promise
            })
        }
        Promised::Below => {
            input.skip();
            let below = Some(count(input)?);
            Ok(Promise { below, ..*promise })
        }
        Promised::Number => {
            input.skip();
            Ok(Promise {
                number: true,
                ..*promise
            })
        }
    }
}

#[tactic(auto, unfolding(crate::specs::Lines::more_facts))]
fn more_facts(
    alloc: Global,
    input: &mut Input<'_>,
    module: &Module,
    family: &Family,
    promise: &Promise,
) -> Result<Promise, WordFault>
    ensures { Reads ((form.more_facts «module».now family.now promise.now).read input.old) result input.new }
{
    if input.line_ends() {
        return Ok(*promise);
    }
    promised_fact(alloc, input, module, family, promise)
}

/// Up to three facts and the line's end.
#[tactic(auto, unfolding(crate::specs::Lines::promise))]
pub fn promise(
    alloc: Global,
    input: &mut Input<'_>,
    module: &Module,
    family: Family,
) -> Result<Promise, WordFault>
    ensures { Reads ((form.promise «module».now family).read input.old) result input.new }
{
    let one = promised_fact(alloc, input, module, &family, &no_promise())?;
    let two = more_facts(alloc, input, module, &family, &one)?;
    let three = more_facts(alloc, input, module, &family, &two)?;
    let all = more_facts(alloc, input, module, &family, &three)?;
    input.line_end()?;
    Ok(all)
}
