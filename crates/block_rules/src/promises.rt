ghost use Rattle.std.specs.Prelude.{◌≡◌};
ghost use Rattle.std.specs.List.{list_all, zip};
ghost use Rattle.std.specs.Option.{option_copied};
ghost use Rattle.fact_tables.specs.Covers.{implied};
ghost use Rattle.facts.specs.Claims.{is_below, promised_number};
ghost use Rattle.block_rules.specs.Promises.{promises_in, promised_in, own_mark, callee_mark, given_by, is_promised, keeps_promise, says_what_it_is, say_what_they_are, implies_promise, show_promises};

use crate::choices::{known_layout, one_layout};
use crate::context::RuleContext;
use crate::numbers::below_of;
use crate::operands::{is_nonnull, is_outside_value, known_of};
use certs::{Mark, Promise, Section};
use facts::{Facts, Given};
use ir_ast::{Argument, Operand};
use pools::LayoutId;
use type_kinds::TypeKind;

/// What a certificate promises of each parameter.
pub fn promises_in(section: Option<&Section>) -> &[Option<Promise>]
    ensures { result.now ≡ promises_in (option_copied section.entry) }
{
    match section {
        Some(section) => section.parameters.as_slice(),
        None => &[],
    }
}

/// What a certificate promises of the result.
pub fn promised_in(section: Option<&Section>) -> Option<Promise>
    ensures { result ≡ promised_in (option_copied section.entry) }
{
    match section {
        Some(section) => section.result,
        None => None,
    }
}

/// The mark by which a function with this certificate is checked.
pub fn own_mark(section: Option<&Section>) -> Mark
    ensures { result ≡ own_mark (option_copied section.entry) }
{
    match section {
        Some(section) => section.mark,
        None => Mark::None,
    }
}

/// The mark by which a function with this certificate is called.
pub fn callee_mark(section: Option<&Section>) -> Mark
    ensures { result ≡ callee_mark (option_copied section.entry) }
{
    match section {
        Some(section) => section.mark,
        None => Mark::May,
    }
}

/// What a type says of a parameter or a result.
pub fn given_by(kind: TypeKind) -> Given
    ensures { result ≡ given_by kind }
{
    match kind {
        TypeKind::Bits(bits) => Given::Number(bits),
        TypeKind::Reference(layout) => Given::Reference(layout),
        TypeKind::AnyReference => Given::AnyReference,
        _ => Given::Nothing,
    }
}

fn implied(asked: bool, holds: bool) -> bool
    ensures { result ≡ implied asked holds }
{
    holds || !asked
}

fn is_below(below: Option<u64>, asked: Option<u64>) -> bool
    ensures { result ≡ is_below below asked }
{
    match (below, asked) {
        (_, None) => true,
        (Some(below), Some(asked)) => below <= asked,
        (None, Some(_)) => false,
    }
}

fn is_promised(promised: Option<LayoutId>, layout: Option<LayoutId>) -> bool
    ensures { result ≡ is_promised promised layout }
{
    match promised {
        Some(promised) => one_layout(Some(promised), layout),
        None => true,
    }
}

/// Whether what is known of an operand implies what is promised of the result.
pub fn keeps_promise(facts: &Facts, promise: Option<Promise>, operand: &Operand) -> bool
    ensures { result ≡ keeps_promise facts.now promise operand.now }
{
    let known = known_of(facts, operand);
    let layout = known_layout(&known);
    let nonnull = is_nonnull(facts, &known);
    match promise {
        Some(promise) => {
            is_promised(promise.layout, layout)
                && implied(promise.nonnull, nonnull)
                && is_below(below_of(facts, operand), promise.below)
        }
        None => true,
    }
}

/// Whether what is known of each argument implies what is promised of its parameter.
pub fn show_promises(facts: &Facts, arguments: &[Argument], promises: &[Option<Promise>]) -> bool
    ensures { result ≡ show_promises facts.now arguments.now promises.now }
{
    arguments.iter().zip(promises.iter()).all(|(argument, promise)| keeps_promise(
        facts,
        *promise,
        &argument.operand,
    ))
}

fn promised_number(promise: &Option<Promise>) -> bool
    ensures { result ≡ promised_number promise.now }
{
    match promise {
        Some(promise) => promise.number,
        None => false,
    }
}

/// Whether a number is promised of an address outside, and of nothing else.
pub fn says_what_it_is(outside: bool, promise: &Option<Promise>) -> bool
    ensures { result ≡ says_what_it_is outside promise.now }
{
    if promised_number(promise) {
        outside
    } else {
        !outside
    }
}

/// Whether this is so of each argument; where there is no promise there is none of a number.
pub fn say_what_they_are(
    context: &RuleContext,
    facts: &Facts,
    arguments: &[Argument],
    promises: &[Option<Promise>],
) -> bool
    ensures { result ≡ say_what_they_are context.now.program.now.of_module context.now.function.now context.now.slots.now facts.now arguments.now promises.now }
{
    let mut rest = promises;
    for argument in arguments {
        let outside = is_outside_value(context, facts, argument.written, &argument.operand);
        match rest {
            [promise, others @ ..] => {
                if !says_what_it_is(outside, promise) {
                    return false;
                }
                rest = others;
            }
            [] => {
                if outside {
                    return false;
                }
            }
        }
    }
    true
}
