ghost use Rattle.std.specs.Prelude.{◌≡◌, ◌<◌, ◌^◌};
ghost use Rattle.moves.specs.Calls.{action_of};
ghost use Rattle.program_runner.specs.Given.{NamesCell};
ghost use Rattle.program_safety.specs.Threads.{in_run, reference_in, stored, asked_as, null_or_cell, word_read, next_value, values_after};

use machine::{Action, Answer as ThreadAnswer, Reference as ThreadReference, Value};
use moves::{Call, NULL, WordValue};
use pools::WordKind;

/// A reference of a thread, as one of a run.
fn in_run(at: ThreadReference) -> WordValue
    ensures { result ≡ in_run at }
{
    WordValue {
        cell: u64::from(at.cell),
        birth: at.birth,
    }
}

/// What a value refers to; null where it is no reference.
pub(crate) fn reference_in(value: Value) -> WordValue
    ensures { result ≡ reference_in value }
{
    match value {
        Value::Cell(_, at) => in_run(at),
        _ => NULL,
    }
}

/// What a value is in a word: a number is kept as a cell's number.
fn stored(value: Value) -> WordValue
    ensures { result ≡ stored value }
{
    match value {
        Value::Number(number) => WordValue {
            cell: number,
            birth: 0,
        },
        value => reference_in(value),
    }
}

/// An action of a thread, as a call in a run.
pub(crate) fn asked_as(action: Action) -> Call
    ensures { action_of result ≡ asked_as action }
{
    match action {
        Action::Local | Action::Foreign { .. } => Call::Local,
        Action::Read { at, word } => Call::Read {
            base: in_run(at),
            word,
        },
        Action::StorePlain { at, word, value } => Call::StorePlain {
            base: in_run(at),
            word,
            value: stored(value),
        },
        Action::Write { at, word, value } => Call::Write {
            base: in_run(at),
            word,
            value: stored(value),
        },
        Action::Alloc(layout) => Call::Alloc(layout),
        Action::Safepoint => Call::Safepoint,
        Action::End => Call::End,
        Action::Wrong => Call::Wrong,
    }
}

/// Null or a reference to a cell, as an answer.
pub(crate) fn null_or_cell(found: WordValue) -> ThreadAnswer
    requires { found.cell < 2 ^ 32 }
    ensures { result ≡ null_or_cell found }
{
    if found.cell == 0 {
        return ThreadAnswer::Null;
    }
    ThreadAnswer::Cell(ThreadReference {
        cell: found.cell as u32,
        birth: found.birth,
    })
}

/// What was read in a word of this kind, as an answer.
pub(crate) fn word_read(kind: Option<WordKind>, found: WordValue) -> ThreadAnswer
    requires { NamesCell kind found }
    ensures { result ≡ word_read kind found }
{
    match kind {
        Some(WordKind::Integer(_)) => ThreadAnswer::Number(found.cell),
        Some(WordKind::Reference(_)) => null_or_cell(found),
        None => ThreadAnswer::Done,
    }
}

/// The next number from outside; after the last one it is 0.
pub(crate) fn next_value(values: &[u64]) -> u64
    ensures { result ≡ next_value values.now }
{
    match values {
        [next, ..] => *next,
        [] => 0,
    }
}

/// The numbers from outside that are left after an action.
pub(crate) fn values_after<'a>(action: &Action, values: &'a [u64]) -> &'a [u64]
    ensures { result.now ≡ values_after action.now values.now }
{
    match (*action, values) {
        (Action::Foreign { .. }, [_, left @ ..]) => left,
        _ => values,
    }
}
