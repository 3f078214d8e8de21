//! Claims that come in the order of what they list, where one is found in few steps.
ghost use Rattle.std.specs.Prelude.{◌≡◌, ◌++◌, ◌<◌, ◌≤◌, true, length, take};
ghost use Rattle.std.specs.List.{list_all, list_any};
ghost use Rattle.certs.specs.Fits as spec;
ghost use Rattle.certs.specs.Runs.{listed_in, lists_this, comes_before, is_run, list_others, some_list_named};

use crate::fits::{lists, lists_slot, named_in, some_lists};
use crate::section::Claim;
use ir_ast::ValueId;

/// What a claim lists.
#[derive(Clone, Copy)]
pub(crate) enum Listed {
    Value(ValueId),
    Slot(ValueId),
}

fn listed_in(claim: &Claim) -> Listed
    ensures { result ≡ listed_in claim.now }
{
    match claim {
        Claim::Value { value, .. } => Listed::Value(*value),
        Claim::Slot { slot, .. } => Listed::Slot(*slot),
    }
}

fn lists_this(listed: &Listed, claim: &Claim) -> bool
    ensures { result ≡ lists_this listed.now claim.now }
{
    match listed {
        Listed::Value(value) => lists(*value, claim),
        Listed::Slot(slot) => lists_slot(*slot, claim),
    }
}

/// Values come before slots, and both in the order of their numbers.
fn comes_before(one: &Listed, other: &Listed) -> bool
    ensures { result ≡ comes_before one.now other.now }
{
    match (one, other) {
        (Listed::Value(a), Listed::Value(b)) => a.number() < b.number(),
        (Listed::Value(_), Listed::Slot(_)) => true,
        (Listed::Slot(_), Listed::Value(_)) => false,
        (Listed::Slot(a), Listed::Slot(b)) => a.number() < b.number(),
    }
}

/// Whether one of some claims in order lists this. It looks at the middle one of those that are left.
fn run_lists(run: &[Claim], listed: &Listed) -> bool
    requires { is_run run.now ≡ true }
    ensures { result ≡ list_any (lists_this listed.now) run.now }
{
    let mut rest = run;
    while !rest.is_empty() {
        let (front, back) = rest.split_at(rest.len() / 2);
        let [middle, after @ ..] = back else {
            return false;
        };
        if lists_this(listed, middle) {
            return true;
        }
        rest = if comes_before(&listed_in(middle), listed) {
            after
        } else {
            front
        };
    }
    false
}

/// How many of the first claims are in order.
fn run_length(claims: &[Claim]) -> usize
    ensures within { result ≤ length claims.now }
    ensures run { is_run (take result claims.now) ≡ true }
    ensures some { 0 < length claims.now → 0 < result }
{
    if claims.is_empty() {
        return 0;
    }
    let mut count = 1;
    while count < claims.len()
        && comes_before(&listed_in(&claims[count - 1]), &listed_in(&claims[count]))
    {
        count += 1;
    }
    count
}

/// The first claims that are in order, and the others.
fn cut(claims: &[Claim]) -> (&[Claim], &[Claim])
    ensures both { result.0.now ++ result.1.now ≡ claims.now }
    ensures run { is_run result.0.now ≡ true }
    ensures some { 0 < length claims.now → 0 < length result.0.now }
{
    claims.split_at(run_length(claims))
}

/// Whether none of these claims lists what one in order lists.
fn list_others(claims: &[Claim], run: &[Claim]) -> bool
    requires { is_run run.now ≡ true }
    ensures { result ≡ list_others claims.now run.now }
{
    for claim in claims {
        if run_lists(run, &listed_in(claim)) {
            return false;
        }
    }
    true
}

/// Whether no value and no slot is listed twice. Claims in order are compared with those before them alone.
pub(crate) fn lists_once(claims: &[Claim]) -> bool
    ensures { result ≡ spec.lists_once claims.now }
{
    let mut before = 0;
    while before < claims.len() {
        let (done, others) = claims.split_at(before);
        let (run, _) = cut(others);
        if !list_others(done, run) {
            return false;
        }
        before += run.len();
    }
    true
}

fn run_lists_value(run: &[Claim], value: ValueId) -> bool
    requires { is_run run.now ≡ true }
    ensures { result ≡ list_any (spec.lists value) run.now }
{
    run_lists(run, &Listed::Value(value))
}

/// Whether one of these claims, of which the first three lists are in order, lists the value, if there is one.
fn some_list_named(
    first: &[Claim],
    second: &[Claim],
    third: &[Claim],
    rest: &[Claim],
    value: Option<ValueId>,
) -> bool
    requires first { is_run first.now ≡ true }
    requires second { is_run second.now ≡ true }
    requires third { is_run third.now ≡ true }
    ensures { result ≡ some_list_named first.now second.now third.now rest.now value }
{
    match value {
        None => true,
        Some(value) => {
            run_lists_value(first, value)
                || run_lists_value(second, value)
                || run_lists_value(third, value)
                || some_lists(rest, value)
        }
    }
}

/// Whether the claims list each value that one of them names.
pub(crate) fn all_named_listed(claims: &[Claim]) -> bool
    ensures { result ≡ spec.all_named_listed claims.now }
{
    let (first, others) = cut(claims);
    let (second, others) = cut(others);
    let (third, rest) = cut(others);
    for claim in claims {
        if !some_list_named(first, second, third, rest, named_in(claim)) {
            return false;
        }
    }
    true
}
