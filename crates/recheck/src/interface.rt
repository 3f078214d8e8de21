//! What the callers of a function see of it.
ghost use Rattle.std.specs.Prelude.{◌≡◌, ◌+◌, Some, true, false, length, slice_get};
ghost use Rattle.answers.specs.Edited.{IfUnseen};
ghost use Rattle.ir_ast.specs.declared.module.Module.{Module as AModule};
ghost use Rattle.answers.specs.Local.{interface_of};
ghost use Rattle.recheck.specs.Interface as spec;

use answers::Callers;
use block_rules::TypeKind;
use certs::{Certs, Promise, Section};
use ir_ast::{FuncId, Function, Module, Parameter, TypeId};

fn all_written(one: &[Parameter], other: &[Parameter]) -> bool
    ensures { result ≡ spec.all_written one.now other.now }
{
    one.iter()
        .zip(other.iter())
        .all(|(one, other)| one.written == other.written)
}

fn same_types(one: &Function, other: &Function) -> bool
    ensures { result ≡ spec.same_types one.now other.now }
{
    one.returned == other.returned
        && one.parameters.len() == other.parameters.len()
        && all_written(one.parameters.as_slice(), other.parameters.as_slice())
}

/// Whether two sections promise the same in the same words, with the same mark.
fn same_words(past: &Section, next: &Section) -> bool
    ensures mark { result ≡ true → next.now.mark ≡ past.now.mark }
    ensures parameters { result ≡ true → next.now.parameters ≡ past.now.parameters }
    ensures promised { result ≡ true → next.now.result ≡ past.now.result }
{
    past.mark == next.mark
        && past.result == next.result
        && past.parameters.as_slice() == next.parameters.as_slice()
}

/// Whether two functions with their sections look the same to a caller, word by word. Then they tell it the same.
fn looks_same(old: &Function, new: &Function, past: &Section, next: &Section) -> bool
    ensures looks { result ≡ true → interface_of (Some new.now) (Some next.now) ≡ interface_of (Some old.now) (Some past.now) }
    ensures tells { (m : AModule) → result ≡ true → spec.tells_same m old.now new.now past.now next.now ≡ true }
{
    same_types(old, new) && same_words(past, next)
}

/// Whether the callers of a function see that it was replaced.
pub fn seen(module: &Module, certs: &Certs, func: FuncId, old: &Function, past: &Section) -> Callers
    ensures unseen { IfUnseen result (interface_of (slice_get «module».now.functions func) (slice_get certs.now.sections func) ≡ interface_of (Some old.now) (Some past.now)) }
    ensures interface { IfUnseen result (spec.is_interface_same «module».now (Some old.now) (slice_get «module».now.functions func) (Some past.now) (slice_get certs.now.sections func) ≡ true) }
{
    let Some(new) = module.functions.get(func.number() as usize) else {
        return Callers::SeeChange;
    };
    let Some(next) = certs.section(func) else {
        return Callers::SeeChange;
    };
    if looks_same(old, new, past, next) {
        Callers::SeeNone
    } else {
        Callers::SeeChange
    }
}

/// What is said of a value of a type with this promise.
fn interface(module: &Module, written: TypeId, promised: Option<Promise>) -> Promise
    ensures { result ≡ spec.interface «module».now written promised }
{
    let by_type = TypeKind::of(module, written).layout();
    match promised {
        None => Promise {
            layout: by_type,
            nonnull: false,
            below: None,
            number: false,
        },
        Some(promise) => Promise {
            layout: promise.layout.or(by_type),
            nonnull: promise.nonnull,
            below: promise.below,
            number: promise.number,
        },
    }
}

fn same_promise(one: Promise, other: Promise) -> bool
    ensures { result ≡ spec.same_promise one other }
{
    one == other
}

fn says_same(module: &Module, written: TypeId, one: Option<Promise>, other: Option<Promise>) -> bool
    ensures { result ≡ spec.says_same «module».now written one other }
{
    same_promise(
        interface(module, written, one),
        interface(module, written, other),
    )
}

fn all_said(
    module: &Module,
    parameters: &[Parameter],
    one: &[Option<Promise>],
    other: &[Option<Promise>],
) -> bool
    ensures { result ≡ spec.all_said «module».now parameters.now one.now other.now }
{
    parameters.iter().zip(one.iter().zip(other.iter())).all(|(parameter, (one, other))| says_same(
        module,
        parameter.written,
        *one,
        *other,
    ))
}

/// Whether two functions with their sections tell their callers the same.
fn tells_same(
    module: &Module,
    old: &Function,
    new: &Function,
    past: &Section,
    next: &Section,
) -> bool
    ensures { result ≡ spec.tells_same «module».now old.now new.now past.now next.now }
{
    let parameters = new.parameters.as_slice();
    let promises = past.parameters.as_slice();
    same_types(old, new)
        && past.mark == next.mark
        && all_said(module, parameters, promises, next.parameters.as_slice())
        && says_same(module, new.returned, past.result, next.result)
}

/// Whether the callers of a function see the same of it as before.
fn is_interface_same(
    module: &Module,
    certs: &Certs,
    func: FuncId,
    old: &Function,
    past: &Section,
) -> bool
    ensures { result ≡ spec.is_interface_same «module».now (Some old.now) (slice_get «module».now.functions func) (Some past.now) (slice_get certs.now.sections func) }
{
    let Some(new) = module.functions.get(func.number() as usize) else {
        return false;
    };
    let Some(next) = certs.section(func) else {
        return false;
    };
    tells_same(module, old, new, past, next)
}

/// How many functions the edit of a function makes be checked, of which this was the code and the section before. Where its callers
/// see a change, `checked` is how many were checked: it and all callers.
pub fn count_checked(
    module: &Module,
    certs: &Certs,
    func: FuncId,
    old: &Function,
    past: &Section,
    checked: usize,
) -> u64
    requires { spec.is_interface_same «module».now (Some old.now) (slice_get «module».now.functions func) (Some past.now) (slice_get certs.now.sections func) ≡ false → checked ≡ 1 + spec.callers_before «module».now func (length «module».now.functions) }
    ensures { result ≡ spec.rechecked_by «module».now certs.now.sections func (Some old.now) (Some past.now) }
{
    if is_interface_same(module, certs, func, old, past) {
        1
    } else {
        checked as u64
    }
}
