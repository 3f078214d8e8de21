//! K13, K14 and K17: what is promised of a parameter, of a result, or of a function, and where the certificate says so.
use crate::cases::{Case, Mending, Seen, Unkept};
use crate::cells::cell_layout;
use crate::diagnosis::{At, Draft, Sought};
use crate::outside::leads_outside;
use crate::scene::{Scene, There, defined_as};
use crate::told::{Told, call_of};
use block_rules::known_of;
use certs::Promise;
use facts::{Facts, Known};
use ir_ast::{Constant, End, FuncId, Operand, ValueId};
use pools::LayoutId;

/// An argument that does not keep what is promised of its parameter.
#[derive(Clone, Copy)]
struct Broken {
    operand: Operand,
    callee: FuncId,
    parameter: ValueId,
    word: Unkept,
}

fn is_nonnull(facts: &Facts, known: &Known) -> bool {
    match known {
        Known::Cell { class, .. } => facts.class(*class).nonnull,
        _ => false,
    }
}

fn is_other(promised: Option<LayoutId>, layout: Option<LayoutId>) -> bool {
    match (promised, layout) {
        (Some(promised), Some(layout)) => promised.number() != layout.number(),
        _ => false,
    }
}

/// The word of what is not known to be nonnull.
fn not_nonnull(operand: &Operand, known: &Known) -> Unkept {
    match (operand, known) {
        (Operand::Constant(Constant::Null), _) | (_, Known::Null) => Unkept::Null,
        _ => Unkept::Nonnull,
    }
}

/// Which word of what is promised, if anything is, an operand is not known to keep.
fn unkept_word(scene: &Scene, promise: &Option<Promise>, operand: &Operand) -> Option<Unkept> {
    let is_number = match promise {
        Some(promise) => promise.number,
        None => false,
    };
    match (is_number, leads_outside(scene, operand)) {
        (true, false) => Some(Unkept::Inside),
        (false, true) => Some(Unkept::Outside),
        _ => match promise {
            Some(promise) => unkept_inside(scene.facts, promise, operand),
            None => None,
        },
    }
}

/// Which word of a promise an operand is not known to keep, which leads nowhere outside.
fn unkept_inside(facts: &Facts, promise: &Promise, operand: &Operand) -> Option<Unkept> {
    let known = known_of(facts, operand);
    if is_other(promise.layout, cell_layout(&known)) {
        return Some(Unkept::Layout);
    }
    if promise.nonnull && !is_nonnull(facts, &known) {
        return Some(not_nonnull(operand, &known));
    }
    if is_small(promise.below, &known) {
        None
    } else {
        Some(Unkept::Below)
    }
}

/// Whether a number is known to be as small as it is promised.
fn is_small(promised: Option<u64>, known: &Known) -> bool {
    match (promised, known) {
        (None, _) => true,
        (
            Some(wanted),
            Known::Number {
                below: Some(below),
                ..
            },
        ) => *below <= wanted,
        _ => false,
    }
}

/// The function of the module that is called.
fn callee_of(scene: &Scene) -> Option<FuncId> {
    defined_as(scene.context.module(), call_of(scene)?.callee)
}

fn broken_at(scene: &Scene, number: usize, operand: Operand) -> Option<Broken> {
    let callee = callee_of(scene)?;
    let functions = scene.context.module().functions.as_slice();
    let called = functions.get(callee.number() as usize)?;
    let parameter = called.parameters.get(number)?.value;
    let promise = scene.context.certs.section(callee)?.parameters.get(number)?;
    let word = unkept_word(scene, promise, &operand)?;
    Some(Broken {
        operand,
        callee,
        parameter,
        word,
    })
}

/// The first argument that is not known to keep what is promised of its parameter.
fn broken_promise(scene: &Scene) -> Option<Broken> {
    let call = call_of(scene)?;
    for (number, argument) in call.arguments.as_slice().iter().enumerate() {
        let broken = broken_at(scene, number, argument.operand);
        if broken.is_some() {
            return broken;
        }
    }
    None
}

/// What is returned.
pub(crate) fn returned(scene: &Scene) -> Option<Operand> {
    match scene.there() {
        There::End(End::Return(argument)) => Some(argument.operand),
        _ => None,
    }
}

/// Which word of what is promised of the result is not kept.
fn unkept_result(scene: &Scene) -> Option<Unkept> {
    let section = scene.context.certs.section(scene.refusal.func)?;
    unkept_word(scene, &section.result, &returned(scene)?)
}

/// What keeps a promise of which this word is not kept. Where the word is not there, none can go.
fn mend_promise(found: &mut Draft, told: &Told, word: &Unkept) {
    found.mend(told, Mending::OfCase);
    if !matches!(word, Unkept::Outside) {
        found.mend(told, Mending::WeakerPromise)
    }
}

/// K13. Returns whether a promise is found that an argument does not keep.
pub(crate) fn find_argument(found: &mut Draft, scene: &Scene) -> bool {
    let Some(broken) = broken_promise(scene) else {
        return false;
    };
    let told = Told::of(scene, Some(broken.operand));
    found.case(&told, Case::Argument(broken.word));
    let line = Sought::Param(broken.parameter);
    found.add_note(&told, At::Certificate(broken.callee, line), Seen::Promise);
    found.know(scene, &[broken.operand]);
    mend_promise(found, &told, &broken.word);
    true
}

/// K14.
pub(crate) fn find_result(found: &mut Draft, scene: &Scene, operands: &[Operand]) {
    let told = Told::of(scene, returned(scene));
    let word = unkept_result(scene).unwrap_or(Unkept::Other);
    found.case(&told, Case::Result(word));
    found.cert_note(&told, Sought::Result, Seen::Promise);
    found.know(scene, operands);
    mend_promise(found, &told, &word)
}
