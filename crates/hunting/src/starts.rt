//! Setups that a seed draws.
ghost use Rattle.std.specs.Prelude.{◌≡◌, ◌<◌, ◌≤◌, ◌+◌, ◌^◌, length, IfOk, IfSome, OnOk};
ghost use Rattle.std.specs.List.{AllByRecursion};
ghost use Rattle.trace_text.specs.Traces.{IsTraceOf, IsStartOf};

use crate::drawing::{bits_of, integer};
use crate::numbers::below;
use certs::Section;
use ir_ast::{FuncId, Function, Module};
use items::Items;
use layout::Program;
use rand_core::{Rng, SeedableRng};
use rand_pcg::Pcg32;
use replay::pools_with;
use std::alloc::{AllocError, Global};
use trace_text::{Arrival, Setup, Start, Trace};

/// How many threads begin at most.
const THREADS: u32 = 3;

/// How many cells a pool has at most.
const CELLS: u32 = 4;

/// Whether a function takes no reference.
fn takes_integers(of_module: &Module, function: &Function) -> bool {
    function
        .parameters
        .as_slice()
        .iter()
        .all(|parameter| bits_of(of_module, *parameter).is_some())
}

/// The first function from this one on that takes no reference; after the last comes the first.
fn function_from(of_module: &Module, first: u32) -> Option<FuncId>
    ensures { IfSome result (λ func. func < length of_module.now.functions) }
{
    let functions = of_module.functions.as_slice();
    let Ok(count) = u32::try_from(functions.len()) else {
        return None;
    };
    for turn in 0..count {
        let number = (u64::from(first) + u64::from(turn)) % u64::from(count);
        if takes_integers(of_module, &functions[number as usize]) {
            return Some(FuncId::new(number as u32));
        }
    }
    None
}

/// What is promised of a parameter of a function: it is below this number, if there is one.
fn promised(sections: &[Section], func: FuncId, place: usize) -> Option<u64> {
    let section = sections.get(func.number() as usize)?;
    match section.parameters.get(place) {
        Some(Some(promise)) => promise.below,
        _ => None,
    }
}

/// Arguments of a function.
fn arguments<R: Rng>(
    alloc: Global,
    program: &Program,
    sections: &[Section],
    rng: &mut R,
    func: FuncId,
) -> Result<Items<u64>, AllocError>
    ensures { IfOk result (AllByRecursion (λ argument. argument < 2 ^ 64)) }
{
    let of_module = program.module();
    let mut drawn = Items::new(alloc);
    if let Some(function) = of_module.functions.get(func.number() as usize) {
        for (place, parameter) in function.parameters.as_slice().iter().enumerate() {
            let below = promised(sections, func, place);
            drawn.push(integer(rng, of_module, *parameter, below))?;
        }
    }
    Ok(drawn)
}

/// A thread more, at a function that takes no reference, if there is one.
fn add_start<R: Rng>(
    alloc: Global,
    program: &Program,
    sections: &[Section],
    rng: &mut R,
    drawn: &mut Items<Start>,
) -> Result<(), AllocError>
    ensures starts { AllByRecursion (IsStartOf program.now) drawn.old → OnOk result (AllByRecursion (IsStartOf program.now) drawn.new) }
    ensures few { OnOk result (length drawn.new ≤ length drawn.old + 1) }
{
    let Some(function) = function_from(program.module(), rng.next_u32()) else {
        return Ok(());
    };
    let arguments = arguments(alloc, program, sections, rng, function)?;
    drawn.push(Start {
        arrival: Arrival::AtStart,
        function,
        arguments,
        values: Items::new(alloc),
    })?;
    Ok(())
}

/// Threads at functions that take no reference: at most as many, and fewer where there is no such function.
fn starts<R: Rng>(
    alloc: Global,
    program: &Program,
    sections: &[Section],
    rng: &mut R,
    threads: u32,
) -> Result<Items<Start>, AllocError>
    ensures starts { IfOk result (AllByRecursion (IsStartOf program.now)) }
    ensures few { IfOk result (λ starts. length starts ≤ threads) }
{
    let mut drawn = Items::new(alloc);
    for _thread in 0..threads {
        add_start(alloc, program, sections, rng, &mut drawn)?;
    }
    Ok(drawn)
}

/// How many cells each pool has.
fn counts<R: Rng>(alloc: Global, rng: &mut R, layouts: u32) -> Result<Items<u32>, AllocError>
    ensures { IfOk result (λ counts. length counts ≡ layouts) }
{
    let mut drawn = Items::new(alloc);
    for _layout in 0..layouts {
        drawn.push(1 + below(rng, CELLS))?;
    }
    Ok(drawn)
}

/// A trace without steps: pools of one to four cells, and one to three threads, each at a function that takes no reference. None where
/// there is no such function.
pub(crate) fn drawn_start(
    alloc: Global,
    program: &Program,
    sections: &[Section],
    seed: u32,
) -> Result<Option<Trace>, AllocError>
    ensures { IfOk result (λ drawn. IfSome drawn (IsTraceOf program.now)) }
{
    let Ok(layouts) = u32::try_from(program.layouts().count()) else {
        return Err(AllocError);
    };
    let mut rng = Pcg32::seed_from_u64(u64::from(seed) + (1 << 32));
    let threads = 1 + below(&mut rng, THREADS);
    let counts = counts(alloc, &mut rng, layouts)?;
    let pools = pools_with(alloc, program, counts.as_slice())?;
    let starts = starts(alloc, program, sections, &mut rng, threads)?;
    if starts.is_empty() {
        return Ok(None);
    }
    Ok(Some(Trace {
        setup: Setup { pools, starts },
        steps: Items::new(alloc),
    }))
}
