//! The text of traces.
ghost use Rattle.std.specs.Prelude.{◌≡◌, ◌++◌, OnOk, IfOk};
ghost use Rattle.std.specs.List.{flat_map};
ghost use Rattle.trace_text.specs.Arrivals.{start_word, version_of};
ghost use Rattle.trace_text.specs.Print as spec;
ghost use Rattle.trace_text.specs.Text.{IsTrace};
ghost use Rattle.trace_text.specs.Traces.{AreNamed, IsTraceOf};

use crate::trace::{Start, Steps, Trace};
use crate::versions::{Version, start_word, version_of};
use ir_ast::{FuncId, Module};
use layout::Program;
use moves::Actor;
use name_text::{Blank, put_global, put_layout, put_number};
use pools::{LayoutId, Pools};
use std::alloc::{AllocError, Global};

/// The name of a defined function with its sign; nothing where there is no such function.
fn put_function(out: &mut Vec<u8>, module: &Module, function: FuncId) -> Result<(), AllocError>
    ensures { OnOk result (out.new.items ≡ out.old.items ++ spec.function_text «module».now function) }
{
    match module.functions.get(function.number() as usize) {
        None => Ok(()),
        Some(function) => put_global(out, module, function.symbol, Blank::Kept),
    }
}

/// The line of a pool, unless it has no cell.
fn put_pool(
    alloc: Global,
    out: &mut Vec<u8>,
    module: &Module,
    layout: LayoutId,
    count: u32,
) -> Result<(), AllocError>
    ensures { OnOk result (out.new.items ≡ out.old.items ++ spec.pool_line «module».now layout count) }
{
    if count == 0 {
        return Ok(());
    }
    out.extend_from_slice(b"pool ")?;
    put_layout(out, module, layout, Blank::Kept)?;
    out.push(b' ')?;
    put_number(alloc, out, count as u64)?;
    out.extend_from_slice(b"\n")
}

/// The lines of the pools of this number of layouts.
fn put_pools(
    alloc: Global,
    out: &mut Vec<u8>,
    module: &Module,
    layouts: u32,
    pools: &Pools,
) -> Result<(), AllocError>
    ensures { OnOk result (out.new.items ≡ out.old.items ++ spec.pools_text «module».now layouts pools.now) }
{
    for layout in 0..layouts {
        let layout = LayoutId::new(layout);
        put_pool(alloc, out, module, layout, pools.count(layout))?;
    }
    Ok(())
}

/// Arguments, each after a blank.
fn put_arguments(alloc: Global, out: &mut Vec<u8>, arguments: &[u64]) -> Result<(), AllocError>
    ensures { OnOk result (out.new.items ≡ out.old.items ++ spec.arguments_text arguments.now) }
{
    for argument in arguments {
        out.push(b' ')?;
        put_number(alloc, out, *argument)?;
    }
    Ok(())
}

/// The line of a thread.
fn put_start_line(
    alloc: Global,
    out: &mut Vec<u8>,
    module: &Module,
    start: &Start,
) -> Result<(), AllocError>
    ensures { OnOk result (out.new.items ≡ out.old.items ++ spec.start_line «module».now start.now) }
{
    out.extend_from_slice(start_word(start.arrival))?;
    out.push(b' ')?;
    put_function(out, module, start.function)?;
    put_arguments(alloc, out, start.arguments.as_slice())?;
    out.extend_from_slice(b"\n")
}

/// The line of the numbers that a thread gets from outside, unless there is none.
fn put_values(alloc: Global, out: &mut Vec<u8>, values: &[u64]) -> Result<(), AllocError>
    ensures { OnOk result (out.new.items ≡ out.old.items ++ spec.values_text values.now) }
{
    match values {
        [] => Ok(()),
        [_, ..] => {
            out.extend_from_slice(b"values")?;
            put_arguments(alloc, out, values)?;
            out.extend_from_slice(b"\n")
        }
    }
}

/// The lines of a thread.
fn put_start(
    alloc: Global,
    out: &mut Vec<u8>,
    module: &Module,
    start: &Start,
) -> Result<(), AllocError>
    ensures { OnOk result (out.new.items ≡ out.old.items ++ spec.start_text «module».now start.now) }
{
    put_start_line(alloc, out, module, start)?;
    put_values(alloc, out, start.values.as_slice())
}

fn put_starts(
    alloc: Global,
    out: &mut Vec<u8>,
    module: &Module,
    starts: &[Start],
) -> Result<(), AllocError>
    ensures { OnOk result (out.new.items ≡ out.old.items ++ flat_map (spec.start_text «module».now) starts.now) }
{
    for start in starts {
        put_start(alloc, out, module, start)?;
    }
    Ok(())
}

/// Who makes steps.
fn put_actor(alloc: Global, out: &mut Vec<u8>, actor: Actor) -> Result<(), AllocError>
    ensures { OnOk result (out.new.items ≡ out.old.items ++ spec.actor_text actor) }
{
    match actor {
        Actor::Thread(thread) => {
            out.extend_from_slice(b"t ")?;
            put_number(alloc, out, thread as u64)?;
            out.push(b' ')?;
            Ok(())
        }
        Actor::Collector => out.extend_from_slice(b"c "),
    }
}

/// A line of steps.
fn put_steps(alloc: Global, out: &mut Vec<u8>, steps: Steps) -> Result<(), AllocError>
    ensures { OnOk result (out.new.items ≡ out.old.items ++ spec.steps_line steps) }
{
    put_actor(alloc, out, steps.actor)?;
    put_number(alloc, out, steps.count as u64)?;
    out.extend_from_slice(b"\n")
}

fn put_all_steps(alloc: Global, out: &mut Vec<u8>, steps: &[Steps]) -> Result<(), AllocError>
    ensures { OnOk result (out.new.items ≡ out.old.items ++ flat_map spec.steps_line steps.now) }
{
    for steps in steps {
        put_steps(alloc, out, *steps)?;
    }
    Ok(())
}

/// The first line.
fn put_heading(out: &mut Vec<u8>, version: Version) -> Result<(), AllocError>
    ensures { OnOk result (out.new.items ≡ out.old.items ++ spec.heading_text version) }
{
    match version {
        Version::One => out.extend_from_slice(b"trace 1\n"),
        Version::Two => out.extend_from_slice(b"trace 2\n"),
    }
}

fn put_trace(
    alloc: Global,
    out: &mut Vec<u8>,
    trace: &Trace,
    module: &Module,
    layouts: u32,
) -> Result<(), AllocError>
    ensures { OnOk result (out.new.items ≡ out.old.items ++ spec.trace_lines «module».now layouts trace.now) }
{
    put_heading(out, version_of(trace.setup.starts.as_slice()))?;
    put_pools(alloc, out, module, layouts, &trace.setup.pools)?;
    put_starts(alloc, out, module, trace.setup.starts.as_slice())?;
    out.extend_from_slice(b"steps\n")?;
    put_all_steps(alloc, out, trace.steps.as_slice())?;
    out.extend_from_slice(b"end\n")
}

/// The text of a trace of this program. A program with more layouts than there are numbers takes more memory than there is.
pub fn print_trace(alloc: Global, trace: &Trace, program: &Program) -> Result<Vec<u8>, AllocError>
    ensures text { IfOk result (λ text. text.items ≡ spec.trace_shown program.now trace.now) }
    // What is printed of a trace of the program is a text of that trace.
    ensures read { IfOk result (λ text. AreNamed program.now → IsTraceOf program.now trace.now → IsTrace text.items program.now trace.now) }
{
    let Ok(layouts) = u32::try_from(program.layouts().count()) else {
        return Err(AllocError);
    };
    let mut out = Vec::new(alloc);
    put_trace(alloc, &mut out, trace, program.module(), layouts)?;
    Ok(out)
}
