//! The reader of traces.
ghost use Rattle.std.specs.Prelude.{◌≡◌, ◌≢◌, slice_get, IfOk, IfErr, Ok, Err};
ghost use Rattle.name_text.specs.Reader.{Reads};
ghost use Rattle.trace_text.specs.Input.{start_of};
ghost use Rattle.trace_text.specs.Arrivals.{past_starts};
ghost use Rattle.trace_text.specs.Text as text;
ghost use Rattle.trace_text.specs.Text.{IsTrace, IsFault, counts_of, count_or_none};
ghost use Rattle.trace_text.specs.Traces.{IsTraceOf};
ghost use Rattle.grammar.specs.Outcome.{Gives};
ghost use Rattle.grammar.specs.Whole.{value_of};
ghost use Rattle.trace_text.specs.declared.trace.Trace.{Trace as ATrace};
ghost use Rattle.trace_text.specs.declared.fault.TraceFault.{TraceFault as AFault};
ghost use Rattle.trace_text.specs.declared.fault.TraceFault.TheVariants as fault;
ghost use Rattle.name_text.specs.declared.found.WordFault.TheVariants.{Memory};

use crate::fault::TraceFault;
use crate::forms::{
    argument, arrival, cell_count, function_name, new_layout, step_count, thread, version,
};
use crate::input::{Input, WordFault};
use crate::mistake::TraceMistake;
use crate::progress::TraceProgress;
use crate::trace::{Setup, THREAD_LIMIT, Trace};
use crate::versions::{Version, arrival_of_word};
use ir_ast::Module;
use items::Items;
use layout::Program;
use moves::Actor;
use name_text::place;
use pools::{Pools, PoolsFault};
use std::alloc::{AllocError, Global};

/// How many cells a layout has.
#[tactic(auto, unfolding(crate::specs::Text::pool, crate::specs::Forms::put_pool))]
fn pool(alloc: Global, input: &mut Input<'_>, module: &Module) -> Result<(), WordFault>
    ensures { Reads ((text.pool «module».now).read input.old) result input.new }
{
    input.expect(b"pool")?;
    let layout = new_layout(alloc, input, module)?;
    let count = cell_count(input)?;
    input.line_end()?;
    input.read.put_pool(layout, count);
    Ok(())
}

fn past_pools(input: &Input<'_>) -> bool
    ensures { result ≡ text.past_pools input.now }
{
    !input.begins(b"pool")
}

#[tactic(auto, unfolding(crate::specs::Text::pools))]
fn pools(alloc: Global, input: &mut Input<'_>, module: &Module) -> Result<(), WordFault>
    ensures { Reads ((text.pools «module».now).read input.old) result input.new }
{
    for _turn in 0..input.left() + 1 {
        if past_pools(input) {
            return Ok(());
        }
        pool(alloc, input, module)?;
    }
    Ok(())
}

/// Arguments up to the line's end.
#[tactic(auto, unfolding(crate::specs::Text::arguments))]
fn arguments(alloc: Global, input: &mut Input<'_>) -> Result<Items<u64>, WordFault>
    ensures { Reads (text.arguments.read input.old) result input.new }
{
    let mut arguments = Items::new(alloc);
    for _turn in 0..input.left() + 1 {
        if input.line_ends() {
            return Ok(arguments);
        }
        arguments.push(argument(input)?)?;
    }
    Ok(arguments)
}

/// Whether a line of numbers from outside comes here, in a text of the wide forms.
fn has_values(input: &Input<'_>, module: &Module) -> bool
    ensures { result ≡ text.has_values «module».now input.now }
{
    module.wide && input.begins(b"values")
}

/// The numbers that a thread gets from outside, in the line after its own; none where there is no such line.
#[tactic(auto, unfolding(crate::specs::Text::values))]
fn values(alloc: Global, input: &mut Input<'_>, module: &Module) -> Result<Items<u64>, WordFault>
    ensures { Reads ((text.values «module».now).read input.old) result input.new }
{
    if !has_values(input, module) {
        return Ok(Items::new(alloc));
    }
    input.expect(b"values")?;
    let values = arguments(alloc, input)?;
    input.line_end()?;
    Ok(values)
}

/// How a thread begins.
#[tactic(auto, unfolding(crate::specs::Text::start, crate::specs::Forms::put_start))]
fn start(
    alloc: Global,
    input: &mut Input<'_>,
    module: &Module,
    version: Version,
) -> Result<(), WordFault>
    ensures { Reads ((text.start «module».now version).read input.old) result input.new }
{
    if input.read.threads() >= THREAD_LIMIT {
        return Err(WordFault::Syntax(input.left()));
    }
    let arrival = arrival(input, version)?;
    let function = function_name(alloc, input, module)?;
    let arguments = arguments(alloc, input)?;
    input.line_end()?;
    let values = values(alloc, input, module)?;
    input.read.put_start(arrival, function, arguments, values)?;
    Ok(())
}

fn past_starts(input: &Input<'_>, version: Version) -> bool
    ensures { result ≡ past_starts version input.now }
{
    arrival_of_word(version, input.word()).is_none()
}

#[tactic(auto, unfolding(crate::specs::Text::starts))]
fn starts(
    alloc: Global,
    input: &mut Input<'_>,
    module: &Module,
    version: Version,
) -> Result<(), WordFault>
    ensures { Reads ((text.starts «module».now version).read input.old) result input.new }
{
    for _turn in 0..input.left() + 1 {
        if past_starts(input, version) {
            return Ok(());
        }
        start(alloc, input, module, version)?;
    }
    Ok(())
}

/// A line of steps.
#[tactic(auto, unfolding(crate::specs::Text::steps_line, name_text::specs::Forms::skip))]
fn steps_line(input: &mut Input<'_>) -> Result<(), WordFault>
    ensures { Reads (text.steps_line.read input.old) result input.new }
{
    if input.begins(b"t") {
        input.skip();
        let thread = thread(input)?;
        step_count(input, Actor::Thread(thread))?;
    } else {
        input.expect(b"c")?;
        step_count(input, Actor::Collector)?;
    }
    input.line_end()
}

fn past_steps(input: &Input<'_>) -> bool
    ensures { result ≡ text.past_steps input.now }
{
    input.begins(b"end")
}

#[tactic(auto, unfolding(crate::specs::Text::all_steps))]
fn all_steps(input: &mut Input<'_>) -> Result<(), WordFault>
    ensures { Reads (text.all_steps.read input.old) result input.new }
{
    for _turn in 0..input.left() + 1 {
        if past_steps(input) {
            return Ok(());
        }
        steps_line(input)?;
    }
    Ok(())
}

fn count_at(counts: &[Option<u32>], layout: usize) -> u32
    ensures { result ≡ count_or_none (slice_get counts.now layout) }
{
    match counts.get(layout) {
        Some(Some(count)) => *count,
        _ => 0,
    }
}

/// How many cells each of the layouts has.
fn counts_of(
    alloc: Global,
    layouts: usize,
    listed: &[Option<u32>],
) -> Result<Items<u32>, AllocError>
    ensures { IfOk result (λ counts. counts ≡ counts_of layouts listed.now) }
{
    let mut counts = Items::new(alloc);
    for layout in 0..layouts {
        counts.push(count_at(listed, layout))?;
    }
    Ok(counts)
}

/// The pools of a program with these counts, where their cells are within the limit. More layouts than there are numbers
/// take more memory than there is.
fn pools_of(
    alloc: Global,
    program: &Program,
    listed: &[Option<u32>],
) -> Result<Option<Pools>, AllocError>
    ensures { IfOk result (λ pools. pools ≡ text.pools_of program.now listed.now) }
{
    let layouts = program.layouts();
    if u32::try_from(layouts.count()).is_err() {
        return Err(AllocError);
    }
    let counts = counts_of(alloc, layouts.count(), listed)?;
    match Pools::new(alloc, layouts, counts.as_slice()) {
        Ok(pools) => Ok(Some(pools)),
        Err(PoolsFault::TooManyCells) => Ok(None),
        Err(_) => Err(AllocError),
    }
}

/// The trace, where its cells are within the limit.
#[tactic(auto, unfolding(crate::specs::Text::finished))]
fn finished(alloc: Global, input: &mut Input<'_>, program: &Program) -> Result<Trace, WordFault>
    ensures { Reads ((text.finished program.now).read input.old) result input.new }
{
    let Some(pools) = pools_of(alloc, program, input.read.counts())? else {
        return Err(WordFault::Wrong(TraceMistake::TooManyCells));
    };
    let (starts, steps) = input.read.take_all(alloc);
    Ok(Trace {
        setup: Setup { pools, starts },
        steps,
    })
}

/// The first line.
#[tactic(auto, unfolding(crate::specs::Text::heading))]
fn heading(input: &mut Input<'_>) -> Result<Version, WordFault>
    ensures { Reads (text.heading.read input.old) result input.new }
{
    input.expect(b"trace")?;
    let version = version(input)?;
    input.line_end()?;
    Ok(version)
}

/// Pools and threads.
#[tactic(auto, unfolding(crate::specs::Text::setup))]
fn setup(
    alloc: Global,
    input: &mut Input<'_>,
    module: &Module,
    version: Version,
) -> Result<(), WordFault>
    ensures { Reads ((text.setup «module».now version).read input.old) result input.new }
{
    pools(alloc, input, module)?;
    starts(alloc, input, module, version)
}

/// Steps up to the text's end.
#[tactic(auto, unfolding(crate::specs::Text::steps))]
fn steps(input: &mut Input<'_>) -> Result<(), WordFault>
    ensures { Reads (text.steps.read input.old) result input.new }
{
    input.expect(b"steps")?;
    input.line_end()?;
    all_steps(input)?;
    input.expect(b"end")?;
    input.line_end()?;
    if !input.ended() {
        return Err(WordFault::Syntax(input.left()));
    }
    Ok(())
}

#[tactic(auto, unfolding(crate::specs::Text::file))]
fn file(alloc: Global, input: &mut Input<'_>, program: &Program) -> Result<Trace, WordFault>
    ensures { Reads ((text.file program.now).read input.old) result input.new }
{
    let version = heading(input)?;
    setup(alloc, input, program.module(), version)?;
    steps(input)?;
    finished(alloc, input, program)
}

fn trace_of(alloc: Global, bytes: &[u8], program: &Program) -> Result<Trace, WordFault>
    ensures { Gives Memory result (value_of ((text.file program.now).read (start_of program.now bytes.now))) }
{
    let mut input = Input::new(bytes, TraceProgress::new(alloc, program.layouts().count())?);
    file(alloc, &mut input, program)
}

/// The fault with its line and column.
fn placed(bytes: &[u8], found: WordFault) -> TraceFault
    ensures { result ≡ text.placed bytes.now found }
{
    match found {
        WordFault::Syntax(rest) => TraceFault::Syntax(place(bytes, rest)),
        WordFault::Wrong(TraceMistake::NoThread(rest)) => TraceFault::NoThread(place(bytes, rest)),
        WordFault::Wrong(TraceMistake::TooManySteps(rest)) => TraceFault::TooManySteps(place(
            bytes, rest,
        )),
        WordFault::Wrong(TraceMistake::TooManyCells) => TraceFault::TooManyCells,
        WordFault::Memory => TraceFault::Memory,
    }
}

/// Reads a trace for a program.
pub fn read_trace(alloc: Global, bytes: &[u8], program: &Program) -> Result<Trace, TraceFault>
    // What is read is a text of this trace.
    ensures found { IfOk result (λ trace. IsTrace bytes.now program.now trace) }
    // It is a trace of the program, within the limits.
    ensures of_program { IfOk result (IsTraceOf program.now) }
    // What is a text of some trace is read, unless memory runs out.
    ensures only { (trace : ATrace) → IsTrace bytes.now program.now trace → Gives fault.Memory result (Ok trace) }
    // What is refused is refused for its first fault.
    ensures fault { IfErr result (λ e. e ≢ fault.Memory → IsFault bytes.now program.now e) }
    // What has a first fault is refused for it, unless memory runs out.
    ensures only_fault { (e : AFault) → IsFault bytes.now program.now e → Gives fault.Memory result (Err e) }
{
    match trace_of(alloc, bytes, program) {
        Ok(trace) => Ok(trace),
        Err(found) => Err(placed(bytes, found)),
    }
}
