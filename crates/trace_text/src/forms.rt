//! Names and numbers of a trace's text.
ghost use Rattle.trace_text.specs.Arrivals as arrivals;
ghost use Rattle.trace_text.specs.Forms as form;
ghost use Rattle.name_text.specs.Reader.{Reads};

use crate::input::{Input, WordFault};
use crate::mistake::TraceMistake;
use crate::naming::{function_of_word, layout_of_word};
use crate::numbers::count_of_word;
use crate::trace::{Arrival, STEP_LIMIT};
use crate::versions::{Version, arrival_of_word, version_of_word};
use ir_ast::{FuncId, Module};
use moves::Actor;
use name_text::number_of_word;
use pools::LayoutId;
use std::alloc::Global;

/// The name of a defined function.
#[tactic(auto, unfolding(crate::specs::Forms::function_name, name_text::specs::Forms::skip))]
pub fn function_name(
    alloc: Global,
    input: &mut Input<'_>,
    module: &Module,
) -> Result<FuncId, WordFault>
    ensures { Reads ((form.function_name «module».now).read input.old) result input.new }
{
    match function_of_word(alloc, module, input.word())? {
        None => Err(WordFault::Syntax(input.left())),
        Some(function) => {
            input.skip();
            Ok(FuncId::new(function))
        }
    }
}

/// The name of a layout whose pool is not listed so far.
#[tactic(auto, unfolding(crate::specs::Forms::new_layout, name_text::specs::Forms::skip))]
pub fn new_layout(
    alloc: Global,
    input: &mut Input<'_>,
    module: &Module,
) -> Result<LayoutId, WordFault>
    ensures { Reads ((form.new_layout «module».now).read input.old) result input.new }
{
    match layout_of_word(alloc, module, input.word())? {
        None => Err(WordFault::Syntax(input.left())),
        Some(layout) => match input.read.counts().get(layout as usize) {
            Some(None) => {
                input.skip();
                Ok(LayoutId::new(layout))
            }
            _ => Err(WordFault::Syntax(input.left())),
        },
    }
}

/// How many cells a pool has.
#[tactic(auto, unfolding(crate::specs::Forms::cell_count, name_text::specs::Forms::skip))]
pub fn cell_count(input: &mut Input<'_>) -> Result<u32, WordFault>
    ensures { Reads (form.cell_count.read input.old) result input.new }
{
    match count_of_word(input.word()) {
        None => Err(WordFault::Syntax(input.left())),
        Some(count) => {
            input.skip();
            Ok(count)
        }
    }
}

/// An argument.
#[tactic(auto, unfolding(crate::specs::Forms::argument, name_text::specs::Forms::skip))]
pub fn argument(input: &mut Input<'_>) -> Result<u64, WordFault>
    ensures { Reads (form.argument.read input.old) result input.new }
{
    match number_of_word(input.word()) {
        None => Err(WordFault::Syntax(input.left())),
        Some(number) => {
            input.skip();
            Ok(number)
        }
    }
}

/// The number of a thread.
#[tactic(auto, unfolding(crate::specs::Forms::thread, name_text::specs::Forms::skip))]
pub fn thread(input: &mut Input<'_>) -> Result<u32, WordFault>
    ensures { Reads (form.thread.read input.old) result input.new }
{
    match count_of_word(input.word()) {
        None => Err(WordFault::Syntax(input.left())),
        Some(thread) => {
            if thread as usize >= input.read.threads() {
                return Err(WordFault::Wrong(TraceMistake::NoThread(input.left())));
            }
            input.skip();
            Ok(thread)
        }
    }
}

/// How many steps an actor makes.
#[tactic(auto, unfolding(crate::specs::Forms::step_count, crate::specs::Forms::put_steps, name_text::specs::Forms::skip))]
pub fn step_count(input: &mut Input<'_>, actor: Actor) -> Result<(), WordFault>
    ensures { Reads ((form.step_count actor).read input.old) result input.new }
{
    match count_of_word(input.word()) {
        None => Err(WordFault::Syntax(input.left())),
        Some(count) => {
            if input.read.made_with(count) > STEP_LIMIT {
                return Err(WordFault::Wrong(TraceMistake::TooManySteps(input.left())));
            }
            input.read.put_steps(actor, count)?;
            input.skip();
            Ok(())
        }
    }
}

/// The version of the text.
#[tactic(auto, unfolding(crate::specs::Arrivals::version, name_text::specs::Forms::skip))]
pub fn version(input: &mut Input<'_>) -> Result<Version, WordFault>
    ensures { Reads (arrivals.version.read input.old) result input.new }
{
    match version_of_word(input.word()) {
        None => Err(WordFault::Syntax(input.left())),
        Some(version) => {
            input.skip();
            Ok(version)
        }
    }
}

/// The first word of a thread's line.
#[tactic(auto, unfolding(crate::specs::Arrivals::arrival, name_text::specs::Forms::skip))]
pub fn arrival(input: &mut Input<'_>, version: Version) -> Result<Arrival, WordFault>
    ensures { Reads ((arrivals.arrival version).read input.old) result input.new }
{
    match arrival_of_word(version, input.word()) {
        None => Err(WordFault::Syntax(input.left())),
        Some(arrival) => {
            input.skip();
            Ok(arrival)
        }
    }
}
