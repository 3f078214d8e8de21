//! Replays of traces in which an actor stops for good.
use crate::done::printed_of;
use crate::texts::{CLAIMER, FOUR, PUBLISHER_AND_CLEARER, module_of};
use command_line::{Command, Explained, Forms, Paths, ReplayOptions, StepsTold, What, Written};
use commands::{Contents, STATUS_YES};
use std::alloc::{AllocError, Global};
use std::io;
use std::io::Write;
use std::rt::Runtime;
use std::thread::Threads;

const REPLAY: Command<'static> = Command {
    paths: Paths {
        of_module: Some("module.ll"),
        trace: Some("module.trace"),
        ..Paths::NONE
    },
    explained: Explained::Never,
    forms: Forms::Core,
    written: Written::NotAtAll,
    what: What::Replay(ReplayOptions {
        steps: StepsTold::NotTold,
        recorded: false,
    }),
};

/// A trace of some functions.
#[derive(Clone, Copy)]
struct Case {
    functions: &'static str,
    /// The lines of the trace before its steps.
    head: &'static str,
    /// The actor of each step: the number of a thread, or `c` for the collector.
    actors: &'static str,
}

const FULL_CYCLE: Case = Case {
    functions: FOUR,
    head: "trace 1\npool Node 1\nstart @four\nsteps\n",
    actors: "00000000c00cc00ccc000cccccccccc0000",
};

/// The thread begins late: it leaves once, and tries again.
const LATE_FULL_CYCLE: Case = Case {
    functions: FOUR,
    head: "trace 2\npool Node 1\nlate @four\nsteps\n",
    actors: "0c00c0cc00000000000ccc000cccccccccc000000",
};

const IN_THE_MIDDLE: Case = Case {
    functions: PUBLISHER_AND_CLEARER,
    head: "trace 1\npool Node 1\nstart @zero\nstart @one\nsteps\n",
    actors: "c11100000000ccc00cc000111ccc11000ccccccccccc001",
};

const THIRD_CLAIM: Case = Case {
    functions: CLAIMER,
    head: "trace 1\npool Node 1\nstart @thrice\nsteps\n",
    actors: "00c00cc00ccc00ccccccccccc00",
};

const CASES: [Case; 4] = [FULL_CYCLE, LATE_FULL_CYCLE, IN_THE_MIDDLE, THIRD_CLAIM];

/// A step of this actor, as a trace has it.
fn step_of(actor: u8) -> &'static str {
    match actor {
        b'0' => "t 0 1\n",
        b'1' => "t 1 1\n",
        _ => "c 1\n",
    }
}

/// The text of the trace in which this actor makes no step after this place.
fn stopped(alloc: Global, case: Case, last: usize, stops: u8) -> Result<Vec<u8>, AllocError> {
    let mut text = Vec::from_slice(alloc, case.head.as_bytes())?;
    for (place, actor) in case.actors.as_bytes().iter().enumerate() {
        if place <= last || *actor != stops {
            text.extend_from_slice(step_of(*actor).as_bytes())?;
        }
    }
    text.extend_from_slice(b"end\n")?;
    Ok(text)
}

/// Whether no step breaks the run of the trace in these files.
fn is_replayed(rt: &(impl Runtime + AllocGlobal + Threads + Sync), contents: &Contents) -> bool {
    let printed = printed_of(rt, &REPLAY, contents);
    let is_replayed = printed.status == STATUS_YES;
    drop(printed);
    is_replayed
}

/// Whether no step breaks the run in which this actor makes no step after this place.
fn is_sound(
    rt: &(impl Runtime + AllocGlobal + Threads + Sync),
    case: Case,
    last: usize,
    stops: u8,
) -> Result<bool, AllocError> {
    let of_module = module_of(rt.alloc(), case.functions)?;
    let trace = stopped(rt.alloc(), case, last, stops)?;
    let contents = Contents {
        of_module: Some(of_module),
        certificate: None,
        shapes: None,
        trace: Some(trace),
        edits: None,
        of_record: None,
        list: None,
        why: None,
    };
    let is_sound = is_replayed(rt, &contents);
    drop(contents);
    Ok(is_sound)
}

/// For how many steps of a trace no step breaks the run in which the actor of that step makes no further one.
fn sound_stops(
    rt: &(impl Runtime + AllocGlobal + Threads + Sync),
    case: Case,
) -> Result<u32, AllocError> {
    let mut sound = 0u32;
    for (last, stops) in case.actors.as_bytes().iter().enumerate() {
        if is_sound(rt, case, last, *stops)? {
            sound = sound.saturating_add(1);
        }
    }
    Ok(sound)
}

/// Writes for how many steps of a trace its actor may make no further one.
fn write_stop(
    rt: &(impl Runtime + AllocGlobal + Threads + Sync),
    case: Case,
    lines: &mut Vec<u8>,
) -> io::Result<()> {
    let sound = sound_stops(rt, case)?;
    write!(lines, " {sound} of {}", case.actors.len())
}

/// Writes this for each trace.
pub fn write_stops(
    rt: &(impl Runtime + AllocGlobal + Threads + Sync),
    lines: &mut Vec<u8>,
) -> io::Result<()> {
    write!(lines, "lets_actors_stop_for_good:")?;
    for case in CASES.as_slice() {
        write_stop(rt, *case, lines)?;
    }
    writeln!(lines, "")
}
