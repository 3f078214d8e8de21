//! The lines before those of the steps: the run, its break, threads, pools, globals, and the text of the module.
use crate::going::go_to;
use crate::heap_view::HeapView;
use crate::json_lines::{BrokenLine, GlobalLine, PoolLine, RunLine, TextLine, ThreadLine};
use crate::json_texts::{function_name, put_line, text_in, thread_in};
use crate::listing::Listing;
use crate::paths::{path_to, put_path_to};
use crate::put_event::Names;
use crate::told::Told;
use ir_ast::{FuncId, SymbolId};
use messages::Message;
use moves::Cause;
use name_text::Blank;
use pools::{LayoutId, WordKind};
use replay::{Break, BreakCause};
use std::alloc::{AllocError, Global};
use step_log::StepLog;
use stepping::Gone;

/// How the lines are to be read.
const FORMAT: u32 = 1;

/// The cell that a cause is about.
fn cell_of(cause: &BreakCause) -> Option<u64> {
    match cause {
        BreakCause::OfStep(Cause::Wrong) => None,
        BreakCause::OfStep(Cause::TouchBlue(cell) | Cause::TouchBirth(cell)) => Some(*cell),
        BreakCause::OfReach(Gone::Blue(cell) | Gone::Reborn(cell)) => Some(*cell),
    }
}

/// The line of the run, of whose steps this is the first that is written.
fn put_run(alloc: Global, out: &mut Message, told: &Told, first: usize) {
    let line = RunLine {
        cells: told.setup.pools.cells(),
        first,
        format: FORMAT,
        kind: "run",
        steps: told.steps,
    };
    put_line(alloc, out, &line)
}

/// The path that leads to a cell; empty where there is none.
fn put_path(names: &Names, out: &mut Message, log: &StepLog, cell: u64) {
    let Ok(path) = path_to(names.alloc, names.heap, log, cell) else {
        return out.refuse();
    };
    put_path_to(names, out, log, &path, cell);
    drop(path);
}

/// The path that leads to the cell after the last step. No step is made so far.
fn put_path_after(alloc: Global, out: &mut Message, told: &Told, log: &mut StepLog, cell: u64) {
    let Ok(mut heap) = HeapView::new(alloc, told.program, told.setup) else {
        return out.refuse();
    };
    match go_to(log, &mut heap, told.steps.saturating_add(1)) {
        Ok(_last) => {
            let names = Names {
                alloc,
                module: told.program.module(),
                heap: &heap,
            };
            put_path(&names, out, log, cell)
        }
        Err(_) => out.refuse(),
    }
    drop(heap);
}

/// The path that leads to the cell of a broken run after its last step, in words; empty where there is none. No step is made so far.
pub fn path_of_break(alloc: Global, told: &Told, log: &mut StepLog) -> Result<Vec<u8>, AllocError> {
    let mut path = Message::new(alloc);
    if let Some(broken) = told.broken {
        if let Some(cell) = cell_of(&broken.cause) {
            put_path_after(alloc, &mut path, told, log, cell);
        }
    }
    path.finish()
}

/// The line of a break, to whose cell this path leads.
fn put_broken(alloc: Global, out: &mut Message, broken: &Break, path: &[u8]) {
    let Ok(cause) = broken.cause.to_string(alloc) else {
        return out.refuse();
    };
    let line = BrokenLine {
        cause: cause.as_str(),
        cell: cell_of(&broken.cause),
        kind: "broken",
        path: text_in(path),
        step: broken.step,
        thread: thread_in(&broken.actor),
    };
    put_line(alloc, out, &line)
}

fn put_thread(names: &Names, out: &mut Message, number: usize, function: FuncId) {
    let Ok(name) = function_name(names, function) else {
        return out.refuse();
    };
    let line = ThreadLine {
        function: text_in(name.as_slice()),
        kind: "thread",
        thread: number,
    };
    put_line(names.alloc, out, &line)
}

fn put_threads(names: &Names, out: &mut Message, told: &Told) {
    for (number, start) in told.setup.starts.as_slice().iter().enumerate() {
        put_thread(names, out, number, start.function);
    }
}

/// The numbers of the words that hold references.
fn references(alloc: Global, kinds: &[WordKind]) -> Result<Vec<usize>, AllocError> {
    let mut words = Vec::new(alloc);
    for (word, kind) in kinds.iter().enumerate() {
        if let WordKind::Reference(_) = kind {
            words.push(word)?;
        }
    }
    Ok(words)
}

/// The name of a layout.
fn layout_name(names: &Names, layout: LayoutId) -> Result<Vec<u8>, AllocError> {
    let mut name = Message::new(names.alloc);
    name.put_layout(names.module, layout, Blank::Kept);
    name.finish()
}

/// The line of a pool with this many cells, of which this is the first.
fn put_pool(
    names: &Names,
    out: &mut Message,
    layout: LayoutId,
    kinds: &[WordKind],
    first: u32,
    cells: u32,
) {
    let Ok(words) = references(names.alloc, kinds) else {
        return out.refuse();
    };
    let Ok(name) = layout_name(names, layout) else {
        return out.refuse();
    };
    let line = PoolLine {
        cells,
        first,
        kind: "pool",
        layout: text_in(name.as_slice()),
        references: words.as_slice(),
    };
    put_line(names.alloc, out, &line)
}

fn put_pools(names: &Names, out: &mut Message, told: &Told) {
    let layouts = told.program.layouts();
    let mut first: u32 = 1;
    for number in 0..layouts.count() {
        let Ok(number) = u32::try_from(number) else {
            return;
        };
        let layout = LayoutId::new(number);
        let cells = told.setup.pools.count(layout);
        put_pool(names, out, layout, layouts.words(layout), first, cells);
        first = first.saturating_add(cells);
    }
}

/// The name of a global.
fn global_name(names: &Names, symbol: SymbolId) -> Result<Vec<u8>, AllocError> {
    let mut name = Message::new(names.alloc);
    name.put_global(names.module, symbol, Blank::Kept);
    name.finish()
}

fn put_global_line(names: &Names, out: &mut Message, word: u32, symbol: SymbolId) {
    let Ok(name) = global_name(names, symbol) else {
        return out.refuse();
    };
    let line = GlobalLine {
        kind: "global",
        name: text_in(name.as_slice()),
        reference: names.heap.is_reference(0, word),
        value: names.heap.word(0, word),
    };
    put_line(names.alloc, out, &line)
}

fn put_globals(names: &Names, out: &mut Message) {
    for (word, global) in names.module.globals.as_slice().iter().enumerate() {
        let Ok(word) = u32::try_from(word) else {
            return;
        };
        put_global_line(names, out, word, global.symbol);
    }
}

fn put_text(alloc: Global, out: &mut Message, listing: &Listing) {
    for number in 0..listing.lines() {
        let line = TextLine {
            kind: "text",
            line: number,
            text: text_in(listing.line(number)),
        };
        put_line(alloc, out, &line);
    }
}

/// The lines before those of the steps, of which this is the first that is written. The heap is as before it.
pub fn put_heads(
    names: &Names,
    out: &mut Message,
    told: &Told,
    listing: &Listing,
    path: &[u8],
    first: usize,
) {
    put_run(names.alloc, out, told, first);
    if let Some(broken) = told.broken {
        put_broken(names.alloc, out, broken, path);
    }
    put_threads(names, out, told);
    put_pools(names, out, told);
    put_globals(names, out);
    put_text(names.alloc, out, listing)
}
