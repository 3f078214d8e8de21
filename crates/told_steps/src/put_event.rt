//! An event in words.
use crate::events::Event;
use crate::heap_view::HeapView;
use crate::shade::{Shade, cycle_at, stage_name};
use ir_ast::Module;
use messages::Message;
use name_text::Blank;
use std::alloc::Global;

/// What the words of an event are made with: the heap, and the module that names globals.
#[derive(Clone, Copy)]
pub struct Names<'a> {
    pub alloc: Global,
    pub module: &'a Module,
    pub heap: &'a HeapView<'a>,
}

impl<'a> Names<'a> {
    fn put_number(&self, out: &mut Message, before: &str, number: u64) {
        out.put(before);
        out.put_number(number)
    }

    /// `cell 3`
    pub fn put_cell(&self, out: &mut Message, cell: u64) {
        self.put_number(out, "cell ", cell)
    }

    /// `@top`, or `word 1 of cell 3`
    pub fn put_word(&self, out: &mut Message, cell: u64, word: u32) {
        if cell == 0 {
            if let Some(global) = self.module.globals.get(word as usize) {
                return out.put_global(self.module, global.symbol, Blank::Kept);
            }
        }
        self.put_number(out, "word ", u64::from(word));
        out.put(" of ");
        self.put_cell(out, cell)
    }

    /// What a word holds: `cell 3`, `null`, or `7`.
    fn put_value(&self, out: &mut Message, cell: u64, word: u32, value: u64) {
        if !self.heap.is_reference(cell, word) {
            return out.put_number(value);
        }
        if value == 0 {
            out.put("null")
        } else {
            self.put_cell(out, value)
        }
    }

    /// `Sync1(2)`
    fn put_stage(&self, out: &mut Message, stage: u64) {
        out.put(stage_name(stage));
        self.put_number(out, "(", cycle_at(stage));
        out.put(")")
    }

    fn put_read(&self, out: &mut Message, verb: &str, cell: u64, word: u32, value: u64) {
        out.put(verb);
        self.put_word(out, cell, word);
        out.put(" = ");
        self.put_value(out, cell, word, value)
    }

    fn put_stored(&self, out: &mut Message, verb: &str, cell: u64, word: u32, values: (u64, u64)) {
        let (before, value) = values;
        out.put(verb);
        self.put_value(out, cell, word, value);
        out.put(" into ");
        self.put_word(out, cell, word);
        out.put(", which held ");
        self.put_value(out, cell, word, before)
    }

    fn put_marked(&self, out: &mut Message, verb: &str, cell: u64, before: Shade) {
        out.put(verb);
        self.put_cell(out, cell);
        out.put(", ");
        out.put(before.name());
        match before {
            Shade::White => out.put(", grey now"),
            _ => out.put(" already"),
        }
    }

    fn put_shaded(&self, out: &mut Message, verb: &str, cell: u64, shade: Shade) {
        out.put(verb);
        self.put_cell(out, cell);
        out.put(" is ");
        out.put(shade.name())
    }

    fn put_staged(&self, out: &mut Message, verb: &str, stage: u64) {
        out.put(verb);
        self.put_stage(out, stage)
    }
}

/// What a thread does on the heap.
fn put_on_heap(names: &Names, out: &mut Message, event: &Event) {
    match *event {
        Event::Read { cell, word, value } => names.put_read(out, "reads ", cell, word, value),
        Event::ReadOld { cell, word, value } => {
            names.put_read(out, "barrier: reads ", cell, word, value)
        }
        Event::Store {
            cell,
            word,
            value,
            before,
        } => names.put_stored(out, "stores ", cell, word, (before, value)),
        Event::StoreLast {
            cell,
            word,
            value,
            before,
        } => names.put_stored(out, "barrier: stores ", cell, word, (before, value)),
        Event::Mark { cell, before } => names.put_marked(out, "barrier: marks ", cell, before),
        Event::MarkRoot { cell, before } => names.put_marked(out, "marks the root ", cell, before),
        Event::Claim { cell, after } => {
            out.put("claims ");
            names.put_cell(out, cell);
            out.put(", ");
            out.put(after.name())
        }
        Event::Taken { cell } => {
            out.put("tries ");
            names.put_cell(out, cell);
            out.put(", which is not free")
        }
        _ => put_handshake(names, out, event),
    }
}

/// What a thread does of a handshake.
fn put_handshake(names: &Names, out: &mut Message, event: &Event) {
    match *event {
        Event::Nothing => out.put("has no step left"),
        Event::Local => out.put("local"),
        Event::FromOutside(value) => {
            names.put_number(out, "takes ", value);
            out.put(" from outside")
        }
        Event::Wrong => out.put("goes wrong: the instruction has no meaning here"),
        Event::Poll => out.put("safepoint: nothing is asked"),
        Event::SeePosted(stage) => {
            names.put_staged(out, "safepoint: ", stage);
            out.put(" is asked")
        }
        Event::Answer(stage) => names.put_staged(out, "answers ", stage),
        Event::End => out.put("ends"),
        Event::Arrive(stage) => names.put_staged(out, "comes, and reads ", stage),
        Event::Enter(stage) => names.put_staged(out, "comes in at ", stage),
        Event::LookAgain(stage) => names.put_staged(out, "reads once more ", stage),
        _ => put_collecting(names, out, event),
    }
}

/// What the collector does before the trace.
fn put_collecting(names: &Names, out: &mut Message, event: &Event) {
    match *event {
        Event::Post(stage) => names.put_staged(out, "asks for ", stage),
        Event::Answered(thread) => {
            names.put_number(out, "wait: thread ", thread as u64);
            out.put(" has answered")
        }
        Event::Ended(thread) => {
            names.put_number(out, "wait: thread ", thread as u64);
            out.put(" is not under way")
        }
        Event::Wait(thread) => {
            names.put_number(out, "wait: thread ", thread as u64);
            out.put(" has not answered")
        }
        Event::MarkGlobals => out.put("marks the globals"),
        _ => put_sweeping(names, out, event),
    }
}

/// What the collector does in the trace and in the sweep.
fn put_sweeping(names: &Names, out: &mut Message, event: &Event) {
    match *event {
        Event::MarkFound { cell, before } => names.put_marked(out, "trace: marks ", cell, before),
        Event::Look { cell: 0, shade } => {
            out.put("trace: the globals are ");
            out.put(shade.name())
        }
        Event::Look { cell, shade } => names.put_shaded(out, "trace: ", cell, shade),
        Event::Scan { cell, word, value } => {
            names.put_read(out, "trace: finds ", cell, word, value)
        }
        Event::Blacken { cell: 0 } => out.put("trace: the globals are scanned, black now"),
        Event::Blacken { cell } => {
            out.put("trace: ");
            names.put_cell(out, cell);
            out.put(" is scanned, black now")
        }
        Event::Sweep { cell, shade } => names.put_shaded(out, "sweep: ", cell, shade),
        Event::Clear { cell, word } => {
            out.put("sweep: clears ");
            names.put_word(out, cell, word)
        }
        Event::Free { cell } => {
            out.put("sweep: ");
            names.put_cell(out, cell);
            out.put(" is white, freed")
        }
        _ => {}
    }
}

/// What a step does, in words.
pub fn put_event(names: &Names, out: &mut Message, event: &Event) {
    put_on_heap(names, out, event)
}
