//! Reads the files of a replay or a soak again, and explains the first fault of their texts.
use crate::explained::{named, put_unread};
use fault_texts::{CheckedTexts, TracedTexts, put_layout_fault, put_trace_fault};
use layout::Program;
use messages::{Message, Pen};
use reports::{Files, Unread, file_of, is_wide, read_traced};
use trace_text::read_trace;

/// The texts of a module and its trace.
pub(crate) fn traced_texts<'a>(files: &Files<'a>) -> TracedTexts<'a> {
    TracedTexts {
        of_module: named(file_of(files.of_module)),
        of_trace: named(files.trace),
    }
}

/// Reads a trace again, and explains its first fault.
pub(crate) fn put_trace(pen: Pen, out: &mut Message, texts: TracedTexts, program: &Program) {
    match read_trace(pen.alloc, texts.of_trace.text, program) {
        Ok(trace) => {
            drop(trace);
        }
        Err(fault) => put_trace_fault(pen, out, texts, &fault),
    }
}

/// Explains the first fault of the texts of the files.
fn put_untraced(
    pen: Pen,
    out: &mut Message,
    texts: TracedTexts,
    of_shapes: CheckedTexts,
    wide: bool,
    unread: &Unread,
) {
    match unread {
        Unread::NoTrace(fault) => put_trace_fault(pen, out, texts, fault),
        Unread::NoLayouts(refused) => {
            put_layout_fault(pen, out, texts.of_module, wide, refused.fault)
        }
        unread => put_unread(pen, out, of_shapes, wide, unread),
    }
}

/// What is told of the files: a module, a trace and shapes.
pub(crate) fn put_traced(pen: Pen, out: &mut Message, files: &Files<'_>) {
    let texts = traced_texts(files);
    let of_shapes = CheckedTexts {
        of_module: texts.of_module,
        of_certs: named(files.shapes),
    };
    match read_traced(pen.alloc, files) {
        Ok(traced) => {
            drop(traced);
        }
        Err(unread) => {
            put_untraced(
                pen,
                out,
                texts,
                of_shapes,
                is_wide(files.of_module),
                &unread,
            );
            drop(unread);
        }
    }
}
