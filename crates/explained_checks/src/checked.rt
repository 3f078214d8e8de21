//! Checks the files of a check, or makes certificates of a module, for an explainer that sees it.
use crate::explainer::Explainer;
use crate::traced::put_trace;
use block_rules::BlockFault;
use cert_maker::{MakeFault, NotMade, make_seen};
use certs::Certs;
use fault_texts::TracedTexts;
use ir_ast::Module;
use layout::Program;
use module_check::{Reason, UnderCheck, Witness, fault_in_module};
use reports::{Certified, Files, Findings, read_certified, shaped_in};

/// The first refusal in a program is seen. Where there is none, the first fault of a trace is told, if one is to be run.
fn see_program(
    seen: &mut Explainer<'_>,
    to_run: Option<TracedTexts>,
    program: &Program,
    certs: &Certs,
) {
    match fault_in_module(seen.pen.alloc, program, certs) {
        Some(BlockFault::Refused(refusal)) => { seen.refused(program, certs, [refusal].as_slice()) }
        Some(BlockFault::Memory) => seen.out.refuse(),
        None => {
            if let Some(texts) = to_run {
                put_trace(seen.pen, &mut seen.out, texts, program)
            }
        }
    }
}

/// Why no instruction of a module is checked.
fn see_reason(seen: &mut Explainer<'_>, verdict: Reason) {
    match verdict {
        Reason::Layout(fault) => seen.no_layouts(fault),
        _ => seen.out.refuse(),
    }
}

/// Checks a module with its certificates.
fn see_certified(seen: &mut Explainer<'_>, to_run: Option<TracedTexts>, certified: Certified) {
    match UnderCheck::new(seen.pen.alloc, certified.of_module, certified.certs) {
        Ok(under) => {
            see_program(seen, to_run, under.program(), under.certs());
            drop(under);
        }
        Err(refused) => {
            see_reason(seen, refused.verdict);
            drop(refused);
        }
    }
}

/// Reads and checks a module with its certificate. The trace of these texts is read where it is accepted.
pub(crate) fn see_check(seen: &mut Explainer<'_>, to_run: Option<TracedTexts>, files: &Files<'_>) {
    match read_certified(seen.pen.alloc, files) {
        Ok(certified) => see_certified(seen, to_run, certified),
        Err(unread) => {
            seen.not_read(&unread);
            drop(unread);
        }
    }
}

/// Why no certificates were tried, where none were refused.
fn see_unmade(seen: &mut Explainer<'_>, unmade: &NotMade) {
    match (unmade.fault, &unmade.refused) {
        (MakeFault::Layout(fault), _) => seen.no_layouts(fault),
        (MakeFault::Memory, None) => seen.out.refuse(),
        _ => {}
    }
}

/// Makes certificates of a module.
fn see_made(seen: &mut Explainer<'_>, of_module: Module) {
    match make_seen(seen.pen.alloc, of_module, seen) {
        Ok(made) => drop(made),
        Err(unmade) => {
            see_unmade(seen, &unmade);
            drop(unmade);
        }
    }
}

/// Reads a module with its shapes, and makes certificates of it.
pub(crate) fn see_make(seen: &mut Explainer<'_>, files: &Files<'_>) {
    match shaped_in(seen.pen.alloc, files) {
        Ok(of_module) => see_made(seen, of_module),
        Err(unread) => {
            seen.not_read(&unread);
            drop(unread);
        }
    }
}
