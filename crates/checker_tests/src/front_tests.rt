//! Texts that are cut at each of their bytes: modules, certificates and a trace.
use crate::fronts::{Front, Fronts, NONE, Reader, cut_certificates, cut_module, fronts_of};
use crate::texts::{
    HEAD, LEAF_AND_TOP, LEAF_AND_TOP_CERTIFICATES, PUBLISHER_AND_CLEARER, SIX, SIX_AS_PRINTED,
    SIX_AS_PRINTED_CERTIFICATES, SIX_CERTIFICATES, TWO, joined,
};
use certificate::read_cert;
use ir_ast::Module;
use ir_text::read;
use layout::Program;
use std::alloc::{AllocError, Global};
use trace_text::{TraceFault, read_trace};

/// Reads modules. Their parts are what they define and declare.
#[derive(Drop)]
struct Modules {
    alloc: Global,
}

/// How many structs, globals and functions a module defines and declares.
fn items_of(of_module: &Module) -> usize {
    let (structs, globals) = (of_module.structs.len(), of_module.globals.len());
    let (declares, functions) = (of_module.declares.len(), of_module.functions.len());
    structs
        .saturating_add(globals)
        .saturating_add(declares)
        .saturating_add(functions)
}

impl Reader for Modules {
    fn front(&self, text: &[u8]) -> Front {
        match read(self.alloc, text) {
            Ok(of_module) => {
                let items = items_of(&of_module);
                drop(of_module);
                Front::Read(items)
            }
            Err(fault) => cut_module(&fault, text),
        }
    }
}

/// The fronts of the module of these texts.
fn module_fronts(alloc: Global, texts: &[&str]) -> Result<Fronts, AllocError> {
    let text = joined(alloc, texts)?;
    Ok(fronts_of(&Modules { alloc }, text.as_slice()))
}

/// The fronts of three modules, the last one as a compiler prints it.
fn all_module_fronts(alloc: Global) -> Result<[Fronts; 3], AllocError> {
    Ok([
        module_fronts(alloc, [HEAD, TWO].as_slice())?,
        module_fronts(alloc, [HEAD, SIX].as_slice())?,
        module_fronts(alloc, [SIX_AS_PRINTED].as_slice())?,
    ])
}

// A module with a line for each item is read where it is cut before or after a line end, and has the items before it. The empty
// front has none. After the `)` of a declared function a word is read without effect: `d` to `declar` before the four lines
// that begin with `declare`, and `d` to `defin` before the one that begins with `define`.
//
// Before the items of the third one are two lines more. After the value of the global `, a` to `, alig` are read, as words without
// effect, and `, align 8`: five fronts more. After the function comes a line of attributes, with two fronts. Four lines begin with
// `!`, and are read wherever they are not cut within quotes: at 21, 21, 21 and 10 places, and after three line ends.
#[test]
fn reads_each_front_of_modules(rt: HostRuntime) -> Result<(), AllocError> {
    assert_eq!(rt;
        all_module_fronts(rt.alloc())?,
        [
            ([1, 2, 2, 8, 8, 8, 8, 7, 1], 516, 0),
            ([1, 2, 2, 8, 8, 8, 8, 7, 1], 664, 0),
            ([5, 2, 7, 8, 8, 8, 8, 7, 80], 977, 0),
        ]
    );
    Ok(())
}

/// Reads certificates of a module. Their parts are their sections.
#[derive(Drop)]
struct Certificates<'a> {
    alloc: Global,
    of_module: &'a Module,
}

impl<'a> Reader for Certificates<'a> {
    fn front(&self, text: &[u8]) -> Front {
        match read_cert(self.alloc, text, self.of_module) {
            Ok(certs) => {
                let sections = certs.sections.as_slice().len();
                drop(certs);
                Front::Read(sections)
            }
            Err(fault) => cut_certificates(fault),
        }
    }
}

/// The fronts of certificates of the module of these texts.
fn certificate_fronts(
    alloc: Global,
    texts: &[&str],
    certificates: &str,
) -> Result<Fronts, AllocError> {
    let text = joined(alloc, texts)?;
    match read(alloc, text.as_slice()) {
        Ok(of_module) => {
            let reader = Certificates {
                alloc,
                of_module: &of_module,
            };
            let fronts = fronts_of(&reader, certificates.as_bytes());
            drop(of_module);
            Ok(fronts)
        }
        Err(_) => Ok(NONE),
    }
}

/// The fronts of certificates of three modules, the second one as a compiler prints it, and the third with two functions.
fn all_certificate_fronts(alloc: Global) -> Result<[Fronts; 3], AllocError> {
    Ok([
        certificate_fronts(alloc, [HEAD, SIX].as_slice(), SIX_CERTIFICATES)?,
        certificate_fronts(
            alloc,
            [SIX_AS_PRINTED].as_slice(),
            SIX_AS_PRINTED_CERTIFICATES,
        )?,
        certificate_fronts(
            alloc,
            [HEAD, LEAF_AND_TOP].as_slice(),
            LEAF_AND_TOP_CERTIFICATES,
        )?,
    ])
}

// Certificates without their last line end are whole. Cut before or after the end of the first line, or of a section that is
// not the last, they have no fault but missing sections.
#[test]
fn reads_each_front_of_certificates(rt: HostRuntime) -> Result<(), AllocError> {
    assert_eq!(rt;
        all_certificate_fronts(rt.alloc())?,
        [
            ([0, 1, 0, 0, 0, 0, 0, 0, 0], 80, 2),
            ([0, 1, 0, 0, 0, 0, 0, 0, 0], 78, 2),
            ([0, 0, 1, 0, 0, 0, 0, 0, 0], 65, 4),
        ]
    );
    Ok(())
}

/// Reads traces of a program. Their parts are their threads.
#[derive(Drop)]
struct Traces<'a> {
    alloc: Global,
    program: &'a Program,
}

impl<'a> Reader for Traces<'a> {
    fn front(&self, text: &[u8]) -> Front {
        match read_trace(self.alloc, text, self.program) {
            Ok(trace) => {
                let threads = trace.setup.starts.len();
                drop(trace);
                Front::Read(threads)
            }
            Err(TraceFault::Syntax(place)) => Front::Refused(place),
            Err(_) => Front::Other,
        }
    }
}

/// The fronts of a trace of the program of a module.
fn fronts_in(alloc: Global, of_module: Module, trace: &str) -> Fronts {
    match Program::new(alloc, of_module) {
        Ok(program) => {
            let reader = Traces {
                alloc,
                program: &program,
            };
            let fronts = fronts_of(&reader, trace.as_bytes());
            drop(program);
            fronts
        }
        Err(_) => NONE,
    }
}

/// The fronts of a trace of the module of these texts.
fn trace_fronts(alloc: Global, texts: &[&str], trace: &str) -> Result<Fronts, AllocError> {
    let text = joined(alloc, texts)?;
    match read(alloc, text.as_slice()) {
        Ok(of_module) => Ok(fronts_in(alloc, of_module, trace)),
        Err(_) => Ok(NONE),
    }
}

/// Two threads and the collector take turns.
const IN_THE_MIDDLE: &str =
    "trace 1\npool Node 1\nstart @zero\nstart @one\nsteps\nc 1\nt 1 3\nt 0 6\nt 0 2\nc 3\nt 0 2\nc 2\nt 0 3\nt 1 1\nt 1 2\nc 3\nt 1 2\nt 0 3\nc 11\nt 0 2\nt 1 1\nend\n";

// Without its last line end it is whole.
#[test]
fn reads_each_front_of_a_trace(rt: HostRuntime) -> Result<(), AllocError> {
    let texts = [HEAD, PUBLISHER_AND_CLEARER];
    let fronts = trace_fronts(rt.alloc(), texts.as_slice(), IN_THE_MIDDLE)?;
    assert_eq!(rt; fronts, ([0, 0, 1, 0, 0, 0, 0, 0, 0], 139, 0));
    Ok(())
}
