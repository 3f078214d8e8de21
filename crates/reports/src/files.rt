//! The files of a command, and what is read from them: a module with its certificates, and edits of them; a module with its shapes; or
//! a module with its layouts and a trace.
ghost use Rattle.std.specs.Prelude.{◌≡◌, ◌≢◌, true, Some, IfOk, IfErr};
ghost use Rattle.std.specs.Option.{option_copied};
ghost use Rattle.certs.specs.Fits.{fits};
ghost use Rattle.trace_text.specs.Traces.{IsTraceOf};
ghost use Rattle.reports.specs.Files as spec;
ghost use Rattle.certificate.specs.declared.fault.CertFault.TheVariants as cert;
ghost use Rattle.reports.specs.Files.{AreShapesOf, IsShapesFaultOf, file_of, is_certificate, is_wide, keeps, kept, kept_files, HasModule, HasCerts, HasEdits, HasProgram, HasShaped, HasTrace, IsNoModule, IsNoCertificate, IsNoEdits, IsNoProgram, IsNoShaped, IsNoShapes, IsNoTrace, IsRead, IsUncertified, IsUntraced, with_read};

use certificate::{CertFault, GivenShapes, read_cert, read_shapes};
use certs::Certs;
use ir_ast::{LayoutNumber, Module, Outside, Shapes};
use ir_text::{ReadFault, read_as};
use items::Items;
use layout::{NotAProgram, Program, wants_shapes};
use name_text::{past_lines, word};
use recheck::{Edit, read_edits};
use std::alloc::Global;
use trace_text::{Trace, TraceFault, read_trace};

/// A file of a command: its path, and its bytes, if it can be read.
#[derive(Clone, Copy)]
pub struct File<'a> {
    pub path: &'a str,
    pub bytes: Option<&'a [u8]>,
}

/// The file of a module, and whether the wide forms may stand in its text.
#[derive(Clone, Copy)]
pub struct ModuleFile<'a> {
    pub file: File<'a>,
    pub wide: bool,
    /// Whether all is to be kept that compiled code needs. A text of which some is lost has L7 then.
    pub keeps: bool,
}

/// The files of a command, by what each is. None is a file that the line does not give. One that a command needs counts then as a file
/// with an empty path that cannot be read.
#[derive(Clone, Copy)]
pub struct Files<'a> {
    pub of_module: Option<ModuleFile<'a>>,
    pub certificate: Option<File<'a>>,
    pub shapes: Option<File<'a>>,
    pub trace: Option<File<'a>>,
    pub edits: Option<File<'a>>,
    pub of_record: Option<File<'a>>,
    /// Whether the command is to write a file of its own.
    pub saves: bool,
}

/// The file of a module, if it is given.
pub fn file_of<'a>(of_module: Option<ModuleFile<'a>>) -> Option<File<'a>>
    ensures { result ≡ file_of of_module.entry }
{
    match of_module {
        Some(of_module) => Some(of_module.file),
        None => None,
    }
}

/// Whether the wide forms may stand in the text of this module.
pub fn is_wide(of_module: Option<ModuleFile<'_>>) -> bool
    ensures { result ≡ is_wide of_module.entry }
{
    match of_module {
        Some(of_module) => of_module.wide,
        None => false,
    }
}

/// Whether all of the text of this module is to be kept.
fn keeps(of_module: Option<ModuleFile<'_>>) -> bool
    ensures { result ≡ keeps of_module.entry }
{
    match of_module {
        Some(of_module) => of_module.keeps,
        None => false,
    }
}

/// The file of a module of whose text all is to be kept.
fn kept<'a>(of_module: Option<ModuleFile<'a>>) -> Option<ModuleFile<'a>>
    ensures { result ≡ kept of_module.entry }
{
    match of_module {
        Some(of_module) => Some(ModuleFile {
            file: of_module.file,
            wide: of_module.wide,
            keeps: true,
        }),
        None => None,
    }
}

/// The files of a command that has to keep all of the module.
pub fn kept_files<'a>(files: &Files<'a>) -> Files<'a>
    ensures { result ≡ kept_files files.now }
{
    let mut of_kept = *files;
    of_kept.of_module = kept(files.of_module);
    of_kept
}

/// The path of a file, empty where it is not given.
pub fn path_of<'a>(file: Option<File<'a>>) -> &'a str
    ensures { result.now ≡ spec.path_of file.entry }
{
    match file {
        Some(file) => file.path,
        None => "",
    }
}

/// The bytes of a file, if it is given and can be read.
pub fn bytes_of<'a>(file: Option<File<'a>>) -> Option<&'a [u8]>
    ensures { option_copied result ≡ spec.bytes_of file.entry }
{
    match file {
        Some(file) => file.bytes,
        None => None,
    }
}

/// A module and its certificates.
#[derive(Drop)]
pub struct Certified {
    pub of_module: Module,
    pub certs: Certs,
}

/// A program and a trace of it.
#[derive(Drop)]
pub struct Traced {
    pub program: Program,
    pub trace: Trace,
}

/// Why the files of a command are not read. A file is named by its path.
#[derive(Drop)]
pub enum Unread<'a> {
    NoFile(&'a str),
    NoModule(ReadFault),
    NoLayouts(NotAProgram),
    /// The text is no certificate of this module, or no text of its shapes.
    NoCertificate(Module, CertFault),
    /// The text is no text of edits.
    NoEdits(CertFault),
    NoTrace(TraceFault),
}

/// Reads the module.
pub fn module_in<'a>(alloc: Global, files: &Files<'a>) -> Result<Module, Unread<'a>>
    ensures ok { IfOk result (HasModule files.now.of_module) }
    ensures err { IfErr result (IsNoModule files.now.of_module) }
{
    let file = file_of(files.of_module);
    let Some(text) = bytes_of(file) else {
        return Err(Unread::NoFile(path_of(file)));
    };
    match read_as(
        alloc,
        text,
        is_wide(files.of_module),
        keeps(files.of_module),
    ) {
        Ok(of_module) => Ok(of_module),
        Err(fault) => Err(Unread::NoModule(fault)),
    }
}

/// Reads the certificates of a module.
fn certified_in<'a>(
    alloc: Global,
    file: Option<File<'a>>,
    of_module: Module,
) -> Result<Certified, Unread<'a>>
    ensures of_module { IfOk result (λ certified. certified.of_module ≡ of_module) }
    ensures ok { IfOk result (λ certified. HasCerts file.entry certified.of_module certified.certs) }
    ensures fits { IfOk result (λ certified. fits certified.of_module certified.certs.sections ≡ true) }
    ensures err { IfErr result (IsNoCertificate file.entry of_module) }
{
    let Some(text) = bytes_of(file) else {
        drop(of_module);
        return Err(Unread::NoFile(path_of(file)));
    };
    match read_cert(alloc, text, &of_module) {
        Ok(certs) => Ok(Certified { of_module, certs }),
        Err(fault) => Err(Unread::NoCertificate(of_module, fault)),
    }
}

/// Reads the module and the certificates. The first fault counts: of each file, in this order, its path and then its text.
pub fn read_certified<'a>(alloc: Global, files: &Files<'a>) -> Result<Certified, Unread<'a>>
    ensures of_module { IfOk result (λ certified. HasModule files.now.of_module certified.of_module) }
    ensures certs { IfOk result (λ certified. HasCerts files.now.certificate certified.of_module certified.certs) }
    ensures fits { IfOk result (λ certified. fits certified.of_module certified.certs.sections ≡ true) }
    ensures err { IfErr result (IsUncertified files.now.of_module files.now.certificate) }
{
    let of_module = module_in(alloc, files)?;
    certified_in(alloc, files.certificate, of_module)
}

/// Reads the edits.
pub fn edits_in<'a>(alloc: Global, files: &Files<'a>) -> Result<Items<Edit>, Unread<'a>>
    ensures ok { IfOk result (HasEdits files.now.edits) }
    ensures err { IfErr result (IsNoEdits files.now.edits) }
{
    let Some(text) = bytes_of(files.edits) else {
        return Err(Unread::NoFile(path_of(files.edits)));
    };
    match read_edits(alloc, text) {
        Ok(edits) => Ok(edits),
        Err(fault) => Err(Unread::NoEdits(fault)),
    }
}

/// Whether a text begins as a certificate does.
fn is_certificate(text: &[u8]) -> bool
    ensures { result ≡ is_certificate text.now }
{
    word(past_lines(text)) == b"cert".as_slice()
}

/// What is read for a module to which shapes are given: shapes, if there are some, and numbers of layouts.
#[derive(Drop)]
pub struct Given {
    pub shapes: Option<Shapes>,
    pub numbers: Items<LayoutNumber>,
}

/// The shapes that certificates have, and their numbers of layouts.
fn given_by_certs(certs: Certs) -> Given
    ensures { result ≡ spec.given_by_certs certs }
{
    let Certs {
        sections,
        shapes,
        foreign,
    } = certs;
    drop(sections);
    let Outside { functions, numbers } = foreign;
    drop(functions);
    Given { shapes, numbers }
}

/// The same of a text of shapes.
fn given_by_shapes(read: GivenShapes) -> Given
    ensures { result ≡ spec.given_by_shapes read }
{
    Given {
        shapes: Some(read.shapes),
        numbers: read.numbers,
    }
}

/// The shapes and the numbers of layouts in a text of shapes, or in a certificate. A certificate of typed pointers has no shapes.
fn shapes_in_text(alloc: Global, text: &[u8], of_module: &Module) -> Result<Given, CertFault>
    ensures found { IfOk result (AreShapesOf text.now of_module.now) }
    ensures fault { IfErr result (λ e. e ≢ cert.Memory → IsShapesFaultOf text.now of_module.now e) }
{
    if is_certificate(text) {
        return match read_cert(alloc, text, of_module) {
            Ok(certs) => Ok(given_by_certs(certs)),
            Err(fault) => Err(fault),
        };
    }
    match read_shapes(alloc, text, of_module) {
        Ok(read) => Ok(given_by_shapes(read)),
        Err(fault) => Err(fault),
    }
}

/// A module with shapes and numbers of layouts that were read for it. The shapes count where it writes `ptr`, and are ignored otherwise.
fn with_read(of_module: Module, given: Given) -> Module
    ensures { result ≡ with_read of_module given }
{
    let mut of_module = of_module;
    let Given { shapes, numbers } = given;
    if wants_shapes(&of_module) {
        of_module.shapes = shapes;
    } else {
        drop(shapes);
    }
    of_module.trusted.numbers = numbers;
    of_module
}

/// A module with its shapes, those of this file, which may be a certificate.
fn with_shapes_in<'a>(
    alloc: Global,
    file: File<'a>,
    of_module: Module,
) -> Result<Module, Unread<'a>>
    ensures ok { IfOk result (IsRead file.entry of_module) }
    ensures err { IfErr result (IsNoShapes (Some file.entry) of_module) }
{
    let Some(text) = file.bytes else {
        drop(of_module);
        return Err(Unread::NoFile(file.path));
    };
    match shapes_in_text(alloc, text, &of_module) {
        Ok(given) => Ok(with_read(of_module, given)),
        Err(fault) => Err(Unread::NoCertificate(of_module, fault)),
    }
}

/// Reads the module, and its shapes if their file is given. The first fault counts: of the module, its path and then its text, then of
/// the shapes, their path and then their text.
pub fn shaped_in<'a>(alloc: Global, files: &Files<'a>) -> Result<Module, Unread<'a>>
    ensures ok { IfOk result (HasShaped files.now.of_module files.now.shapes) }
    ensures err { IfErr result (IsNoShaped files.now.of_module files.now.shapes) }
{
    let of_module = module_in(alloc, files)?;
    match files.shapes {
        Some(file) => with_shapes_in(alloc, file, of_module),
        None => Ok(of_module),
    }
}

/// Reads the module, its shapes if their file is given, and the layouts. The faults are those of `shaped_in`, and then that of the layouts.
pub fn program_in<'a>(alloc: Global, files: &Files<'a>) -> Result<Program, Unread<'a>>
    ensures ok { IfOk result (HasProgram files.now.of_module files.now.shapes) }
    ensures err { IfErr result (IsNoProgram files.now.of_module files.now.shapes) }
{
    let of_module = shaped_in(alloc, files)?;
    match Program::new(alloc, of_module) {
        Ok(program) => Ok(program),
        Err(refused) => Err(Unread::NoLayouts(refused)),
    }
}

/// Reads the trace of a program.
pub fn trace_in<'a>(
    alloc: Global,
    files: &Files<'a>,
    program: &Program,
) -> Result<Trace, Unread<'a>>
    ensures of_program { IfOk result (IsTraceOf program.now) }
    ensures ok { IfOk result (HasTrace files.now.trace program.now) }
    ensures err { IfErr result (IsNoTrace files.now.trace program.now) }
{
    let Some(text) = bytes_of(files.trace) else {
        return Err(Unread::NoFile(path_of(files.trace)));
    };
    match read_trace(alloc, text, program) {
        Ok(trace) => Ok(trace),
        Err(fault) => Err(Unread::NoTrace(fault)),
    }
}

/// Reads the program, as `program_in` does, and the trace. The first fault counts: of the program, then of the trace, its path and then
/// its text.
pub fn read_traced<'a>(alloc: Global, files: &Files<'a>) -> Result<Traced, Unread<'a>>
    ensures of_program { IfOk result (λ traced. IsTraceOf traced.program traced.trace) }
    ensures program { IfOk result (λ traced. HasProgram files.now.of_module files.now.shapes traced.program) }
    ensures trace { IfOk result (λ traced. HasTrace files.now.trace traced.program traced.trace) }
    ensures err { IfErr result (IsUntraced files.now.of_module files.now.trace files.now.shapes) }
{
    let program = program_in(alloc, files)?;
    match trace_in(alloc, files, &program) {
        Ok(trace) => Ok(Traced { program, trace }),
        Err(unread) => {
            drop(program);
            Err(unread)
        }
    }
}
