//! The command `migrate`.
ghost use Rattle.std.specs.Prelude.{◌≡◌, Ok, IfOk};
ghost use Rattle.certificate.specs.Migrated.{IsMigration};
ghost use Rattle.check_commands.specs.Migrating.{known_bytes, migrated_text, OfCerts, OfMigrate, OfMigrateGiven, OfMigrated, OfModule, OfText};
ghost use Rattle.copies.specs.Opaque.{opaque_module};
ghost use Rattle.reports.specs.Report.{IsTold, made_text};
ghost use Rattle.reports.specs.Said.{OfCertified, Says};

use certificate::{is_typed_text, migrate, print_cert};
use certs::Certs;
use copies::opaque;
use ir_ast::Module;
use ir_print::print;
use reports::{
    Certified, File, Files, Outputs, STATUS_YES, bytes_of, file_of, kept_files, memory, module_in,
    no_certificate, read_certified, unread,
};
use std::alloc::{AllocError, Global};
use std::io;
use std::io::Write;

/// The bytes of a file, none where it is not given or cannot be read.
fn known_bytes(file: Option<File<'_>>) -> &[u8]
    ensures { result.now ≡ known_bytes file.entry }
{
    match bytes_of(file) {
        Some(bytes) => bytes,
        None => &[],
    }
}

/// Prints a text.
fn print_text<O: Write>(out: &mut O, text: &[u8]) -> io::Result<u8>
    ensures { IfOk result (λ status. IsTold (O.contents out.old) (O.contents out.new) status (made_text text.now)) }
{
    out.write_all(text)?;
    Ok(STATUS_YES)
}

/// The same text.
fn copied_text(alloc: Global, bytes: &[u8]) -> Result<Vec<u8>, AllocError>
    ensures { IfOk result (λ text. text.items ≡ bytes.now) }
{
    let mut text = Vec::new(alloc);
    text.extend_from_slice(bytes)?;
    Ok(text)
}

/// The opaque text of a module that was read from these bytes, where this is the module with opaque pointers.
fn text_by(
    alloc: Global,
    of_module: &Module,
    opaque: &Module,
    bytes: &[u8],
) -> Result<Vec<u8>, AllocError>
    requires { opaque.now ≡ opaque_module of_module.now }
    ensures { IfOk result (λ text. text.items ≡ migrated_text of_module.now bytes.now) }
{
    if is_typed_text(of_module, opaque) {
        print(alloc, opaque)
    } else {
        copied_text(alloc, bytes)
    }
}

/// The opaque text of a module that was read from these bytes.
fn text_of_module(alloc: Global, of_module: &Module, bytes: &[u8]) -> Result<Vec<u8>, AllocError>
    ensures { IfOk result (λ text. text.items ≡ migrated_text of_module.now bytes.now) }
{
    let made = opaque(alloc, of_module)?;
    let text = text_by(alloc, of_module, &made, bytes);
    drop(made);
    text
}

fn print_module(
    alloc: Global,
    of_module: &Module,
    bytes: &[u8],
    outputs: &mut Outputs,
) -> io::Result<u8>
    ensures { IfOk result (Says (OfText of_module.now bytes.now) outputs.old outputs.new) }
{
    match text_of_module(alloc, of_module, bytes) {
        Ok(text) => print_text(&mut outputs.out, text.as_slice()),
        Err(_) => memory(&mut outputs.err),
    }
}

/// Prints the opaque text of the module.
fn migrate_module(alloc: Global, files: &Files<'_>, outputs: &mut Outputs) -> io::Result<u8>
    ensures { IfOk result (Says (OfModule files.now.of_module) outputs.old outputs.new) }
{
    match module_in(alloc, files) {
        Ok(of_module) => {
            let status = print_module(
                alloc,
                &of_module,
                known_bytes(file_of(files.of_module)),
                outputs,
            );
            drop(of_module);
            status
        }
        Err(fault) => unread(&mut outputs.err, fault),
    }
}

/// Prints certificates of an opaque text.
fn print_certs(
    alloc: Global,
    migrated: &Certs,
    made: &Module,
    outputs: &mut Outputs,
) -> io::Result<u8>
    ensures { IfOk result (Says (OfCerts made.now migrated.now) outputs.old outputs.new) }
{
    match print_cert(alloc, migrated, made) {
        Ok(text) => print_text(&mut outputs.out, text.as_slice()),
        Err(_) => memory(&mut outputs.err),
    }
}

/// Prints what came of certificates that were read from these bytes. The opaque text is given.
fn print_made(
    alloc: Global,
    certified: &Certified,
    migrated: (&Certs, &Module),
    bytes: &[u8],
    outputs: &mut Outputs,
) -> io::Result<u8>
    requires migration { IsMigration certified.now.of_module certified.now.certs (Ok migrated.0.now) }
    requires made { migrated.1.now ≡ opaque_module certified.now.of_module }
    ensures { IfOk result (Says (OfMigrated bytes.now certified.now.of_module certified.now.certs) outputs.old outputs.new) }
{
    if is_typed_text(&certified.of_module, migrated.1) {
        print_certs(alloc, migrated.0, migrated.1, outputs)
    } else {
        print_text(&mut outputs.out, bytes)
    }
}

fn print_migrated(
    alloc: Global,
    certified: &Certified,
    migrated: &Certs,
    bytes: &[u8],
    outputs: &mut Outputs,
) -> io::Result<u8>
    requires { IsMigration certified.now.of_module certified.now.certs (Ok migrated.now) }
    ensures { IfOk result (Says (OfMigrated bytes.now certified.now.of_module certified.now.certs) outputs.old outputs.new) }
{
    match opaque(alloc, &certified.of_module) {
        Ok(made) => {
            let status = print_made(alloc, certified, (migrated, &made), bytes, outputs);
            drop(made);
            status
        }
        Err(_) => memory(&mut outputs.err),
    }
}

/// Migrates certificates that were read from these bytes.
fn migrate_certified(
    alloc: Global,
    certified: &Certified,
    bytes: &[u8],
    outputs: &mut Outputs,
) -> io::Result<u8>
    ensures { IfOk result (Says (OfMigrated bytes.now certified.now.of_module certified.now.certs) outputs.old outputs.new) }
{
    match migrate(alloc, &certified.certs, &certified.of_module) {
        Ok(migrated) => {
            let status = print_migrated(alloc, certified, &migrated, bytes, outputs);
            drop(migrated);
            status
        }
        Err(fault) => no_certificate(&mut outputs.err, &certified.of_module, fault),
    }
}

/// Migrates the certificates of the module.
fn migrate_certs(alloc: Global, files: &Files<'_>, outputs: &mut Outputs) -> io::Result<u8>
    ensures { IfOk result (Says (OfCertified (OfMigrated (known_bytes files.now.certificate)) files.now.of_module files.now.certificate) outputs.old outputs.new) }
{
    match read_certified(alloc, files) {
        Ok(certified) => {
            let bytes = known_bytes(files.certificate);
            let status = migrate_certified(alloc, &certified, bytes, outputs);
            drop(certified);
            status
        }
        Err(fault) => unread(&mut outputs.err, fault),
    }
}

/// Prints the opaque text of the module, or the certificates of that text where a certificate is given.
fn migrate_given(alloc: Global, files: &Files<'_>, outputs: &mut Outputs) -> io::Result<u8>
    ensures { IfOk result (Says (OfMigrateGiven files.now.of_module files.now.certificate) outputs.old outputs.new) }
{
    match files.certificate {
        Some(_) => migrate_certs(alloc, files, outputs),
        None => migrate_module(alloc, files, outputs),
    }
}

/// Prints the opaque text of the module, or the certificates of that text where a certificate is given. The first fault counts: of each
/// of the two files, its path and then its text, then of the shapes. A text of which something is lost that compiled code needs has L7.
pub fn migrate_files(alloc: Global, files: &Files<'_>, outputs: &mut Outputs) -> io::Result<u8>
    ensures { IfOk result (Says (OfMigrate files.now.of_module files.now.certificate) outputs.old outputs.new) }
{
    let of_kept = kept_files(files);
    migrate_given(alloc, &of_kept, outputs)
}
