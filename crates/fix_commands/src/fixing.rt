//! The command `fix`.
ghost use Rattle.std.specs.Prelude.{◌≡◌, false, [], IfOk, IfSome, None, OnOk};
ghost use Rattle.check_commands.specs.Checks.{OfCerts};
ghost use Rattle.command_line.specs.declared.options.Refusals.TheVariants.{First};
ghost use Rattle.reports.specs.Said.{OfCertified, saved_in, Says};
ghost use Rattle.fix_commands.specs.Fixing.{AreHandedOut, AreTexts, IsCheckAfter, MissesText, OfFix};

use crate::mended::{Mended, after_fixes};
use crate::pair::{Pair, files_of};
use check_commands::check_files;
use command_line::{CheckOptions, Refusals};
use messages::{Look, Pen};
use module_check::Unseen;
use reports::{Files, Outputs, Results, bytes_of, file_of, is_wide, memory};
use std::alloc::{AllocError, Global};
use std::io;
use std::io::Write;
use std::thread::Threads;

/// The two texts of the files.
#[derive(Clone, Copy)]
struct Given<'a> {
    of_module: &'a [u8],
    certificate: &'a [u8],
}

/// The two texts, if both files can be read.
fn given_texts<'a>(files: &Files<'a>) -> Option<Given<'a>>
    ensures texts { IfSome result (λ given. AreTexts files.now.of_module files.now.certificate given.of_module.now given.certificate.now) }
    ensures none { result ≡ None → MissesText files.now.of_module files.now.certificate }
{
    let Some(of_module) = bytes_of(file_of(files.of_module)) else {
        return None;
    };
    let Some(certificate) = bytes_of(files.certificate) else {
        return None;
    };
    Some(Given {
        of_module,
        certificate,
    })
}

/// Hands out the texts, if files are to be written.
fn hand_out(pair: &Pair, saves: bool, results: &mut Results) -> Result<(), AllocError>
    ensures texts { OnOk result (AreHandedOut saves (saved_in results.old) (saved_in results.new) pair.now.of_module.items pair.now.certificate.items) }
    ensures outputs { results.new.outputs ≡ results.old.outputs }
    ensures kept { saves ≡ false → results.new.saved.items ≡ results.old.saved.items }
{
    if !saves {
        return Ok(());
    }
    results.saved.extend_from_slice(pair.of_module.as_slice())?;
    results
        .saved_cert
        .extend_from_slice(pair.certificate.as_slice())
}

/// Checks the files up to the first refusal, by one worker.
fn check_given(
    rt: &(impl Threads + Sync),
    alloc: Global,
    files: &Files<'_>,
    outputs: &mut Outputs,
) -> io::Result<u8>
    ensures { IfOk result (Says (OfCertified (OfCerts First) files.now.of_module files.now.certificate) outputs.old outputs.new) }
{
    let options = CheckOptions {
        workers: 1,
        refusals: Refusals::First,
    };
    check_files(rt, alloc, options, files, outputs, &mut Unseen)
}

/// Prints a line for each fix, and what a check says of the texts.
fn check_mended(
    rt: &(impl Threads + Sync),
    alloc: Global,
    wide: bool,
    mended: &Mended,
    outputs: &mut Outputs,
) -> io::Result<u8>
    ensures { IfOk result (Says (IsCheckAfter mended.now.lines.items wide mended.now.pair.of_module.items mended.now.pair.certificate.items) outputs.old outputs.new) }
{
    outputs.out.write_all(mended.lines.as_slice())?;
    let files = files_of(
        mended.pair.of_module.as_slice(),
        mended.pair.certificate.as_slice(),
        wide,
    );
    check_given(rt, alloc, &files, outputs)
}

/// Hands out the texts after all fixes, and prints these and what a check says of the texts.
fn print_mended(
    rt: &(impl Threads + Sync),
    alloc: Global,
    files: &Files<'_>,
    mended: &Mended,
    results: &mut Results,
) -> io::Result<u8>
    requires { mended.now.lines.items ≡ [] → AreTexts files.now.of_module files.now.certificate mended.now.pair.of_module.items mended.now.pair.certificate.items }
    ensures said { IfOk result (Says (OfFix files.now (saved_in results.old) (saved_in results.new)) results.old.outputs results.new.outputs) }
    ensures kept { files.now.saves ≡ false → results.new.saved.items ≡ results.old.saved.items }
{
    let wide = is_wide(files.of_module);
    match hand_out(&mended.pair, files.saves, results) {
        Ok(()) => check_mended(rt, alloc, wide, mended, &mut results.outputs),
        Err(_) => memory(&mut results.outputs.err),
    }
}

/// Makes the safe fixes of these texts, and prints what came of it.
fn fix_given(
    rt: &(impl Threads + Sync),
    alloc: Global,
    files: &Files<'_>,
    given: Given<'_>,
    results: &mut Results,
) -> io::Result<u8>
    requires { AreTexts files.now.of_module files.now.certificate given.of_module.now given.certificate.now }
    ensures said { IfOk result (Says (OfFix files.now (saved_in results.old) (saved_in results.new)) results.old.outputs results.new.outputs) }
    ensures kept { files.now.saves ≡ false → results.new.saved.items ≡ results.old.saved.items }
{
    let pen = Pen {
        alloc,
        look: Look::Plain,
    };
    match after_fixes(
        pen,
        is_wide(files.of_module),
        given.of_module,
        given.certificate,
    ) {
        Ok(mended) => {
            let status = print_mended(rt, alloc, files, &mended, results);
            drop(mended);
            status
        }
        Err(_) => memory(&mut results.outputs.err),
    }
}

/// Makes the safe fixes of a module and its certificate, one after the other, as long as one leads the check further. Prints a line for each,
/// and then what `check` says of the texts that come of it, which are handed out. Where one of the files cannot be read it says that alone.
pub fn fix_files(
    rt: &(impl Threads + Sync),
    alloc: Global,
    files: &Files<'_>,
    results: &mut Results,
) -> io::Result<u8>
    ensures said { IfOk result (Says (OfFix files.now (saved_in results.old) (saved_in results.new)) results.old.outputs results.new.outputs) }
    ensures kept { files.now.saves ≡ false → results.new.saved.items ≡ results.old.saved.items }
{
    match given_texts(files) {
        Some(given) => fix_given(rt, alloc, files, given, results),
        None => check_given(rt, alloc, files, &mut results.outputs),
    }
}
