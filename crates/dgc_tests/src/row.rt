//! What is compared of a row.
use crate::accepted::{
    Certified, checked_as_made, checked_as_migrated, checked_by_three, is_opaque_text,
    migrated_module,
};
use crate::done::done_by;
use crate::printed::{Printed, needed};
use crate::row_failure::RowFailure;
use command_line::Forms;
use commands::STATUS_YES;
use std::alloc::{AllocError, Global};
use std::io::Write;
use std::rt::Runtime;
use std::thread::Threads;

/// The name of a row, and its folder.
#[derive(Clone, Copy)]
struct Row<'a> {
    name: &'a str,
    folder: &'a str,
}

/// Writes what differs from what is wanted.
fn compare(
    printed: Printed,
    wanted: &Printed,
    row: Row<'_>,
    lines: &mut Vec<u8>,
) -> Result<(), RowFailure> {
    let compared = printed.compare(wanted, row.name, lines);
    drop(printed);
    Ok(compared?)
}

/// Writes where this opaque text of a module is printed in another way, once it is read.
fn compare_text(
    rt: &(impl Runtime + AllocGlobal),
    row: Row<'_>,
    certified: Certified<'_>,
    text: &[u8],
    lines: &mut Vec<u8>,
) -> Result<(), RowFailure> {
    if is_opaque_text(rt, certified, text)? {
        return Ok(());
    }
    writeln!(
        lines,
        "{}: its opaque text is printed in another way",
        row.name
    )?;
    Ok(())
}

/// Compares the opaque text of a module, and what a check prints of it and its certificate, and writes what differs.
fn compare_migrated(
    rt: &(impl Runtime + AllocGlobal + Threads + Sync),
    row: Row<'_>,
    certified: Certified<'_>,
    wanted: &Printed,
    lines: &mut Vec<u8>,
) -> Result<(), RowFailure> {
    let migrated = migrated_module(rt, certified)?;
    let compared = compare_text(rt, row, certified, migrated.out.as_slice(), lines);
    compare(
        checked_as_migrated(rt, certified, migrated)?,
        wanted,
        row,
        lines,
    )?;
    compared
}

/// What a check has to print of the opaque text, if the row has a folder for it.
fn wanted_as_migrated(
    rt: &(impl Runtime + AllocGlobal),
    row: Row<'_>,
) -> Result<Option<Printed>, RowFailure> {
    let folder = format!(in rt.alloc(); "{}/migrated", row.folder)?;
    let wanted = Printed::read(rt, folder.as_str());
    drop(folder);
    match wanted {
        Ok(wanted) => Ok(Some(wanted)),
        Err(RowFailure::Outside) => Ok(None),
        Err(RowFailure::Memory) => Err(RowFailure::Memory),
    }
}

/// Compares what a check prints of the opaque text, and writes what differs.
fn compare_opaque(
    rt: &(impl Runtime + AllocGlobal + Threads + Sync),
    row: Row<'_>,
    certified: Certified<'_>,
    wanted: &Printed,
    lines: &mut Vec<u8>,
) -> Result<(), RowFailure> {
    match wanted_as_migrated(rt, row)? {
        Some(wanted) => {
            let compared = compare_migrated(rt, row, certified, &wanted, lines);
            drop(wanted);
            compared
        }
        None => compare_migrated(rt, row, certified, wanted, lines),
    }
}

/// Compares what a check prints by three workers. If the module is accepted, it is checked once more with a certificate that is made, and
/// once more as opaque text. Writes what differs.
fn compare_check(
    rt: &(impl Runtime + AllocGlobal + Threads + Sync),
    row: Row<'_>,
    certified: Certified<'_>,
    wanted: &Printed,
    lines: &mut Vec<u8>,
) -> Result<(), RowFailure> {
    compare(checked_by_three(rt, certified)?, wanted, row, lines)?;
    if wanted.status != STATUS_YES {
        return Ok(());
    }
    compare(checked_as_made(rt, certified)?, wanted, row, lines)?;
    compare_opaque(rt, row, certified, wanted, lines)
}

/// The forms that these words after the files of a check say, if they say nothing else.
fn forms_in(words: &[&str]) -> Option<Forms> {
    match words {
        [] => Some(Forms::Core),
        [option, forms] if *option == "--forms" && *forms == "wide" => Some(Forms::Wide),
        _ => None,
    }
}

/// Compares what these words print, and further checks where they ask for one with no options but the forms. Writes what differs.
fn compare_words(
    rt: &(impl Runtime + AllocGlobal + Threads + Sync),
    row: Row<'_>,
    words: &[&str],
    wanted: &Printed,
    lines: &mut Vec<u8>,
) -> Result<(), RowFailure> {
    compare(done_by(rt, row.folder, words)?, wanted, row, lines)?;
    let [_, command, module_path, certificate_path, rest @ ..] = words else {
        return Ok(());
    };
    if *command != "check" {
        return Ok(());
    }
    let Some(forms) = forms_in(rest) else {
        return Ok(());
    };
    let certified = Certified {
        folder: row.folder,
        module_path,
        certificate_path,
        forms,
    };
    compare_check(rt, row, certified, wanted, lines)
}

/// The words that stand one a line in a text, the program's name before them.
fn words_in(alloc: Global, args: &str) -> Result<Vec<&str>, AllocError> {
    let mut words = vec![in alloc; "dgc"]?;
    for word in args.lines() {
        words.push(word)?;
    }
    Ok(words)
}

/// Compares what the command of a row prints, whose line is this text, and writes what differs.
fn compare_args(
    rt: &(impl Runtime + AllocGlobal + Threads + Sync),
    row: Row<'_>,
    args: &str,
    wanted: &Printed,
    lines: &mut Vec<u8>,
) -> Result<(), RowFailure> {
    let words = words_in(rt.alloc(), args)?;
    let compared = compare_words(rt, row, words.as_slice(), wanted, lines);
    drop(words);
    compared
}

/// Does this with what is wanted.
fn compare_line(
    rt: &(impl Runtime + AllocGlobal + Threads + Sync),
    row: Row<'_>,
    args: &[u8],
    lines: &mut Vec<u8>,
) -> Result<(), RowFailure> {
    let Ok(args) = str::from_utf8(args) else {
        return Err(RowFailure::Outside);
    };
    let wanted = Printed::read(rt, row.folder)?;
    let compared = compare_args(rt, row, args, &wanted, lines);
    drop(wanted);
    compared
}

/// Does this with the row in a folder.
fn compare_in(
    rt: &(impl Runtime + AllocGlobal + Threads + Sync),
    row: Row<'_>,
    lines: &mut Vec<u8>,
) -> Result<(), RowFailure> {
    let args = needed(rt, row.folder, "args")?;
    let compared = compare_line(rt, row, args.as_slice(), lines);
    drop(args);
    compared
}

/// Compares what the command of the row of this name prints, and writes what differs.
pub fn compare_row(
    rt: &(impl Runtime + AllocGlobal + Threads + Sync),
    name: &str,
    lines: &mut Vec<u8>,
) -> Result<(), RowFailure> {
    let folder = format!(in rt.alloc(); "rows/{name}")?;
    let row = Row {
        name,
        folder: folder.as_str(),
    };
    let compared = compare_in(rt, row, lines);
    drop(folder);
    compared
}
