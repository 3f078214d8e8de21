//! How a command line is read.
ghost use Rattle.std.specs.Prelude.{◌≡◌, IfOk, IfErr, IfSome, IsOk, [], map, option_map};
ghost use Rattle.clap.specs.Words.{fault_of, found_of, rows_of, subcommand_rows_of};
ghost use Rattle.command_line.specs.Asked.{HasWorkers, texts_of};
ghost use Rattle.command_line.specs.Grammar.{dgc_app, certificate_of, explained_by, explained_of, forms_of, IsRefusalOf, line_by, line_found, line_in, line_of, paths_of, read_once, saved_cert_of, saved_of, shapes_beside, shapes_of, takes_shapes, written_by, written_of};

use crate::command::{Command, Explained, Paths, Written};
use crate::fault::LineFault;
use crate::given::{either_given, forms_given, text_given};
use crate::grammar::dgc_command;
use crate::options::{lack_of, what_given};
use clap::ArgMatches;
use std::alloc::Global;

/// The path of the shapes, if it was given, and the certificate's was not.
fn shapes_given<'a>(given: &ArgMatches<'a>, certificate: Option<&str>) -> Option<&'a str>
    ensures { option_map (λ path. path.now) result ≡ shapes_beside (option_map (λ path. path.now) certificate.entry) (rows_of (found_of given.now)) }
{
    match certificate {
        Some(_) => None,
        None => text_given(given, "shapes"),
    }
}

/// Whether the command of this name reads shapes, and takes them from a certificate too.
fn takes_shapes(name: &str) -> bool
    ensures { result ≡ takes_shapes name.now }
{
    matches!(name, "make" | "replay" | "soak" | "watch" | "conform")
}

/// The path of the certificate, if it was given to the command of this name, and not for its shapes alone.
fn certificate_given<'a>(name: &str, given: &ArgMatches<'a>) -> Option<&'a str>
    ensures { option_map (λ path. path.now) result ≡ certificate_of name.now (rows_of (found_of given.now)) }
{
    if takes_shapes(name) {
        None
    } else {
        either_given(given, "CERT", "cert")
    }
}

/// The path of the shapes, if it was given to the command of this name, and its certificate's was not.
fn shapes_of_command<'a>(
    name: &str,
    given: &ArgMatches<'a>,
    certificate: Option<&str>,
) -> Option<&'a str>
    ensures { option_map (λ path. path.now) result ≡ shapes_of name.now (option_map (λ path. path.now) certificate.entry) (rows_of (found_of given.now)) }
{
    if takes_shapes(name) {
        either_given(given, "shapes", "cert")
    } else {
        shapes_given(given, certificate)
    }
}

/// The path of the file that the command of this name writes, if it was given.
fn saved_given<'a>(name: &str, given: &ArgMatches<'a>) -> Option<&'a str>
    ensures { option_map (λ path. path.now) result ≡ saved_of name.now (rows_of (found_of given.now)) }
{
    match name {
        "replay" => either_given(given, "json", "record"),
        "fix" => text_given(given, "module"),
        "soak" | "hunt" => text_given(given, "save"),
        _ => either_given(given, "json", "sarif"),
    }
}

/// The path of the certificate that the command of this name writes, if it was given.
fn saved_cert_given<'a>(name: &str, given: &ArgMatches<'a>) -> Option<&'a str>
    ensures { option_map (λ path. path.now) result ≡ saved_cert_of name.now (rows_of (found_of given.now)) }
{
    match name {
        "fix" => text_given(given, "cert"),
        _ => None,
    }
}

/// The paths of the files that were given to the command of this name.
fn paths_given<'a>(name: &str, given: &ArgMatches<'a>) -> Paths<'a>
    ensures { texts_of result ≡ paths_of name.now (rows_of (found_of given.now)) }
{
    let certificate = certificate_given(name, given);
    Paths {
        of_module: text_given(given, "MODULE"),
        certificate,
        shapes: shapes_of_command(name, given, certificate),
        trace: text_given(given, "TRACE"),
        edits: text_given(given, "EDITS"),
        of_record: text_given(given, "RECORD"),
        list: text_given(given, "LIST"),
        saved: saved_given(name, given),
        saved_cert: saved_cert_given(name, given),
    }
}

/// The same paths, if at most one of the files that are read is the standard input.
fn read_once(paths: Paths<'_>) -> Option<Paths<'_>>
    ensures { option_map texts_of result ≡ read_once (texts_of paths.entry) }
{
    if paths.is_read_once() {
        Some(paths)
    } else {
        None
    }
}

/// When a refusal is explained, by its word: that of the option, or of a variable of the environment.
pub fn explained_by(word: &str) -> Option<Explained>
    ensures { result ≡ explained_by word.now }
{
    match word {
        "always" => Some(Explained::Always),
        "auto" => Some(Explained::OnTerminal),
        "never" => Some(Explained::Never),
        _ => None,
    }
}

/// When a refusal is explained, by the option `explain`: by the caller's default where it is not given.
fn explained_given(given: &ArgMatches<'_>) -> Option<Explained>
    ensures { result ≡ explained_of (rows_of (found_of given.now)) }
{
    match text_given(given, "explain") {
        Some(word) => explained_by(word),
        None => Some(Explained::ByDefault),
    }
}

/// How the answer is written, if not both of these files are given.
fn written_by(json_path: Option<&str>, sarif_path: Option<&str>) -> Option<Written>
    ensures { result ≡ written_by (option_map (λ path. path.now) json_path.entry) (option_map (λ path. path.now) sarif_path.entry) }
{
    match (json_path, sarif_path) {
        (None, None) => Some(Written::NotAtAll),
        (Some(_), None) => Some(Written::AsJson),
        (None, Some(_)) => Some(Written::AsSarif),
        (Some(_), Some(_)) => None,
    }
}

/// How the answer is written, by the options `json` and `sarif`, of which one may be given.
fn written_given(given: &ArgMatches<'_>) -> Option<Written>
    ensures { result ≡ written_of (rows_of (found_of given.now)) }
{
    written_by(text_given(given, "json"), text_given(given, "sarif"))
}

/// The command of this name, from what was given to it.
fn command_given<'a>(name: &str, given: &ArgMatches<'a>) -> Option<Command<'a>>
    ensures asked { option_map line_by result ≡ line_of name.now (rows_of (found_of given.now)) }
    ensures workers { IfSome result (λ command. HasWorkers command.what) }
{
    let explained = explained_given(given)?;
    let forms = forms_given(given)?;
    let written = written_given(given)?;
    let what = what_given(name, given)?;
    let paths = read_once(paths_given(name, given))?;
    Some(Command {
        paths,
        explained,
        forms,
        written,
        what,
    })
}

/// What a command lacks that asks for nothing though `clap` takes its words.
fn hint_of(name: &str, given: &ArgMatches<'_>) -> &'static str {
    if forms_given(given).is_none() {
        return "--forms takes core or wide";
    }
    if written_given(given).is_none() {
        return "--sarif may not stand beside --json";
    }
    if !paths_given(name, given).is_read_once() {
        return "only one file may be -, the standard input";
    }
    lack_of(name, given).unwrap_or("--explain takes always, auto or never")
}

/// The command that was found, or what is lacking.
fn command_found<'a>(matches: &ArgMatches<'a>) -> Result<Command<'a>, &'static str>
    ensures found { IfOk result (λ command. line_found (subcommand_rows_of matches.now) ≡ Some (line_by command)) }
    ensures workers { IfOk result (λ command. HasWorkers command.what) }
    ensures lacks { IfErr result (λ _. line_found (subcommand_rows_of matches.now) ≡ None) }
{
    let Some((name, given)) = matches.subcommand() else {
        return Err("no command is given");
    };
    match command_given(name, given) {
        Some(command) => Ok(command),
        None => Err(hint_of(name, given)),
    }
}

/// Reads the command line, the program's own name first.
pub fn read_command<'a>(alloc: Global, words: &'a [&'a str]) -> Result<Command<'a>, LineFault>
    ensures found { IfOk result (λ command. line_in (map (λ word. word.now) words.now) ≡ Some (line_by command)) }
    ensures workers { IfOk result (λ command. HasWorkers command.what) }
    ensures taken { IsOk result → fault_of dgc_app (map (λ word. word.now) words.now) ≡ [] }
    ensures refused { IfErr result (IsRefusalOf (map (λ word. word.now) words.now)) }
{
    let matches = dgc_command(alloc)?.try_get_matches_from(words)?;
    let found = command_found(&matches);
    drop(matches);
    match found {
        Ok(command) => Ok(command),
        Err(lack) => Err(LineFault::NoCommand(lack)),
    }
}
