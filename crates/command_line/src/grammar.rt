//! The grammar of the command line, as `clap` has it.
ghost use Rattle.std.specs.Prelude.{◌≡◌, IfOk, false, codes, map};
ghost use Rattle.clap.specs.Words.{app_of, new_app, new_rule, rule_of};
ghost use Rattle.clap.specs.declared.builder.command.Command.TheViews.{out-Command};
ghost use Rattle.command_line.specs.Grammar as spec;
ghost use Rattle.command_line.specs.Grammar.{app_of_row, bare_app, default_rule, dgc_app, explain_rule, file_rule, flag_rule, forms_rule, number_rule, optional_rule, rule_of_argument, valued_rule, workers_rule};

use crate::table::{ABOUT, Argument, CommandRow, STATUSES, commands};
use clap::{Arg, ArgAction, Command, value_parser};
use std::alloc::{AllocError, Global};

/// A word that may be given.
fn may_be_given<'a>(alloc: Global, name: &'a str, help: &'a str) -> Arg<'a>
    ensures rule { rule_of result ≡ new_rule name.entry.now }
    ensures own { result.global ≡ false }
{
    Arg::new(alloc, name).help(help)
}

/// A file's path, which has to be given.
fn file<'a>(alloc: Global, name: &'a str, help: &'a str) -> Arg<'a>
    ensures rule { rule_of result ≡ file_rule name.entry.now }
    ensures own { result.global ≡ false }
{
    may_be_given(alloc, name, help).required(true)
}

/// An option with a value, which may be given.
fn valued<'a>(alloc: Global, name: &'a str, shown: &'a str, help: &'a str) -> Arg<'a>
    ensures rule { rule_of result ≡ valued_rule name.entry.now }
    ensures own { result.global ≡ false }
{
    Arg::new(alloc, name)
        .long(name)
        .value_name(shown)
        .help(help)
}

/// A number that may be given as the option of this name.
fn optional<'a>(alloc: Global, name: &'a str, shown: &'a str, help: &'a str) -> Arg<'a>
    ensures rule { rule_of result ≡ optional_rule name.entry.now }
    ensures own { result.global ≡ false }
{
    valued(alloc, name, shown, help).value_parser(value_parser!(u32))
}

/// A number that has to be given as the option of this name.
fn number<'a>(alloc: Global, name: &'a str, shown: &'a str, help: &'a str) -> Arg<'a>
    ensures rule { rule_of result ≡ number_rule name.entry.now }
    ensures own { result.global ≡ false }
{
    optional(alloc, name, shown, help).required(true)
}

/// A number that may be given as the option of this name; otherwise it is this one.
fn number_or<'a>(
    alloc: Global,
    name: &'a str,
    default: &'a str,
    shown: &'a str,
    help: &'a str,
) -> Arg<'a>
    ensures rule { rule_of result ≡ default_rule name.entry.now default.entry.now }
    ensures own { result.global ≡ false }
{
    optional(alloc, name, shown, help).default_value(default)
}

/// The number of workers, which may be given.
fn workers<'a>(alloc: Global, help: &'a str) -> Arg<'a>
    ensures rule { rule_of result ≡ workers_rule }
    ensures own { result.global ≡ false }
{
    valued(alloc, "workers", "N", help)
        .value_parser(value_parser!(u32).range(1..65))
        .default_value("1")
}

/// When a refusal is explained, which may be given.
fn explain_when<'a>(alloc: Global, help: &'a str) -> Arg<'a>
    ensures rule { rule_of result ≡ explain_rule }
    ensures own { result.global ≡ false }
{
    valued(alloc, "explain", "WHEN", help)
}

/// Which forms the text of the module may have, which may be given.
fn which_forms<'a>(alloc: Global, help: &'a str) -> Arg<'a>
    ensures rule { rule_of result ≡ forms_rule }
    ensures own { result.global ≡ false }
{
    valued(alloc, "forms", "FORMS", help).default_value("core")
}

/// An option without a value, which may be given.
fn flag<'a>(alloc: Global, name: &'a str, help: &'a str) -> Arg<'a>
    ensures rule { rule_of result ≡ flag_rule name.entry.now }
    ensures own { result.global ≡ false }
{
    Arg::new(alloc, name)
        .long(name)
        .action(ArgAction::SetTrue)
        .help(help)
}

/// The argument as `clap` has it.
fn arg_of<'a>(alloc: Global, argument: Argument) -> Arg<'a>
    ensures rule { rule_of result ≡ rule_of_argument argument }
    ensures own { result.global ≡ false }
{
    match argument {
        Argument::File(name, help) => file(alloc, name, help),
        Argument::MayBeGiven(name, help) => may_be_given(alloc, name, help),
        Argument::Number(name, shown, help) => number(alloc, name, shown, help),
        Argument::Workers(help) => workers(alloc, help),
        Argument::ExplainWhen(help) => explain_when(alloc, help),
        Argument::WhichForms(help) => which_forms(alloc, help),
        Argument::Optional(name, shown, help) => optional(alloc, name, shown, help),
        Argument::NumberOr(name, default, shown, help) => {
            number_or(alloc, name, default, shown, help)
        }
        Argument::Flag(name, help) => flag(alloc, name, help),
        Argument::Path(name, help) => valued(alloc, name, "FILE", help),
    }
}

/// A command of this name, with the texts that its help begins and ends with.
fn told_command<'a>(alloc: Global, name: &'a str, about: &'a str, after: &'a str) -> Command<'a>
    ensures app { app_of result ≡ new_app name.entry.now }
    ensures own { (out-Command result).has_globals ≡ false }
{
    Command::new(alloc, name).about(about).after_help(after)
}

/// A command of the table.
fn command_of<'a>(alloc: Global, row: &CommandRow) -> Result<Command<'a>, AllocError>
    ensures app { IfOk result (λ command. app_of command ≡ app_of_row row.now) }
    ensures own { IfOk result (λ command. (out-Command command).has_globals ≡ false) }
{
    let mut command = told_command(alloc, row.name, row.about, row.after);
    for argument in row.arguments {
        command = command.arg(arg_of(alloc, *argument))?;
    }
    Ok(command)
}

/// The program's own line, without its commands. A build without proofs writes another second line of the version.
fn bare_command<'a>(alloc: Global) -> Command<'a>
    ensures app { app_of result ≡ bare_app }
    ensures own { (out-Command result).has_globals ≡ false }
{
    told_command(alloc, "dgc", ABOUT, STATUSES)
        .version("0.1.0\nproved in the logic dac8208d650f15bf")
        .subcommand_required(true)
}

/// A program with further commands, those of these rows.
fn with_commands<'a>(
    alloc: Global,
    program: Command<'a>,
    rows: &[&'static CommandRow],
) -> Result<Command<'a>, AllocError>
    requires { (out-Command program).has_globals ≡ false }
    ensures app { IfOk result (λ whole. app_of whole ≡ spec.with_commands (app_of program.entry) (map (λ row. app_of_row row.now) rows.now)) }
    ensures own { IfOk result (λ whole. (out-Command whole).has_globals ≡ false) }
{
    let mut whole = program;
    for row in rows {
        let command = match command_of(alloc, *row) {
            Ok(command) => command,
            Err(refused) => {
                drop(whole);
                return Err(refused);
            }
        };
        whole = whole.subcommand(command)?;
    }
    Ok(whole)
}

/// The whole grammar.
pub(crate) fn dgc_command<'a>(alloc: Global) -> Result<Command<'a>, AllocError>
    ensures app { IfOk result (λ command. app_of command ≡ dgc_app) }
    ensures own { IfOk result (λ command. (out-Command command).has_globals ≡ false) }
{
    with_commands(alloc, bare_command(alloc), commands().as_slice())
}
