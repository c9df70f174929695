//! Commands and their arguments, as rows of a table.

ghost use Rattle.std.specs.Prelude.{◌≡◌, IfOk, false};
ghost use Rattle.clap.specs.Words.{app_of, new_app, rule_of};
ghost use Rattle.command_line.specs.Arguments.{row_app, row_rule, with_commands};

use clap::{Arg, ArgAction, Command};
use std::alloc::{AllocError, Global};

/// How an argument is given.
#[derive(Clone, Copy)]
pub(crate) enum Form {
    /// As `--` and its name.
    Flag,
    /// As `--` and its name with a word after it.
    Word,
    /// As a word option that must be given.
    Needed,
    /// As a word in its place, which must be given.
    Place,
}

/// An argument of a command: how it is given, its name, that of its word, and what its help says.
#[derive(Clone, Copy)]
pub(crate) struct ArgumentRow<'a> {
    pub(crate) form: Form,
    pub(crate) name: &'a str,
    pub(crate) value: &'a str,
    pub(crate) help: &'a str,
}

/// A subcommand: its name, what it does, what its help ends with, and its arguments.
#[derive(Clone, Copy)]
pub(crate) struct CommandRow<'a> {
    pub(crate) name: &'a str,
    pub(crate) about: &'a str,
    pub(crate) notes: Option<&'a str>,
    pub(crate) arguments: &'a [ArgumentRow<'a>],
}

/// The row of a flag.
macro_rules! flag {
    ($name:expr, $help:expr) => {
        ArgumentRow {
            form: Form::Flag,
            name: $name,
            value: "",
            help: $help,
        }
    };
}

/// The row of an option with a word after it.
macro_rules! word {
    ($name:expr, $value:expr, $help:expr) => {
        ArgumentRow {
            form: Form::Word,
            name: $name,
            value: $value,
            help: $help,
        }
    };
}

/// The row of an option that must be given, with a word after it.
macro_rules! needed {
    ($name:expr, $value:expr, $help:expr) => {
        ArgumentRow {
            form: Form::Needed,
            name: $name,
            value: $value,
            help: $help,
        }
    };
}

/// The row of a word that must be given.
macro_rules! place {
    ($name:expr, $value:expr, $help:expr) => {
        ArgumentRow {
            form: Form::Place,
            name: $name,
            value: $value,
            help: $help,
        }
    };
}

pub(crate) use flag;
pub(crate) use needed;
pub(crate) use place;
pub(crate) use word;

/// The argument of a row, which isn't one for subcommands.
fn arg_of<'a>(alloc: Global, row: &ArgumentRow<'a>) -> Arg<'a>
    ensures rule { rule_of result ≡ row_rule row.now }
    ensures local { result.global ≡ false }
{
    let arg = Arg::new(alloc, row.name).help(row.help);
    match row.form {
        Form::Flag => arg.long(row.name).action(ArgAction::SetTrue),
        Form::Word => arg.long(row.name).value_name(row.value),
        Form::Needed => arg.long(row.name).value_name(row.value).required(true),
        Form::Place => arg.value_name(row.value).required(true),
    }
}

/// The command of a row, without its arguments.
fn named<'a>(alloc: Global, row: &CommandRow<'a>) -> Command<'a>
    ensures { app_of result ≡ new_app row.now.name.now }
{
    let command = Command::new(alloc, row.name).about(row.about);
    match row.notes {
        Some(notes) => command.after_help(notes),
        None => command,
    }
}

/// The command of a row, with its arguments in their order.
fn command_of<'a>(alloc: Global, row: &CommandRow<'a>) -> Result<Command<'a>, AllocError>
    ensures { IfOk result (λ c. app_of c ≡ row_app row.now) }
{
    let mut command = named(alloc, row);
    for argument in row.arguments {
        command = command.arg(arg_of(alloc, argument))?;
    }
    Ok(command)
}

/// A command with the subcommands of these rows more, in their order. One loop adds them all, since the prover's
/// time for a function grows with the commands that stand in it.
pub(crate) fn with_commands<'a>(
    alloc: Global,
    command: Command<'a>,
    rows: &[CommandRow<'a>],
) -> Result<Command<'a>, AllocError>
    ensures { IfOk result (λ c. app_of c ≡ with_commands (app_of command.entry) rows.now) }
{
    let mut command = command;
    for row in rows {
        command = command.subcommand(command_of(alloc, row)?)?;
    }
    Ok(command)
}
