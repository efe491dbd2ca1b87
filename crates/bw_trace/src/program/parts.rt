//! What a command is made of.

use clap::{Arg, ArgAction, Command};
use std::alloc::{AllocError, Global};

/// A command, unless memory was refused.
pub(crate) type Made<'a> = Result<Command<'a>, AllocError>;

/// Returns a command without options.
pub(crate) fn new_command<'a>(
    alloc: Global,
    name: &'a str,
    about: &'a str,
    help: &'a str,
) -> Made<'a> {
    Ok(Command::new(alloc, name).about(about).after_help(help))
}

/// Adds an option whose value is a number, with its default.
pub(crate) fn with_number<'a>(
    alloc: Global,
    made: Made<'a>,
    name: &'a str,
    default: &'a str,
    help: &'a str,
) -> Made<'a> {
    with(made, number(alloc, name, help).default_value(default))
}

/// Adds an option whose value is a number, and that may be absent.
pub(crate) fn with_optional<'a>(
    alloc: Global,
    made: Made<'a>,
    name: &'a str,
    help: &'a str,
) -> Made<'a> {
    with(made, number(alloc, name, help))
}

/// Adds an option without a value.
pub(crate) fn with_flag<'a>(
    alloc: Global,
    made: Made<'a>,
    name: &'a str,
    help: &'a str,
) -> Made<'a> {
    with(made, flag(alloc, name, help))
}

/// Adds the file that is read in place of standard input.
pub(crate) fn with_file<'a>(alloc: Global, made: Made<'a>) -> Made<'a> {
    let file = Arg::new(alloc, "FILE").help("The file to read [default: standard input]");
    with(made, file)
}

fn with<'a>(made: Made<'a>, option: Arg<'a>) -> Made<'a> {
    made?.arg(option)
}

/// Adds an option that conflicts with the others.
pub(crate) fn with_apart<'a>(made: Made<'a>, option: Arg<'a>, others: &[&'a str]) -> Made<'a> {
    made?.arg(option.conflicts_with_all(others)?)
}

/// Adds a command below it.
pub(crate) fn over<'a>(made: Made<'a>, below: Made<'a>) -> Made<'a> {
    made?.subcommand(below?)
}

/// Returns an option whose value is a number.
pub(crate) fn number<'a>(alloc: Global, name: &'a str, help: &'a str) -> Arg<'a> {
    option(alloc, name, help).value_parser(clap::value_parser!(u64))
}

/// Returns an option without a value.
pub(crate) fn flag<'a>(alloc: Global, name: &'a str, help: &'a str) -> Arg<'a> {
    option(alloc, name, help).action(ArgAction::SetTrue)
}

fn option<'a>(alloc: Global, name: &'a str, help: &'a str) -> Arg<'a> {
    Arg::new(alloc, name).long(name).help(help)
}
