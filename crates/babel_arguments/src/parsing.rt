//! The words of the command line, and what `clap` makes of them by the tables.

use crate::tables::{Argument, Place, Program, Rule, Subcommand, Takes};
use clap::builder::ValueParser;
use clap::{Arg, ArgAction, ArgMatches, Command};
use std::alloc::{AllocError, Global};
use std::rt::Env;
use std::{env, io};

/// Why the words of the command line can't be read.
#[derive(Clone, Copy)]
pub enum WordsFault {
    /// A word isn't UTF-8.
    NotText,
    /// An allocation failed.
    Memory,
}

impl From<AllocError> for WordsFault {
    fn from(_error: AllocError) -> WordsFault {
        WordsFault::Memory
    }
}

/// The words of the command line, the program's name first.
pub fn read_words<R: AllocGlobal + Env>(rt: &R) -> Result<Vec<String>, WordsFault> {
    match env::args(rt) {
        Ok(words) => Ok(words.collect(rt.alloc())?),
        Err(error) if error.kind() == io::ErrorKind::OutOfMemory => Err(WordsFault::Memory),
        Err(_) => Err(WordsFault::NotText),
    }
}

/// The command that the words name, and its arguments. The first word is the program's name. An
/// error is a fault of the words, or the help or the version that they ask for.
pub fn parse<'a>(
    alloc: Global,
    program: &Program<'_>,
    words: &'a [String],
) -> Result<ArgMatches<'a>, clap::Error> {
    let command: Command<'a> = command_of(alloc, program)?;
    command.try_get_matches_from(words)
}

fn command_of<'a>(alloc: Global, program: &Program<'_>) -> Result<Command<'a>, AllocError> {
    let mut command = Command::new(alloc, program.name)
        .version(program.version)
        .about(program.about)
        .after_help(program.after_help)
        .subcommand_required(true)
        .disable_help_subcommand(true);
    for subcommand in program.subcommands {
        command = command.subcommand(subcommand_of(alloc, subcommand)?)?;
    }
    Ok(command)
}

fn subcommand_of<'a>(alloc: Global, subcommand: &Subcommand) -> Result<Command<'a>, AllocError> {
    let args = args_of(alloc, subcommand.arguments)?;
    let command = Command::new(alloc, subcommand.name)
        .about(subcommand.about)
        .after_help(subcommand.after_help)
        .args(args)?;
    match subcommand.usage {
        Some(usage) => Ok(command.override_usage(usage)),
        None => Ok(command),
    }
}

fn args_of<'a>(alloc: Global, arguments: &[Argument]) -> Result<Vec<Arg<'a>>, AllocError> {
    let mut args = Vec::new(alloc);
    for argument in arguments {
        args.push(arg_of(alloc, argument)?)?;
    }
    Ok(args)
}

fn arg_of<'a>(alloc: Global, argument: &Argument) -> Result<Arg<'a>, AllocError> {
    let arg = Arg::new(alloc, argument.name).help(argument.help);
    let arg = match argument.place {
        Place::Position => arg,
        Place::Name => arg.long(argument.name),
    };
    with_rules(with_values(arg, argument.takes), argument.rules)
}

/// The argument with what it takes.
fn with_values<'a>(arg: Arg<'a>, takes: Takes) -> Arg<'a> {
    let arg = arg.action(action_of(takes));
    match takes {
        Takes::Nothing => arg,
        Takes::Text(value) | Takes::Texts(value) => arg.value_name(value),
        Takes::Number(value, least, greatest) => arg
            .value_name(value)
            .value_parser(ValueParser::unsigned(least, greatest)),
        Takes::Word(value, words) => arg
            .value_name(value)
            .value_parser(words)
            .hide_possible_values(true),
        Takes::Words(value, words) => arg
            .value_name(value)
            .value_parser(words)
            .hide_possible_values(true)
            .value_delimiter(','),
    }
}

/// What becomes of the values if it is given several times.
fn action_of(takes: Takes) -> ArgAction {
    match takes {
        Takes::Nothing => ArgAction::SetTrue,
        Takes::Text(_) | Takes::Number(_, _, _) | Takes::Word(_, _) => ArgAction::Set,
        Takes::Texts(_) | Takes::Words(_, _) => ArgAction::Append,
    }
}

fn with_rules<'a>(arg: Arg<'a>, rules: &[Rule]) -> Result<Arg<'a>, AllocError> {
    let mut arg = arg;
    for rule in rules {
        arg = with_rule(arg, *rule)?;
    }
    Ok(arg)
}

fn with_rule<'a>(arg: Arg<'a>, rule: Rule) -> Result<Arg<'a>, AllocError> {
    match rule {
        Rule::Required => Ok(arg.required(true)),
        Rule::RequiredUnless(other) => arg.required_unless_present(other),
        Rule::ConflictsWith(other) => arg.conflicts_with(other),
        Rule::Requires(other) => arg.requires_arg(other),
    }
}
