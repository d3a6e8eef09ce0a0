//! Programs, words and arguments, as they are declared to clap.

use crate::declaration::{Argument, Declaration, Program, Takes};
use clap::{Arg, ArgAction, Command, value_parser};
use std::alloc::{AllocError, Global};

impl Program {
    /// The program's command, with its version and its own arguments, and no words yet. Error: out of memory.
    pub fn command<'a>(&self, alloc: Global) -> Result<Command<'a>, AllocError> {
        Ok(self.declaration.command(alloc)?.version(self.version))
    }
}

impl Declaration {
    /// The word's command, with its arguments. Error: out of memory.
    pub fn command<'a>(&self, alloc: Global) -> Result<Command<'a>, AllocError> {
        let mut command = Ok(bare_command(alloc, self));
        for i in 0..self.arguments.len() {
            command = with_argument(command, declared(alloc, &self.arguments[i]));
        }
        command
    }
}

/// A command with one more word, the last in its help. Error: out of memory, even if only in making one of the two.
pub fn with_word<'a>(
    command: Result<Command<'a>, AllocError>,
    word: Result<Command<'a>, AllocError>,
) -> Result<Command<'a>, AllocError> {
    command?.subcommand(word?)
}

/// A command with one argument more, where memory sufficed for both.
fn with_argument<'a>(
    command: Result<Command<'a>, AllocError>,
    argument: Result<Arg<'a>, AllocError>,
) -> Result<Command<'a>, AllocError> {
    command?.arg(argument?)
}

/// The command of a word without its arguments.
fn bare_command<'a>(alloc: Global, word: &Declaration) -> Command<'a> {
    let command = with_usage(Command::new(alloc, word.name).about(word.about), word.usage);
    match word.after_help {
        Some(text) => command.after_help(text),
        None => command,
    }
}

/// A command with how it is used, if that is given.
fn with_usage<'a>(command: Command<'a>, usage: Option<&'static str>) -> Command<'a> {
    match usage {
        Some(usage) => command.override_usage(usage),
        None => command,
    }
}

/// An argument with those that it excludes.
fn declared<'a>(alloc: Global, argument: &Argument) -> Result<Arg<'a>, AllocError> {
    let mut declared = taking(alloc, argument);
    for i in 0..argument.excludes.len() {
        declared = excluding(declared, argument.excludes[i]);
    }
    declared
}

/// An argument that excludes one more, if there was memory for it.
fn excluding<'a>(
    argument: Result<Arg<'a>, AllocError>,
    other: &'static str,
) -> Result<Arg<'a>, AllocError> {
    argument?.conflicts_with(other)
}

/// An argument with what it takes.
fn taking<'a>(alloc: Global, argument: &Argument) -> Result<Arg<'a>, AllocError> {
    let bare = Arg::new(alloc, argument.name).help(argument.help);
    match argument.takes {
        Takes::Texts { unless } => several(bare, unless),
        Takes::SomeTexts => Ok(some(bare)),
        Takes::Flag => Ok(bare.long(argument.name).action(ArgAction::SetTrue)),
        takes => Ok(with_default(
            with_name(taking_one(bare, takes), argument.name, takes),
            takes,
        )),
    }
}

/// An argument that takes texts, at least one unless the argument of this name is given.
fn several<'a>(argument: Arg<'a>, unless: &'static str) -> Result<Arg<'a>, AllocError> {
    argument
        .action(ArgAction::Append)
        .num_args(1..)
        .required_unless_present(unless)
}

/// An argument that takes texts, at least one.
fn some<'a>(argument: Arg<'a>) -> Arg<'a> {
    argument
        .action(ArgAction::Append)
        .num_args(1..)
        .required(true)
}

/// An argument that takes one value.
fn taking_one<'a>(argument: Arg<'a>, takes: Takes) -> Arg<'a> {
    let one = argument
        .action(ArgAction::Set)
        .required(takes.is_required())
        .allow_hyphen_values(takes.is_any());
    match takes {
        Takes::Number
        | Takes::NumberOr(_)
        | Takes::MaybeNumber
        | Takes::NumberOption { .. }
        | Takes::GivenNumberOption { .. } => {
            one.value_parser(value_parser!(u32).range(0..=4294967295))
        }
        Takes::CountOption { .. } => one.value_parser(value_parser!(u64)),
        Takes::ChoiceOption { choices, .. } => one.value_parser(choices),
        Takes::Text
        | Takes::AnyText
        | Takes::Texts { .. }
        | Takes::SomeTexts
        | Takes::TextOption { .. }
        | Takes::NeededTextOption { .. }
        | Takes::AnyTextOption { .. }
        | Takes::Flag => one,
    }
}

/// An argument with the name that is typed, if it is an option.
fn with_name<'a>(argument: Arg<'a>, name: &'static str, takes: Takes) -> Arg<'a> {
    match takes.value_name() {
        Some(value) => argument.long(name).value_name(value),
        None => argument,
    }
}

/// An argument with its default value, if it has one.
fn with_default<'a>(argument: Arg<'a>, takes: Takes) -> Arg<'a> {
    match takes.default() {
        Some(default) => argument.default_value(default),
        None => argument,
    }
}
