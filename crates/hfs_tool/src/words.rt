//! The program's words: the command that is made of them, and which one does what a command line asks for.

mod cat;
mod check;
mod extract;
mod info;
mod items;
mod ls;
mod make;
mod new;
mod page;
mod put;
mod repair;
mod rescue;
mod run;
mod take;
mod volumes;

use crate::help::AFTER_HELP;
use crate::word::Word;
use cat::Cat;
use check::Check;
use clap::{ArgMatches, Command, Error};
use extract::Extract;
use hfs_commands::Status;
use hfs_console::{
    Declaration, Program, VERSION, WordsFault, refused, refused_words, tell_kind, tell_more,
    with_word,
};
use info::{Info, print_info};
use items::Items;
use ls::Ls;
use make::Make;
use new::New;
use page::Page;
use put::Put;
use repair::Repair;
use rescue::Rescue;
use run::Run;
use std::alloc::{AllocError, Global};
use std::io::IsTerminal;
use std::sync::Wait;
use std::thread::Threads;
use take::Take;
use volumes::Volumes;

/// The program, without its words.
const TOOL: Program = Program {
    declaration: Declaration {
        name: "hfs_tool",
        about: "Reads, checks, repairs and makes HFS volumes, the disks of old Macintoshes, and copies files off and onto them. Without a command it prints the info of standard input",
        usage: None,
        after_help: Some(AFTER_HELP),
        arguments: &[],
    },
    version: VERSION,
};

/// The program's command, with its words in the order of its help.
fn command<'a>(alloc: Global) -> Result<Command<'a>, AllocError> {
    let command = with::<Info<'_>>(TOOL.command(alloc), alloc);
    let command = with::<Check<'_>>(command, alloc);
    let command = with::<Ls<'_>>(command, alloc);
    let command = with::<Items<'_>>(command, alloc);
    let command = with::<Page<'_>>(command, alloc);
    let command = with::<Cat<'_>>(command, alloc);
    let command = with::<Volumes<'_>>(command, alloc);
    let command = with::<Extract<'_>>(command, alloc);
    let command = with::<Take<'_>>(command, alloc);
    let command = with::<Rescue<'_>>(command, alloc);
    let command = with::<New<'_>>(command, alloc);
    let command = with::<Repair<'_>>(command, alloc);
    let command = with::<Run<'_>>(command, alloc);
    let command = with::<Put<'_>>(command, alloc);
    with::<Make<'_>>(command, alloc)
}

/// A command with this word as its last.
fn with<'a, 'w, W: Word<'w>>(
    command: Result<Command<'a>, AllocError>,
    alloc: Global,
) -> Result<Command<'a>, AllocError> {
    with_word(command, W::DECLARATION.command(alloc))
}

/// Does what the word of this name is asked for, and returns the exit status.
fn answer_word<T: Threads + Wait + Sync>(
    rt: &HostRuntime,
    threads: &T,
    name: &str,
    matches: &ArgMatches<'_>,
) -> u8 {
    match name {
        "info" => answer::<Info<'_>, T>(rt, threads, matches),
        "check" => answer::<Check<'_>, T>(rt, threads, matches),
        "ls" => answer::<Ls<'_>, T>(rt, threads, matches),
        "items" => answer::<Items<'_>, T>(rt, threads, matches),
        "page" => answer::<Page<'_>, T>(rt, threads, matches),
        "cat" => answer::<Cat<'_>, T>(rt, threads, matches),
        "volumes" => answer::<Volumes<'_>, T>(rt, threads, matches),
        "extract" => answer::<Extract<'_>, T>(rt, threads, matches),
        "take" => answer::<Take<'_>, T>(rt, threads, matches),
        "rescue" => answer::<Rescue<'_>, T>(rt, threads, matches),
        "new" => answer::<New<'_>, T>(rt, threads, matches),
        "repair" => answer::<Repair<'_>, T>(rt, threads, matches),
        "run" => answer::<Run<'_>, T>(rt, threads, matches),
        "put" => answer::<Put<'_>, T>(rt, threads, matches),
        "make" => answer::<Make<'_>, T>(rt, threads, matches),
        _ => refused_words(rt, &WordsFault::NoValue("COMMAND")),
    }
}

/// Does what the command line asks for, whose first word is the program's own name, and returns the exit status.
pub fn answer_words<T: Threads + Wait + Sync>(
    rt: &HostRuntime,
    threads: &T,
    words: &[String],
) -> u8 {
    if is_collect(words) {
        return refused_words(
            rt,
            &WordsFault::Moved {
                word: "collect",
                program: "hfs_collect",
            },
        );
    }
    match matches_of(rt.alloc(), words) {
        Ok(matches) => answer_matches(rt, threads, &matches),
        Err(error) => refuse(rt, words, &WordsFault::Clap(error)),
    }
}

/// Whether the first word is that of another program, whatever follows it.
fn is_collect(words: &[String]) -> bool {
    match words.get(1) {
        Some(word) => word.as_str() == "collect",
        None => false,
    }
}

/// What the program's command finds in the command line.
fn matches_of<'a>(alloc: Global, words: &'a [String]) -> Result<ArgMatches<'a>, Error> {
    command(alloc)?.try_get_matches_from(words)
}

/// Does what was found in the command line.
fn answer_matches<T: Threads + Wait + Sync>(
    rt: &HostRuntime,
    threads: &T,
    matches: &ArgMatches<'_>,
) -> u8 {
    match matches.subcommand() {
        Some((name, inner)) => answer_word(rt, threads, name, inner),
        None => answer_no_word(rt),
    }
}

/// Does what a word is asked for and, at a terminal, prints what a refused image looks like.
fn answer<'a, W: Word<'a>, T: Threads + Wait + Sync>(
    rt: &HostRuntime,
    threads: &T,
    matches: &ArgMatches<'a>,
) -> u8 {
    let word = match W::read(rt.alloc(), matches) {
        Ok(word) => word,
        Err(fault) => return refused_words(rt, &fault),
    };
    let status = obey(rt, threads, &word);
    if status == Status::ImageRefused.number()
        && let Some(image) = word.looked_at()
    {
        tell_kind(rt, image.path, image.volume);
    }
    status
}

/// Does what a word is asked for, and prints the fault if it isn't done, with what else there is to say about it at a terminal.
fn obey<'a, W: Word<'a>, T: Threads + Wait + Sync>(rt: &HostRuntime, threads: &T, word: &W) -> u8 {
    match word.obey(rt, threads) {
        Ok(status) => status,
        Err(fault) => {
            let status = refused(rt, &fault);
            tell_more(rt, &fault);
            status
        }
    }
}

/// Without a word, prints the master directory block of standard input. A terminal gets the help: nobody types a volume there.
fn answer_no_word(rt: &HostRuntime) -> u8 {
    if rt.stdin().is_terminal() {
        return print_help(rt);
    }
    match print_info(rt, &mut rt.stdin(), "stdin") {
        Ok(status) => status,
        Err(fault) => refused(rt, &fault),
    }
}

/// What the program's command answers when its help is asked for.
fn help_of<'a>(alloc: Global) -> Result<ArgMatches<'a>, Error> {
    command(alloc)?.try_get_matches_from(&["hfs_tool", "--help"])
}

/// Prints the program's help, and returns the exit status.
fn print_help(rt: &HostRuntime) -> u8 {
    match help_of(rt.alloc()) {
        Ok(_matches) => Status::Done.number(),
        Err(error) => refused_words(rt, &WordsFault::Clap(error)),
    }
}

/// Prints why the command line is refused, or the help that was asked for; and how an item is named by its path, if a path is in
/// place of an ID.
fn refuse(rt: &HostRuntime, words: &[String], fault: &WordsFault) -> u8 {
    let status = refused_words(rt, fault);
    if status == Status::WordsRefused.number() && has_bare_path(words) {
        return Status::WordsRefused.after(println!(rt;
            "tip: --path names an item by its path: hfs_tool ls disk.img --path :Games"
        ));
    }
    status
}

/// Whether a path follows the image of `ls` or `cat`, where the ID of a folder is wanted.
fn has_bare_path(words: &[String]) -> bool {
    match (words.get(1), words.get(3)) {
        (Some(word), Some(place)) => {
            (word.as_str() == "ls" || word.as_str() == "cat") && place.as_str().contains(':')
        }
        _ => false,
    }
}
