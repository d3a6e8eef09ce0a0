//! The values of arguments.

ghost use Rattle.std.specs.Prelude.{◌≡◌, ◌≢◌, ℕ, List, [], None, Some, Ok, IfOk, IsErr, MatchBool, MatchResult, map, option_map};
ghost use Rattle.std.specs.Option.{option_map_or};
ghost use Rattle.std.specs.Str.Parse.{ParsesUnsigned, false_text, true_text};
ghost use Rattle.clap.specs.Matches.{first_value, found_of, matched_of, one_text, raw_values};
ghost use Rattle.hfs_console.specs.Numbers.{ReadsNumber};

use crate::declaration::Argument;
use clap::ArgMatches;
use std::alloc::{AllocError, Global};

/// An argument has no value although clap makes sure that it has one, which is a fault of the program and not of the command
/// line; or its text is no value that the program knows. Holds the argument's name, in the second case with what is wanted.
#[derive(Clone, Copy)]
pub struct NoValue(pub &'static str);

impl Argument {
    /// The text of an argument that is required or has a default.
    pub fn text<'a>(&self, matches: &ArgMatches<'a>) -> Result<&'a str, NoValue>
        ensures { MatchResult result
            (λ text. first_value (found_of matches.now) self.now.name.now ≡ Some text.now)
            (λ missing. first_value (found_of matches.now) self.now.name.now ≡ None) }
    {
        match matches.get_str(self.name) {
            Some(text) => Ok(text),
            None => Err(NoValue(self.name)),
        }
    }

    /// The text of an argument that may be left out.
    pub fn given_text<'a>(&self, matches: &ArgMatches<'a>) -> Option<&'a str>
        ensures { option_map (λ text. text.now) result ≡ first_value (found_of matches.now) self.now.name.now }
    {
        matches.get_str(self.name)
    }

    /// The texts of an argument that may be given any number of times, in order. Fails only when out of memory.
    pub fn texts<'a>(
        &self,
        alloc: Global,
        matches: &ArgMatches<'a>,
    ) -> Result<Vec<&'a str>, AllocError>
        ensures { IfOk result (λ texts. map (λ text. text.now) texts.items
            ≡ option_map_or raw_values (matched_of (found_of matches.now) self.now.name.now) []) }
    {
        match matches.get_strs(self.name) {
            Some(texts) => Vec::from_slice(alloc, texts),
            None => Ok(Vec::new(alloc)),
        }
    }

    /// The number of an argument that is required or has a default.
    pub fn number(&self, matches: &ArgMatches<'_>) -> Result<u32, NoValue>
        ensures none { one_text (found_of matches.now) self.now.name.now ≡ None → IsErr result }
        ensures number { (text : List ℕ) → one_text (found_of matches.now) self.now.name.now ≡ Some text
            → ParsesUnsigned 32 10 text result }
    {
        match matches.get_one::<u32>(self.name) {
            Some(number) => Ok(number),
            None => Err(NoValue(self.name)),
        }
    }

    /// The number of an option from 0 to 4,294,967,295, if it is given.
    pub fn given_number(&self, matches: &ArgMatches<'_>) -> Result<Option<u32>, NoValue>
        ensures none { one_text (found_of matches.now) self.now.name.now ≡ None → result ≡ Ok None }
        ensures number { (text : List ℕ) → one_text (found_of matches.now) self.now.name.now ≡ Some text
            → ReadsNumber 32 text result }
    {
        match matches.try_get_one::<u32>(self.name) {
            Ok(found) => Ok(found),
            Err(_) => Err(NoValue(self.name)),
        }
    }

    /// The number of an option of 64 bits, if it is given.
    pub fn given_count(&self, matches: &ArgMatches<'_>) -> Result<Option<u64>, NoValue>
        ensures none { one_text (found_of matches.now) self.now.name.now ≡ None → result ≡ Ok None }
        ensures number { (text : List ℕ) → one_text (found_of matches.now) self.now.name.now ≡ Some text
            → ReadsNumber 64 text result }
    {
        match matches.try_get_one::<u64>(self.name) {
            Ok(number) => Ok(number),
            Err(_) => Err(NoValue(self.name)),
        }
    }

    /// Whether an option without a value is given. `NoValue` if clap has neither of its two texts.
    pub fn is_given(&self, matches: &ArgMatches<'_>) -> Result<bool, NoValue>
        ensures { MatchResult result
            (λ is_given. MatchBool is_given
            (one_text (found_of matches.now) self.now.name.now ≡ Some true_text)
            (one_text (found_of matches.now) self.now.name.now ≡ Some false_text))
            (λ missing. (one_text (found_of matches.now) self.now.name.now ≢ Some true_text)
            × (one_text (found_of matches.now) self.now.name.now ≢ Some false_text)) }
    {
        match matches.get_one::<bool>(self.name) {
            Some(is_given) => Ok(is_given),
            None => Err(NoValue(self.name)),
        }
    }
}
