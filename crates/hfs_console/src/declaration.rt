//! What a program's words take, and what their help says.

/// A program: its name, texts and arguments, and its version. The words that it knows are added one by one, since a constant with
/// all of them would be too long for one proof.
#[derive(Clone, Copy)]
pub struct Program {
    pub declaration: Declaration,
    pub version: &'static str,
}

/// What clap is told of a word that a program knows, or of the program itself.
#[derive(Clone, Copy)]
pub struct Declaration {
    /// What is typed.
    pub name: &'static str,
    /// What it does, in a line of help.
    pub about: &'static str,
    /// How it is used, if its arguments alone don't say.
    pub usage: Option<&'static str>,
    /// What its help says after its arguments.
    pub after_help: Option<&'static str>,
    /// Its arguments, in the order of its help.
    pub arguments: &'static [Argument],
}

/// An argument of a word.
#[derive(Clone, Copy)]
pub struct Argument {
    /// Its name, by which its value is read. An option is typed with two hyphens before it.
    pub name: &'static str,
    /// What it takes.
    pub takes: Takes,
    /// What its help says.
    pub help: &'static str,
    /// The names of the arguments that can't be given together with it.
    pub excludes: &'static [&'static str],
}

/// What an argument takes. The name of an option's value is the one in its help text.
#[derive(Clone, Copy)]
pub enum Takes {
    /// A text that is required.
    Text,
    /// A text that is required, and may begin with a hyphen.
    AnyText,
    /// Texts, at least one unless the argument of this name is given.
    Texts {
        unless: &'static str,
    },
    /// Texts, at least one.
    SomeTexts,
    /// A number from 0 to 4,294,967,295 that is required.
    Number,
    /// A number from 0 to 4,294,967,295, and its default.
    NumberOr(&'static str),
    /// A number from 0 to 4,294,967,295 that may be left out.
    MaybeNumber,
    /// An option with a text.
    TextOption {
        value: &'static str,
    },
    /// An option with a text that is required.
    NeededTextOption {
        value: &'static str,
    },
    /// An option with a text that may begin with a hyphen.
    AnyTextOption {
        value: &'static str,
    },
    /// An option with one of these texts, and its default.
    ChoiceOption {
        value: &'static str,
        choices: &'static [&'static str],
        default: &'static str,
    },
    /// An option with a number from 0 to 4,294,967,295, and its default.
    NumberOption {
        value: &'static str,
        default: &'static str,
    },
    /// An option with a number from 0 to 4,294,967,295.
    GivenNumberOption {
        value: &'static str,
    },
    /// An option with a number of 64 bits.
    CountOption {
        value: &'static str,
    },
    /// An option without a value.
    Flag,
}

impl Takes {
    /// Whether it is required.
    pub(crate) fn is_required(self) -> bool {
        matches!(
            self,
            Takes::Text | Takes::AnyText | Takes::Number | Takes::NeededTextOption { .. }
        )
    }

    /// Whether it may begin with a hyphen.
    pub(crate) fn is_any(self) -> bool {
        matches!(self, Takes::AnyText | Takes::AnyTextOption { .. })
    }

    /// The name of an option's value.
    pub(crate) fn value_name(self) -> Option<&'static str> {
        match self {
            Takes::TextOption { value }
            | Takes::NeededTextOption { value }
            | Takes::AnyTextOption { value }
            | Takes::ChoiceOption { value, .. }
            | Takes::NumberOption { value, .. }
            | Takes::GivenNumberOption { value }
            | Takes::CountOption { value } => Some(value),
            Takes::Text
            | Takes::AnyText
            | Takes::Texts { .. }
            | Takes::SomeTexts
            | Takes::Number
            | Takes::NumberOr(_)
            | Takes::MaybeNumber
            | Takes::Flag => None,
        }
    }

    /// Its default, if it has one.
    pub(crate) fn default(self) -> Option<&'static str> {
        match self {
            Takes::NumberOr(default)
            | Takes::ChoiceOption { default, .. }
            | Takes::NumberOption { default, .. } => Some(default),
            Takes::Text
            | Takes::AnyText
            | Takes::Texts { .. }
            | Takes::SomeTexts
            | Takes::Number
            | Takes::MaybeNumber
            | Takes::TextOption { .. }
            | Takes::NeededTextOption { .. }
            | Takes::AnyTextOption { .. }
            | Takes::GivenNumberOption { .. }
            | Takes::CountOption { .. }
            | Takes::Flag => None,
        }
    }
}
