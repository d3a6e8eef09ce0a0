//! Why an item can't be put, as it is printed.
ghost use Rattle.std.specs.Fmt.{signed_decimal};
ghost use Rattle.std.specs.Prelude.{◌≡◌, ◌++◌, OnOk, codes};
ghost use Rattle.hfs_texts.specs.Texts.{Gains};
ghost use Rattle.hfs_word_put.specs.Reasons.{reason_of, reason_text};

use hfs_model::DUPLICATE;
use hfs_put_plan::Why;
use hfs_texts::Show;
use std::alloc::AllocError;

/// Why an item can't be put.
#[derive(Clone, Copy, Debug, PartialEq, Eq, Drop)]
pub enum PutReason {
    /// It is neither a file nor a folder.
    NotAFile,
    /// One of its forks has more bytes than a fork can have.
    TooLarge,
    /// The file that belongs to it by its name is no AppleDouble file.
    NotAppleDouble,
    /// It has no item name.
    NoName,
    /// An earlier item in the same folder has the same name.
    TwoOfOneName,
    /// A call that puts it answers with this code.
    Code(i16),
    /// It isn't what its bag's manifest says.
    Digest,
    /// This many allocation blocks are free, and all items together want this many.
    Room { free: u32, wanted: u64 },
    /// A call that puts it wants more nodes of a tree: this many are free, and the tree has this many levels.
    Full { free: u32, depth: u32 },
    /// It is a folder with a name that is not UTF-8.
    NameNotText,
}

impl PutReason {
    /// The reason for what was found of an item. If its first call is refused, the name is taken.
    pub fn of(why: Why) -> PutReason
        ensures { result ≡ reason_of why }
    {
        match why {
            Why::NotAFile => PutReason::NotAFile,
            Why::TooLarge => PutReason::TooLarge,
            Why::NotAppleDouble => PutReason::NotAppleDouble,
            Why::NoName => PutReason::NoName,
            Why::TwoOfOneName => PutReason::TwoOfOneName,
            Why::Refused => PutReason::Code(DUPLICATE),
        }
    }
}

/// Appends a word and then two numbers.
fn push_two<F: Show + Drop, S: Show + Drop>(
    text: &mut String,
    word: &str,
    first: F,
    second: S,
) -> Result<(), AllocError>
    ensures { OnOk result (Gains text.old text.new
        (word.now ++ F.shown first ++ codes " " ++ S.shown second)) }
{
    text.push_str(word)?;
    first.push_to(text)?;
    text.push(' ')?;
    second.push_to(text)
}

/// Appends that a call answers with this code.
fn push_code(text: &mut String, code: i16) -> Result<(), AllocError>
    ensures { OnOk result (Gains text.old text.new (codes "code " ++ signed_decimal code)) }
{
    text.push_str("code ")?;
    code.push_to(text)
}

impl Show for PutReason {
    ghost shown = { λ reason. reason_text reason };

    #[tactic(auto, unfolding(crate::specs::Reasons::reason_text))]
    fn push_to(&self, text: &mut String) -> Result<(), AllocError> {
        match *self {
            PutReason::NotAFile => text.push_str("not a file"),
            PutReason::TooLarge => text.push_str("too large"),
            PutReason::NotAppleDouble => text.push_str("not AppleDouble"),
            PutReason::NoName => text.push_str("name"),
            PutReason::TwoOfOneName => text.push_str("two of one name"),
            PutReason::Code(code) => push_code(text, code),
            PutReason::Digest => text.push_str("digest"),
            PutReason::Room { free, wanted } => push_two(text, "room ", free, wanted),
            PutReason::Full { free, depth } => push_two(text, "full ", free, depth),
            PutReason::NameNotText => text.push_str("a name in it is not UTF-8"),
        }
    }
}
