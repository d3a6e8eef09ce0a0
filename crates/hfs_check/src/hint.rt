//! What a refusal means for the disk, and which word helps.
ghost use Rattle.std.specs.Prelude.{◌≡◌, Some};
ghost use Rattle.hfs_check.specs.Hints.{hint_of, hint_of_check, hint_text};

use crate::MountFault;
use hfs_texts::Show;
use std::alloc::AllocError;
use std::fmt;

/// What a refusal means for someone with the disk in hand. Its `Display` is one line for a terminal.
#[derive(Clone, Copy, Debug, PartialEq, Eq)]
pub enum Hint {
    /// The volume may begin further on in the file, or the block that describes it may be lost.
    NotHere,
    /// Only counts are wrong, which can be mended.
    WrongCounts,
    /// A name is not accepted; nothing else need be wrong.
    NameNotTaken,
    /// The disk is damaged.
    Damaged,
}

impl Hint {
    /// The hint for a refusal; None if the refusal's own text says everything.
    #[tactic(auto, unfolding(crate::specs::Hints::hint_of))]
    pub fn of(why: MountFault) -> Option<Hint>
        ensures { result ≡ hint_of why }
    {
        match why {
            MountFault::TooLarge | MountFault::Short | MountFault::Memory => None,
            MountFault::NoMacDisk => Some(Hint::NotHere),
            MountFault::BadMdb(_) => Some(Hint::Damaged),
            MountFault::Check { number, .. } => Some(Hint::of_check(number)),
        }
    }

    /// The hint for a check that failed, by its number.
    #[tactic(auto, unfolding(crate::specs::Hints::hint_of_check))]
    fn of_check(number: u8) -> Hint
        ensures { result ≡ hint_of_check number }
    {
        if number == 7 {
            Hint::NameNotTaken
        } else if number == 9 || number == 10 {
            Hint::WrongCounts
        } else {
            Hint::Damaged
        }
    }
}

impl fmt::Display for Hint {
    ghost output = { λ hint. Some (hint_text hint) };

    #[tactic(auto, unfolding(crate::specs::Hints::hint_text))]
    fn fmt<W: fmt::Write>(&self, f: &mut fmt::Formatter<W>) -> fmt::Result {
        match self {
            Hint::NotHere => write!(
                f,
                "no HFS volume begins here; hfs_tool volumes FILE looks for one inside, and hfs_tool rescue for what remains of one"
            ),
            Hint::WrongCounts => write!(
                f,
                "counts are wrong, the files may be whole; hfs_tool repair mends counts, and hfs_tool rescue takes the files off as they are"
            ),
            Hint::NameNotTaken => write!(
                f,
                "the disk may be sound: it has a name that this program does not take; hfs_tool rescue takes its files off"
            ),
            Hint::Damaged => write!(
                f,
                "the disk is damaged; hfs_tool rescue takes off what is there"
            ),
        }
    }
}

impl Show for Hint {
    ghost shown = { λ hint. hint_text hint };

    fn push_to(&self, text: &mut String) -> Result<(), AllocError> {
        write!(text, "{}", *self)
    }
}
