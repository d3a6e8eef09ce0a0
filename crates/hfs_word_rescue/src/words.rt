//! What is asked for.
ghost use Rattle.std.specs.Prelude.{◌≡◌, ◌≤◌};
ghost use Rattle.hfs_word_rescue.specs.Words.{limit_or_usual};

use hfs_remains_forks::usual_limit;

/// What is to be looked for in an image, and how much of it is taken.
#[derive(Clone, Copy)]
pub struct RescueWords<'a> {
    /// The path of the image.
    pub image: &'a str,
    /// The number of the volume in it, if one is asked for.
    pub volume: Option<u64>,
    /// How many bytes of forks are taken at most; by default four times as many as the image has.
    pub limit: Option<u64>,
}

/// The bag that is filled with it.
#[derive(Clone, Copy)]
pub struct BagWords<'a> {
    pub words: RescueWords<'a>,
    /// The path of the folder that is made.
    pub folder: &'a str,
    /// Whether the bag is to have the image's digest.
    pub is_digested: bool,
    /// The name and version of the program.
    pub program: &'a str,
}

impl RescueWords<'_> {
    /// How many bytes of forks are taken at most of an image of `len` bytes.
    pub(crate) fn limit_for(&self, len: u64) -> u64
        requires { len ≤ 2147483648 }
        ensures { result ≡ limit_or_usual self.now.limit len }
    {
        match self.limit {
            Some(limit) => limit,
            None => usual_limit(len as u32),
        }
    }
}
