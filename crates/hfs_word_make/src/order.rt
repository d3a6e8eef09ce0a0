//! What a new volume is made of, and how.
ghost use Rattle.std.specs.Prelude.{◌≡◌};
ghost use Rattle.hfs_word_make.specs.Orders.{put_order};

use hfs_put_sources::PutOptions;
use hfs_word_put::PutOrder;

/// What a new volume is made of, and how.
#[derive(Clone, Copy)]
pub struct MakeOrder<'a> {
    /// The paths of what comes, in order.
    pub sources: &'a [&'a str],
    /// The volume's name; where it is left out, that of the one bag or folder that comes.
    pub name: Option<&'a str>,
    /// The volume's size, as it is typed; where it is left out, the least that suffices.
    pub size: Option<&'a str>,
    /// How what comes is looked at.
    pub how: PutOptions,
    /// The moment of every change, in seconds since midnight of 1 January 1904.
    pub now: u32,
}

impl<'a> MakeOrder<'a> {
    /// How what comes is put: into the root of a volume on which nothing lies yet.
    pub(crate) fn put_order(&self) -> PutOrder<'a>
        ensures { result ≡ put_order self.entry.now }
    {
        PutOrder {
            sources: self.sources,
            to: None,
            how: self.how,
            replace: false,
            now: self.now,
        }
    }
}
