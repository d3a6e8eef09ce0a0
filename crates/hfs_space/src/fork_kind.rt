//! The two forks of a file.

ghost use Rattle.std.specs.Prelude.{◌≡◌};
ghost use Rattle.hfs_space.specs.Extents.{fork_byte};

/// Which fork of a file.
#[derive(Debug, Clone, Copy, PartialEq, Eq)]
pub enum ForkKind {
    /// The data fork.
    Data,
    /// The resource fork.
    Resource,
}

/// The byte of a fork in the keys of the extents tree (xkrFkType): $00 for the data fork, $FF for the resource fork.
pub(crate) fn fork_byte(fork: ForkKind) -> u8
    ensures { result ≡ fork_byte fork }
{
    match fork {
        ForkKind::Data => 0x00,
        ForkKind::Resource => 0xff,
    }
}
