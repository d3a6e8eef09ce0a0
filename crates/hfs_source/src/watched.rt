//! Images that are looked at again after the last read.
ghost use Rattle.std.specs.Prelude.{◌≡◌, OnOk};
ghost use Rattle.hfs_source.specs.Images.{OfEach};

use crate::BlockSource;
use std::io;

/// Images that can be looked at again after the last read.
pub trait Watched: BlockSource {
    /// The last thing that was done with it is a look, which found what its first look found.
    ghost settled: { Self → Type 0 };

    /// Checks that it is as it was when it was opened. Error: it isn't, or that can't be checked.
    fn look_again(&mut self) -> io::Result<()>
        ensures settled { OnOk result (settled self.new) }
        ensures narrows { OfEach (Self.Holds self.new) (Self.Holds self.old) }
        ensures image { Self.image self.new ≡ Self.image self.old };
}
