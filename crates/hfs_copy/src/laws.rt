//! What the working blocks imply, each law as the contract of a function that does nothing.
ghost use Rattle.hfs_copy.specs.Working.{ChangesCarryOver, CopiesAnswer, KeptForksAreAlike};

/// If a copy with an image's working blocks is sound, so is the image, and both hold the same volume except for the bytes of
/// forks.
pub fn copies_answer()
    ensures { CopiesAnswer }
{}

/// If such a copy has the forks of some files as well, these have the same bytes in both volumes.
pub fn kept_forks_are_alike()
    ensures { KeptForksAreAlike }
{}

/// What calls change in such a copy, laid over the image, agrees with the image except for the blocks of forks that they wrote:
/// nothing else of it has changed. It holds the volume that the changed copy holds, except for the bytes of forks. Any other
/// changed block must be one whose bytes in the copy were the image's.
pub fn changes_carry_over()
    ensures { ChangesCarryOver }
{}
