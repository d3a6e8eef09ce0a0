//! What the edits of a fork make of a volume, each law as the contract of a function that does nothing.
ghost use Rattle.hfs_call_patches.specs.Laws.{ForkEditsAreSetEof, ForkEditsAreWriteFork};
ghost use Rattle.hfs_call_patches.specs.CallEdits.{EditsAreSetEof, EditsAreWriteFork, EditsLeaveNoOldByte};

/// Edits that cut a fork or add zeros at its end leave a sound volume, which is the one that SetEof makes.
pub fn fork_edits_are_set_eof()
    ensures { ForkEditsAreSetEof }
{}

/// Edits that put given bytes into a fork from an offset on leave a sound volume, which is the one that WriteFork makes.
pub fn fork_edits_are_write_fork()
    ensures { ForkEditsAreWriteFork }
{}

/// If blocks are added to a fork or taken from it as `hfs_space` and `hfs_record_edits` say, and zeros are laid over it as
/// `hfs_space` says, the volume is the one that SetEof makes.
pub fn edits_are_set_eof()
    ensures { EditsAreSetEof }
{}

/// If the given bytes are then laid over it as well, the volume is the one that WriteFork makes.
pub fn edits_are_write_fork()
    ensures { EditsAreWriteFork }
{}

/// No byte of a block that was added to the fork is an old one: each is a given byte, or a zero.
pub fn edits_leave_no_old_byte()
    ensures { EditsLeaveNoOldByte }
{}
