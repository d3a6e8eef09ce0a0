//! What deleting a file makes of a volume, each law as the contract of a function that does nothing.
ghost use Rattle.hfs_record_edits.specs.Deletion.{DeletionsAreSteps};

/// Edits that delete a file and result in the items of the call's step, with right counts, leave a sound volume, which is the one
/// that the step makes. The stray blocks are the same as before.
pub fn deletions_are_steps()
    ensures { DeletionsAreSteps }
{}
