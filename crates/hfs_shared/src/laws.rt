//! What holds for a shared volume while no call writes a fork.
ghost use Rattle.hfs_shared.specs.Laws.{AgreesWhereNoneWrites};

/// The law of journals in which no accepted call writes a fork: the image agrees with the one that was shared in all blocks of
/// forks as well.
pub fn unwritten_fork_laws()
    ensures { AgreesWhereNoneWrites }
{}
