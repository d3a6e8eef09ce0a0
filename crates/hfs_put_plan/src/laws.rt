//! What holds for the calls that put a list of items, each law as the contract of a function that does nothing.
ghost use Rattle.hfs_put_plan.specs.Laws.{AreFew, AreNewItemsNamed, ForksAreTheirs, LaidForksAreZeros, PutIsLaid};

/// All calls together make of a volume what those make that write no forks, with the bytes of the forks laid over it; and if a
/// call is refused, it is the same one with the same reply. So the bytes of forks may be left until all other calls are accepted.
pub fn put_is_laid()
    ensures { PutIsLaid }
{}

/// After all calls except those that write forks, the files that were put have zeros in their forks, as many as they will have
/// bytes.
pub fn laid_forks_are_zeros()
    ensures { LaidForksAreZeros }
{}

/// Among the bytes to be laid, each file of a list has its own, under its ID: no two files of a list have the same ID.
pub fn forks_are_theirs()
    ensures { ForksAreTheirs }
{}

/// The ID that Create or DirCreate answers with is that of the item with its name in its folder, as the list assumes.
pub fn new_items_are_named()
    ensures { AreNewItemsNamed }
{}

/// No item is made by more than `MAKING_CALLS` calls, and no more than `ENDING_CALLS` come after its bytes or what is in it.
pub fn calls_are_few()
    ensures { AreFew }
{}
