//! What holds for the definitions, as the contract of a function that does nothing.
ghost use Rattle.hfs_texts.specs.PathLaws.{ArePrintedPathsRead};

/// The law of printed paths: each path that the table of items prints is read back as the names that it was printed from, and no
/// other names are printed like it.
pub fn printed_paths_are_read()
    ensures { ArePrintedPathsRead }
{}
