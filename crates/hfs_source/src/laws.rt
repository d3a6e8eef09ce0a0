//! What the clauses of this crate say over memory, as the contract of a function that does nothing.
ghost use Rattle.hfs_source.specs.Memory.{MemoryIsTold};

/// What is told of each image that has what was read is told, over memory, of the bytes, and they stay the same.
pub fn told_of_memory()
    ensures { MemoryIsTold }
{}
