//! What holds for the calls that write forks, each as the contract of a function that does nothing.
ghost use Rattle.hfs_model.specs.ForkCallLaws.{SetEofIsLawful, WriteForkIsLawful, SetEofResizes, SetEofToItsLength, WriteForkIsSetEofAndBytes, WrittenIsRead};

/// SetEof keeps a volume lawful, leaves it unchanged if it is refused, and never answers -34.
pub fn set_eof_is_lawful()
    ensures { SetEofIsLawful }
{}

/// WriteFork does the same.
pub fn write_fork_is_lawful()
    ensures { WriteForkIsLawful }
{}

/// An accepted SetEof cuts the fork or adds zeros at its end, and leaves the other fork unchanged.
pub fn set_eof_resizes()
    ensures { SetEofResizes }
{}

/// A SetEof to the length that the fork already has changes none of its bytes.
pub fn set_eof_to_its_length()
    ensures { SetEofToItsLength }
{}

/// An accepted WriteFork makes the fork what SetEof to the greater of its length and the end of the bytes would make it, with the
/// bytes in their place, and leaves the other fork unchanged.
pub fn write_fork_is_set_eof_and_bytes()
    ensures { WriteForkIsSetEofAndBytes }
{}

/// What an accepted WriteFork has written is what a read of that place answers.
pub fn written_is_read()
    ensures { WrittenIsRead }
{}
