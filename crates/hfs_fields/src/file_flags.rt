//! The flags of a file's record.
ghost use Rattle.std.specs.Prelude.{⊤, ◌≡◌, ◌==◌, ◌+◌, ◌*◌, ◌/◌, ◌%◌, [], ◌∷◌, codes, if◌then◌else◌};
ghost use Rattle.hfs_fields.specs.Records.{is_bit_set, with_bit};

use bitflags::{Flag, Flags, bitflag_items};

/// The flags of a file (filFlags). Bits without a name are kept as they are.
#[derive(Clone, Copy, PartialEq, Eq, Debug)]
pub struct FileFlags(pub u8);

bitflag_items! {
    impl FileFlags: u8 {
        const LOCKED = 0x01;
        const THREAD_EXISTS = 0x02;
        const IN_USE = 0x80;
    }
}

impl Flags for FileFlags {
    type Bits = u8;

    ghost exact = { ⊤ };

    ghost table = { (codes "LOCKED", 1) ∷ (codes "THREAD_EXISTS", 2) ∷ (codes "IN_USE", 128) ∷ [] };

    ghost set_of = { λ flags. flags.0 };

    fn flags<'a>() -> &'a [Flag<FileFlags>] {
        FileFlags::FLAGS
    }

    fn bits(&self) -> u8 {
        self.0
    }

    fn from_bits_retain(bits: u8) -> FileFlags {
        FileFlags(bits)
    }
}

impl FileFlags {
    /// Whether the file is locked.
    pub fn is_locked(self) -> bool
        ensures { result ≡ is_bit_set 0 self.0 }
    {
        self.contains(FileFlags::LOCKED)
    }

    /// Whether the file is said to have a thread record.
    pub fn has_thread(self) -> bool
        ensures { result ≡ is_bit_set 1 self.0 }
    {
        self.contains(FileFlags::THREAD_EXISTS)
    }

    /// The flags with the lock set or cleared, and every other bit as it was.
    pub fn with_lock(self, locked: bool) -> FileFlags
        ensures { result.0 ≡ with_bit 0 locked self.0 }
    {
        let mut flags = self;
        flags.set(FileFlags::LOCKED, locked);
        flags
    }

    /// The flags with the thread bit set or cleared, and every other bit as it was.
    pub fn with_thread(self, exists: bool) -> FileFlags
        ensures { result.0 ≡ with_bit 1 exists self.0 }
    {
        let mut flags = self;
        flags.set(FileFlags::THREAD_EXISTS, exists);
        flags
    }
}
