//! What a file is to hold.
ghost use Rattle.std.specs.Prelude.{◌≡◌, ℕ, List, [], Some, IfOk, OnErr, OnOk};
ghost use Rattle.std.specs.Io.KnownBytes.{Appends};
ghost use Rattle.hfs_format.specs.Image.{image_bytes};
ghost use Rattle.hfs_source.specs.Images.{OfEach};
ghost use Rattle.hfs_texts.specs.Writing.{AppendsFront};

use hfs_format::PlannedImage;
use hfs_source::{NewFileWriter, PlacedWriter};
use hfs_volume::{PatchedFault, Volume};
use std::io;
use std::io::{ErrorKind, Write};

/// What a file is to hold.
pub trait Contents {
    /// Its bytes.
    ghost bytes: { Self → List ℕ };

    /// Writes all its bytes. At an error, only some of the first bytes may have been written.
    fn write_to<W: Write>(&self, writer: &mut W) -> io::Result<()>
        ensures ok { OnOk result (Appends (W.contents writer.old) (W.contents writer.new)
            (bytes self.now)) }
        ensures err { OnErr result (AppendsFront (W.contents writer.old) (W.contents writer.new)
            (bytes self.now)) };
}

/// The image of a new volume, whose blocks are made as they are written.
impl Contents for PlannedImage {
    ghost bytes = { λ image. image_bytes image };

    fn write_to<W: Write>(&self, writer: &mut W) -> io::Result<()> {
        self.write(writer)
    }
}

/// A volume's image as it is now.
impl Contents for Volume {
    ghost bytes = { λ volume. volume.current };

    fn write_to<W: Write>(&self, writer: &mut W) -> io::Result<()> {
        match self.save(writer) {
            Ok(()) => Ok(()),
            Err(_) => Err(io::Error::from(ErrorKind::WriteZero)),
        }
    }
}

/// Why contents were not written.
#[derive(Clone, Copy, Debug, PartialEq, Eq)]
pub enum UnwrittenFault {
    /// Memory was refused.
    Memory,
    /// A read failed, or what is being read changed meanwhile.
    ReadFailed,
    /// The writer failed.
    WriteFailed,
}

impl From<io::Error> for UnwrittenFault {
    fn from(_: io::Error) -> UnwrittenFault {
        UnwrittenFault::WriteFailed
    }
}

impl From<PatchedFault> for UnwrittenFault {
    fn from(fault: PatchedFault) -> UnwrittenFault {
        match fault {
            PatchedFault::Memory => UnwrittenFault::Memory,
            PatchedFault::ReadFailed => UnwrittenFault::ReadFailed,
            PatchedFault::WriteFailed => UnwrittenFault::WriteFailed,
        }
    }
}

/// What a file is to hold, read while it is written, so that a read may fail.
pub trait ReadContents {
    /// What its bytes may be: those that are consistent with what was read so far. For contents that are all there, only those.
    ghost Holds: { Self → List ℕ → Type 0 };

    /// As far as was checked, what it is read from is as it was when it was opened.
    ghost settled: { Self → Type 0 };

    /// What writing doesn't change: of what is read, its bytes, where they are known, and how many there are; and the changed
    /// blocks.
    ghost Kept: { Type 0 };

    ghost kept: { Self → Self.Kept };

    /// Writes all its bytes. At an error, only some of the first bytes may have been written. Errors: memory was refused, a read
    /// or a write failed, or what it is read from has changed since it was opened.
    fn write_to<W: Write>(&mut self, writer: &mut W) -> Result<(), UnwrittenFault>
        ensures ok { OnOk result (OfEach (Holds self.new)
            (Appends (W.contents writer.old) (W.contents writer.new))) }
        ensures err { OnErr result (OfEach (Holds self.new)
            (AppendsFront (W.contents writer.old) (W.contents writer.new))) }
        ensures narrows { OfEach (Holds self.new) (Holds self.old) }
        ensures kept { kept self.new ≡ kept self.old }
        ensures settled { OnOk result (settled self.new) };

    /// Whether zeros of a new file may be left out, as holes.
    fn leaves_holes(&self) -> bool;
}

/// Writes all bytes of contents to a new file, which then has these bytes and no others. Errors: as for
/// [`ReadContents::write_to`].
pub(crate) fn fill<C: ReadContents, P: PlacedWriter + Drop>(
    contents: &mut C,
    file: P,
) -> Result<P, UnwrittenFault>
    requires bytes { P.bytes file ≡ Some [] }
    requires place { P.place file ≡ Some 0 }
    ensures filled { IfOk result (λ file. OfEach (C.Holds contents.new)
        (λ bytes. P.bytes file ≡ Some bytes)) }
    ensures narrows { OfEach (C.Holds contents.new) (C.Holds contents.old) }
    ensures kept { C.kept contents.new ≡ C.kept contents.old }
    ensures settled { OnOk result (C.settled contents.new) }
{
    let mut writer = NewFileWriter::new(file, contents.leaves_holes());
    contents.write_to(&mut writer)?;
    Ok(writer.end()?)
}

/// Contents whose bytes are all there.
#[derive(Drop)]
pub struct Whole<'a, C>(pub &'a C);

impl<C: Contents> ReadContents for Whole<'_, C> {
    ghost use Rattle.std.specs.Prelude.{◌≡◌, ⊤, ℕ, List};

    ghost Holds = { λ whole bytes. bytes ≡ C.bytes whole.0.now };

    ghost settled = { λ _. ⊤ };

    ghost Kept = { List ℕ };

    ghost kept = { λ whole. C.bytes whole.0.now };

    fn write_to<W: Write>(&mut self, writer: &mut W) -> Result<(), UnwrittenFault> {
        match self.0.write_to(writer) {
            Ok(()) => Ok(()),
            Err(_) => Err(UnwrittenFault::WriteFailed),
        }
    }

    fn leaves_holes(&self) -> bool {
        false
    }
}
