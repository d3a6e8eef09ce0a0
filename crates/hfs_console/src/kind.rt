//! The kinds of files that people have besides HFS volumes, and what opens them.
ghost use Rattle.std.specs.Prelude.{Some};
ghost use Rattle.hfs_console.specs.Texts.{kind_text};

use std::fmt;

/// What a file is. Its `Display` is a noun for a terminal, and the Debian program that opens it, if there is one.
#[derive(Clone, Copy, Debug, PartialEq, Eq)]
pub enum Kind {
    /// A volume of HFS Plus without a wrapper.
    HfsPlus,
    /// A volume of the file system before HFS.
    Mfs,
    /// A CD without an HFS volume at its beginning.
    Iso9660,
    /// A disk image of Mac OS X.
    Udif,
    /// A disk image of Disk Copy 6.
    Ndif,
    /// A disk archive of DART.
    Dart,
    /// A file compressed with gzip.
    Gzip,
    /// A zip archive.
    Zip,
    /// A StuffIt archive.
    StuffIt,
    /// A Compact Pro archive.
    CompactPro,
    /// A picture.
    Picture,
}

impl fmt::Display for Kind {
    ghost output = { λ kind. Some (kind_text kind) };

    #[tactic(auto, unfolding(crate::specs::Texts::kind_text))]
    fn fmt<W: fmt::Write>(&self, f: &mut fmt::Formatter<W>) -> fmt::Result {
        match self {
            Kind::HfsPlus => write!(f, "an HFS Plus volume, which 7z (package 7zip) opens"),
            Kind::Mfs => write!(f, "an MFS volume, of the format before HFS"),
            Kind::Iso9660 => write!(f, "an ISO 9660 CD, which 7z (package 7zip) opens"),
            Kind::Udif => write!(
                f,
                "a disk image of Mac OS X (UDIF), of which dmg2img makes a plain one"
            ),
            Kind::Ndif => write!(f, "a compressed disk image of Disk Copy 6 (NDIF)"),
            Kind::Dart => write!(f, "a disk archive of DART"),
            Kind::Gzip => write!(f, "a file that gzip compressed; gunzip takes it out"),
            Kind::Zip => write!(f, "a zip archive; unzip takes its files out"),
            Kind::StuffIt => write!(f, "a StuffIt archive; unar takes its files out"),
            Kind::CompactPro => write!(f, "a Compact Pro archive; unar takes its files out"),
            Kind::Picture => write!(f, "a picture"),
        }
    }
}
