//! What the bytes at known places of a file say. docs/FORMATS.md has the source of each sign.
ghost use Rattle.std.specs.Prelude.{◌≡◌};
ghost use Rattle.hfs_console.specs.Kinds.{archive_kind, beginning_kind, begins, creator_kind, fork_kind, has_type, is_macbinary, kind_of, packed_kind, told_kind, volume_kind};

use crate::kind::Kind;

/// Sixteen bytes of a file, with zeros in place of those that it doesn't have.
pub type Piece = [u8; 16];

/// The bytes of a file that say what it is.
#[derive(Clone, Copy)]
pub struct Glance {
    /// From its beginning.
    pub first: Piece,
    /// From byte 69: the creator of a MacBinary file, a byte of its flags, and the zero at 74.
    pub creator: Piece,
    /// From byte 128: the data fork of a MacBinary file.
    pub fork: Piece,
    /// From byte 1,024: the directory of a volume.
    pub directory: Piece,
    /// From byte 32,769: the first descriptor of a CD.
    pub descriptor: Piece,
    /// From 512 bytes before the end: the trailer of a disk image.
    pub trailer: Piece,
    /// The first types of its resources, and zeros.
    pub types: [u32; 16],
    /// What `._X` says about it, if it is called X.
    pub beside: Beside,
}

/// The bytes of an AppleDouble file that say what the file next to it is. All are zeros if there is none.
#[derive(Clone, Copy)]
pub struct Beside {
    /// The Finder's bytes from the creator on.
    pub creator: Piece,
    /// The first types of its resources, and zeros.
    pub types: [u32; 16],
}

/// The type of a resource that holds the map of a compressed disk image: `bcem`.
const BLOCK_MAP: u32 = 0x6263_656D;

/// Whether a piece begins with these bytes, at most sixteen.
#[tactic(auto, unfolding(crate::specs::Kinds::begins))]
fn begins(piece: &Piece, sign: &[u8]) -> bool
    ensures { result ≡ begins sign.now piece.now }
{
    sign.len() <= 16 && &piece[..sign.len()] == sign
}

/// Whether one of the types is that of a compressed disk image's map.
#[tactic(auto, unfolding(crate::specs::Kinds::has_type))]
fn has_block_map(types: &[u32; 16]) -> bool
    ensures { result ≡ has_type 1650681197 types.now }
{
    types.iter().any(|kind| *kind == BLOCK_MAP)
}

/// What a volume's directory, or a CD's descriptor, says.
#[tactic(auto, unfolding(crate::specs::Kinds::volume_kind))]
fn volume_kind(directory: &Piece, descriptor: &Piece) -> Option<Kind>
    ensures { result ≡ volume_kind directory.now descriptor.now }
{
    if begins(directory, b"H+") || begins(directory, b"HX") {
        Some(Kind::HfsPlus)
    } else if begins(directory, b"\xD2\xD7") {
        Some(Kind::Mfs)
    } else if begins(descriptor, b"CD001") {
        Some(Kind::Iso9660)
    } else {
        None
    }
}

/// What the first bytes of an archive say.
#[tactic(auto, unfolding(crate::specs::Kinds::archive_kind))]
fn archive_kind(first: &Piece) -> Option<Kind>
    ensures { result ≡ archive_kind first.now }
{
    if begins(first, b"SIT!") || begins(first, b"StuffIt (c)") {
        Some(Kind::StuffIt)
    } else if begins(first, b"PK\x03\x04") {
        Some(Kind::Zip)
    } else if begins(first, b"\x1F\x8B") {
        Some(Kind::Gzip)
    } else {
        None
    }
}

/// What the first bytes of a picture say, or of an archive.
#[tactic(auto, unfolding(crate::specs::Kinds::packed_kind))]
fn packed_kind(first: &Piece) -> Option<Kind>
    ensures { result ≡ packed_kind first.now }
{
    if begins(first, b"\x89PNG\r\n\x1A\n") || begins(first, b"\xFF\xD8\xFF") {
        Some(Kind::Picture)
    } else if begins(first, b"GIF87a") || begins(first, b"GIF89a") {
        Some(Kind::Picture)
    } else {
        archive_kind(first)
    }
}

/// What the creator of a file says.
#[tactic(auto, unfolding(crate::specs::Kinds::creator_kind))]
fn creator_kind(creator: &Piece) -> Option<Kind>
    ensures { result ≡ creator_kind creator.now }
{
    if begins(creator, b"DART") {
        Some(Kind::Dart)
    } else if begins(creator, b"CPCT") {
        Some(Kind::CompactPro)
    } else {
        None
    }
}

/// Whether a file begins as MacBinary does: with a zero, a name of 1 to 63 characters, and another zero at 74.
#[tactic(auto, unfolding(crate::specs::Kinds::is_macbinary))]
fn is_macbinary(first: &Piece, creator: &Piece) -> bool
    ensures { result ≡ is_macbinary first.now creator.now }
{
    first[0] == 0 && first[1] >= 1 && first[1] <= 63 && creator[5] == 0
}

/// What a MacBinary file is by its creator, or by the first bytes of its data fork.
#[tactic(auto, unfolding(crate::specs::Kinds::fork_kind))]
fn fork_kind(glance: &Glance) -> Option<Kind>
    ensures { result ≡ fork_kind glance.now }
{
    if !is_macbinary(&glance.first, &glance.creator) {
        return None;
    }
    match creator_kind(&glance.creator) {
        Some(kind) => Some(kind),
        None => packed_kind(&glance.fork),
    }
}

/// What a file is by its first bytes, or by those of its data fork.
#[tactic(auto, unfolding(crate::specs::Kinds::beginning_kind))]
fn beginning_kind(glance: &Glance) -> Option<Kind>
    ensures { result ≡ beginning_kind glance.now }
{
    match packed_kind(&glance.first) {
        Some(kind) => Some(kind),
        None => fork_kind(glance),
    }
}

/// What a file is by its own bytes, or by its creator in the AppleDouble file next to it.
#[tactic(auto, unfolding(crate::specs::Kinds::told_kind))]
fn told_kind(glance: &Glance) -> Option<Kind>
    ensures { result ≡ told_kind glance.now }
{
    match beginning_kind(glance) {
        Some(kind) => Some(kind),
        None => creator_kind(&glance.beside.creator),
    }
}

impl Kind {
    /// What a file is that has no HFS volume at its beginning; None if it has one, or its bytes don't say.
    #[tactic(auto, unfolding(crate::specs::Kinds::kind_of))]
    pub fn of(glance: &Glance) -> Option<Kind>
        ensures { result ≡ kind_of glance.now }
    {
        if begins(&glance.directory, b"BD") {
            return None;
        }
        if begins(&glance.trailer, b"koly") {
            return Some(Kind::Udif);
        }
        if has_block_map(&glance.types) || has_block_map(&glance.beside.types) {
            return Some(Kind::Ndif);
        }
        match volume_kind(&glance.directory, &glance.descriptor) {
            Some(kind) => Some(kind),
            None => told_kind(glance),
        }
    }
}
