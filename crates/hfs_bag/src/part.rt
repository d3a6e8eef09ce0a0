//! A part of an image that is picked.
ghost use Rattle.std.specs.Prelude.{◌≡◌, ◌≤◌, ◌^◌, List, [], ℕ, IfNone, IfSome, length};
ghost use Rattle.hfs_source.specs.Ranges.{bytes_in, range_of};
ghost use Rattle.hfs_source.specs.Images.{OfEach};
ghost use Rattle.hfs_bag.specs.Parts.{content_of, FailsInPart, IsInside, IsPartOf, LiesIn};

use hfs_source::{ByteRange, Layout, PlacedBytes, read_data};
use std::io;
use std::io::ErrorKind;
use std::marker::{Brand, Model, PhantomData};

/// An image that is picked, for proofs only. What is proved for every type of this trait is proved for each image.
pub trait PickedImage {
    ghost image: { List ℕ };
}

impl PickedImage for Brand {
    ghost image = { [] };
}

/// A range of an image's bytes, or of the user data of its raw sectors. The one image consistent with it is the range of the
/// picked image, if the source is consistent with that: so what is read through a part narrows what is known of the whole.
#[derive(Drop)]
pub struct ImagePart<S: PlacedBytes, K: PickedImage> {
    source: S,
    layout: Layout,
    start: u64,
    len: u64,
    of: PhantomData<K>,
}

impl<S: PlacedBytes, K: PickedImage> Model for ImagePart<S, K> {
    ghost use Rattle.hfs_bag.specs.Parts.{IsInside, PartValue};

    ghost Value = { PartValue S };

    ghost view = { λ p. record { source = p.source; layout = p.layout; start = p.start; len = p.len } };

    ghost invariant = { λ p. IsInside S.Holds K.image
        (record { source = p.source; layout = p.layout; start = p.start; len = p.len }) };
}

/// In how many bytes volumes may lie, for an image of `len` bytes.
fn content_len(layout: Layout, len: u64) -> u64
    ensures { (file : List ℕ) → length file ≡ len → length (content_of layout file) ≡ result }
{
    match layout {
        Layout::Plain => len,
        Layout::Raw => len / 2_352 * 2_048,
    }
}

/// Where a range is taken to begin: one without bytes may lie anywhere, even past the end.
#[tactic(auto, using(crate::proofs::PartLemmas::empty_range))]
fn start_of(range: ByteRange) -> u64
    ensures bytes { (content : List ℕ) → bytes_in (range_of result range.len) content ≡ bytes_in range content }
    ensures least { result ≤ range.start }
    ensures none { range.len ≡ 0 → result ≡ 0 }
{
    if range.len == 0 {
        return 0;
    }
    range.start
}

impl<S: PlacedBytes + Drop, K: PickedImage> ImagePart<S, K> {
    /// The range, if it lies in the content or has no bytes; otherwise None.
    pub fn range(source: S, layout: Layout, range: ByteRange) -> Option<ImagePart<S, K>>
        ensures range { IfSome result (λ part. OfEach (IsPartOf S.Holds K.image part)
            (λ bytes. bytes ≡ bytes_in range (content_of layout K.image))) }
        ensures source { IfSome result (λ part. part.source ≡ source) }
        ensures inside { IfSome result (IsInside S.Holds K.image) }
        ensures none { IfNone result (S.Holds source K.image
            → LiesIn range (content_of layout K.image)
            → 2 ^ 63 ≤ length (content_of layout K.image)) }
    {
        let all = content_len(layout, source.len());
        let start = start_of(range);
        let len = range.len;
        if all > 0x7FFF_FFFF_FFFF_FFFF || all < start || all - start < len {
            return None;
        }
        Some(ImagePart {
            source,
            layout,
            start,
            len,
            of: PhantomData,
        })
    }

    /// All of the content. None if it has 2^63 bytes or more.
    pub fn whole(source: S, layout: Layout) -> Option<ImagePart<S, K>>
        ensures whole { IfSome result (λ part. OfEach (IsPartOf S.Holds K.image part)
            (λ bytes. bytes ≡ content_of layout K.image)) }
        ensures source { IfSome result (λ part. part.source ≡ source) }
        ensures inside { IfSome result (IsInside S.Holds K.image) }
        ensures none { IfNone result (S.Holds source K.image
            → 2 ^ 63 ≤ length (content_of layout K.image)) }
    {
        let len = content_len(layout, source.len());
        ImagePart::range(source, layout, ByteRange { start: 0, len })
    }

    /// What it is read from.
    pub fn source(&self) -> &S
        ensures { result.now ≡ self.now.source }
    {
        &self.source
    }
}

impl<S: PlacedBytes, K: PickedImage> PlacedBytes for ImagePart<S, K> {
    ghost Holds = { λ part. IsPartOf S.Holds K.image part };

    ghost Fails = { λ part. FailsInPart S.Fails part };

    fn len(&self) -> u64 {
        self.len
    }

    fn read_at(&mut self, place: u64, into: &mut [u8]) -> io::Result<()> {
        if into.is_empty() {
            return Ok(());
        }
        if self.len < place || self.len - place < into.len() as u64 {
            return Err(io::Error::from(ErrorKind::UnexpectedEof));
        }
        match self.layout {
            Layout::Plain => self.source.read_at(self.start + place, into),
            Layout::Raw => read_data(&mut self.source, self.start + place, into),
        }
    }
}
