//! Comparing images with what a collection has about them.
ghost use Rattle.std.specs.Prelude.{◌≡◌};
ghost use Rattle.hfs_database.specs.Comparing.{by_digest, comparison, comparison_word, is_worse, needs_digest};

/// How an image compares to what the collection has about it.
#[derive(Clone, Copy, Debug, PartialEq, Eq)]
pub enum Comparison {
    /// It can't be read.
    Missing,
    /// The collection doesn't have it.
    New,
    /// Its length or its digest differs.
    Changed,
    /// Its length and its digest are the same.
    Same,
    /// Its length is the same, and the collection has no digest.
    SameLength,
}

impl Comparison {
    /// The word that is printed for it.
    #[tactic(auto, unfolding(crate::specs::Comparing::comparison_word))]
    pub fn word(self) -> &'static str
        ensures { result.now ≡ comparison_word self }
    {
        match self {
            Comparison::Missing => "missing",
            Comparison::New => "new",
            Comparison::Changed => "changed",
            Comparison::Same => "same",
            Comparison::SameLength => "same length",
        }
    }

    /// Whether the image differs from what the collection has.
    pub fn is_worse(self) -> bool
        ensures { result ≡ is_worse self }
    {
        match self {
            Comparison::Missing | Comparison::Changed => true,
            Comparison::New | Comparison::Same | Comparison::SameLength => false,
        }
    }
}

/// What a collection has about an image.
#[derive(Drop)]
pub struct KnownImage {
    /// How many bytes it has.
    pub bytes: u64,
    /// Their SHA-256 digest in hexadecimal digits, if it was taken.
    pub digest: Option<String>,
}

impl KnownImage {
    /// Whether a file of `len` bytes is compared by its digest.
    pub fn needs_digest(&self, len: u64) -> bool
        ensures { result ≡ needs_digest self.now len }
    {
        self.bytes == len && self.digest.is_some()
    }

    /// How a file of the same length compares to this image, by the hexadecimal digits of its SHA-256 digest.
    fn by_digest(&self, digits: &str) -> Comparison
        ensures { result ≡ by_digest self.now.digest digits.now }
    {
        match &self.digest {
            Some(known) if known.as_str() == digits => Comparison::Same,
            Some(_) => Comparison::Changed,
            None => Comparison::SameLength,
        }
    }

    /// How a file of `len` bytes compares to this image, by the hexadecimal digits of its SHA-256 digest. If the digest isn't
    /// needed, any digits do.
    pub fn compared(&self, len: u64, digits: &str) -> Comparison
        ensures { result ≡ comparison self.now len digits.now }
    {
        if self.bytes == len {
            self.by_digest(digits)
        } else {
            Comparison::Changed
        }
    }
}
