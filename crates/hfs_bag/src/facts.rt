//! What a bag says about the image that it was taken from.

/// What a bag says about the image that it was taken from, each text as it appears there.
#[derive(Clone, Copy)]
pub struct BagFacts<'a> {
    /// The plain text of the root's name.
    pub identifier: &'a str,
    /// The name and version of the program that takes it.
    pub program: &'a str,
    /// The last part of the image's path.
    pub image: &'a str,
    /// Where the volume lies in the image's file, if it was looked for there.
    pub volume: Option<&'a str>,
    /// The block of the volume's directory, if the bag is to name it.
    pub directory: Option<&'a str>,
    /// How many bytes hold the volume: those of the image's file, or of the range in it where the volume lies.
    pub bytes: u64,
    /// Their SHA-256 digest, if the bag is to have it.
    pub digest: Option<[u8; 32]>,
    /// The report on the volume and its check.
    pub report: &'a str,
}
