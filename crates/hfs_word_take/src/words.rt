//! What is asked for.

/// What is taken, and where to.
#[derive(Clone, Copy)]
pub struct TakeWords<'a> {
    /// The path of the image.
    pub image: &'a str,
    /// The number of the volume in it, if one is asked for.
    pub volume: Option<u64>,
    /// The path of the folder that is made.
    pub folder: &'a str,
    /// Whether the bag is to have the image's digest.
    pub is_digested: bool,
    /// The name and version of the program.
    pub program: &'a str,
}
