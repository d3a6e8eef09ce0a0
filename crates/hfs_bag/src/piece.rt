//! Bytes of a fork that are read at once.
ghost use Rattle.std.specs.Prelude.{◌≤◌};

/// Bytes of a fork that are next to each other in the image, or whose blocks are missing.
#[derive(Clone, Copy)]
pub struct Piece {
    /// The number of the logical block in which they begin; None where their blocks are missing.
    pub first: Option<u32>,
    /// How many there are.
    pub len: u32,
    ghost some: { 1 ≤ len },
    ghost few: { len ≤ 65536 },
}
