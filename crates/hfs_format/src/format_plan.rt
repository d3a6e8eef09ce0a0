//! What a new volume is to be.

/// The plan of a new volume.
#[derive(Debug, Drop)]
pub struct FormatPlan {
    /// The volume's name, an item name of 1 to 27 characters.
    pub name: Vec<u8>,
    /// How many logical blocks of 512 bytes it has: 8 to 4,194,304.
    pub blocks: u32,
    /// How many nodes the extents file has, at least 1. The file takes whole allocation blocks, and has as many nodes as fit into
    /// them. They include the map nodes: one for each 3,936 nodes beyond 2,048, or part of that many.
    pub extents_nodes: u32,
    /// How many nodes the catalog file has, at least 2, in whole allocation blocks likewise.
    pub catalog_nodes: u32,
    /// The moment of all dates, in seconds since midnight, 1 January 1904.
    pub now: u32,
}
