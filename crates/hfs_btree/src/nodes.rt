//! What a tree needs of the file below it.

ghost use Rattle.std.specs.Prelude.{◌≡◌, ℕ, ◌<◌, List, [], length, slice_index_or};

/// The nodes of a tree's file, 512 bytes each, by their numbers from 0 on.
pub trait Nodes {
    ghost nodes: { Self → List (List ℕ) };

    /// How many nodes the file has.
    fn count(&self) -> u32
        ensures { result ≡ length (nodes self.now) };

    /// Copies node `n` into 512 bytes.
    fn read(&self, n: u32, into: &mut [u8; 512])
        requires { n < length (nodes self.now) }
        ensures { into.new ≡ slice_index_or (nodes self.now) n [] };
}
