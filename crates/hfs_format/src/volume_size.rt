//! The size of a volume.
ghost use Rattle.std.specs.Prelude.{◌≤◌};

/// The size of a volume: whole blocks of 512 bytes, from 64 KB to 2 GB.
#[derive(Clone, Copy)]
pub struct VolumeSize {
    /// How many blocks of 512 bytes.
    pub blocks: u32,
    ghost least: { 128 ≤ blocks },
    ghost most: { blocks ≤ 4194304 },
}
