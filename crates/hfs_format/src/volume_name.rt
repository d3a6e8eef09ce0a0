//! The name of a volume.
ghost use Rattle.std.specs.Prelude.{IsTrue};
ghost use Rattle.hfs_format.specs.Plan.{is_volume_name};

use hfs_fields::Name;

/// The name of a volume: 1 to 27 characters of an item name.
#[derive(Clone, Copy)]
pub struct VolumeName {
    pub name: Name,
    ghost volume: { IsTrue (is_volume_name name) },
}
