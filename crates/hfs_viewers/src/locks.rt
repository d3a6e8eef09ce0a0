//! The locks in a volume's attributes.
ghost use Rattle.std.specs.Prelude.{◌≡◌};
ghost use Rattle.hfs_fields.specs.Records.{is_bit_set};

use hfs_fields::VolumeAttributes;

/// Whether the drive is locked: bit 7.
pub fn is_hardware_locked(attributes: VolumeAttributes) -> bool
    ensures { result ≡ is_bit_set 7 attributes.0 }
{
    attributes.0 / VolumeAttributes::HARDWARE_LOCK.0 % 2 == 1
}

/// Whether the volume itself is locked: bit 15.
pub fn is_software_locked(attributes: VolumeAttributes) -> bool
    ensures { result ≡ is_bit_set 15 attributes.0 }
{
    attributes.0 / VolumeAttributes::SOFTWARE_LOCK.0 % 2 == 1
}
