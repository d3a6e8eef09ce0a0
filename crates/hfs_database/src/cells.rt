//! The columns of a line.
ghost use Rattle.std.specs.Prelude.{◌≡◌};
ghost use Rattle.std.specs.Option.{option_map_or};
ghost use Rattle.hfs_database.specs.declared.value.RowValue.TheVariants.{Empty};
ghost use Rattle.hfs_database.specs.Keys.{cell};

use crate::RowValue;
use crate::column::Origin;
use crate::keys::Keys;

/// The value of a column of a row with these keys; None if the row has no such place.
pub(crate) fn cell<'a>(
    keys: &'a Keys,
    values: &'a [RowValue],
    origin: Origin,
) -> Option<&'a RowValue>
    ensures { option_map_or (λ value. value.now) result Empty ≡ cell keys.now values.now origin }
{
    match origin {
        Origin::ImagePath => Some(&keys.path),
        Origin::ImageDigest => Some(&keys.digest),
        Origin::VolumeNumber => Some(&keys.number),
        Origin::Row(place) => values.get(place),
    }
}
