//! A count that is wrong.

ghost use Rattle.std.specs.Prelude.{◌≡◌, ◌<◌, ◌^◌, ◌∷◌, [], OnOk};
ghost use Rattle.hfs_repair.specs.Placed.{is_wrong, two_bytes, four_bytes, AddsWrong};
ghost use Rattle.hfs_repair.specs.Fields.{value_of, width_of};

use crate::field_value::FieldValue;
use crate::fixed::FixPlace;
use std::alloc::AllocError;
use std::marker::Model;

/// A count that is wrong in the volume, and whose field can hold the right number. Contracts see which count it is, and what is
/// known of it.
#[derive(Debug, Drop)]
pub struct WrongNumber {
    /// Which number.
    place: FixPlace,
    /// What the volume has.
    was: u32,
    /// What is counted.
    counted: FieldValue,
    /// The place of its first byte in the image.
    at: usize,
    ghost low: { at < 2 ^ 48 },
}

impl Model for WrongNumber {
    ghost use Rattle.hfs_repair.specs.Fields.{PlacedNumber, placed_number};

    ghost Value = { PlacedNumber };

    ghost view = { λ n. placed_number n.place n.was n.counted n.at };
}

/// Adds a count of two bytes, if it is wrong and its field can hold the right number.
#[tactic(auto, unfolding(crate::specs::Placed::is_wrong, crate::specs::Placed::two_bytes))]
pub(crate) fn push_short(
    wrong: &mut Vec<WrongNumber>,
    place: FixPlace,
    was: u16,
    counted: usize,
    at: usize,
) -> Result<(), AllocError>
    requires { at < 2 ^ 48 }
    ensures { OnOk result (AddsWrong wrong.old.items wrong.new.items
        (two_bytes place was counted at ∷ [])) }
{
    let Ok(now) = u16::try_from(counted) else {
        return Ok(());
    };
    if was != now {
        wrong.push(WrongNumber {
            place,
            was: u32::from(was),
            counted: FieldValue::Short(now),
            at,
        })?;
    }
    Ok(())
}

/// Adds a count of four bytes, if it is wrong and its field can hold the right number.
#[tactic(auto, unfolding(crate::specs::Placed::is_wrong, crate::specs::Placed::four_bytes))]
pub(crate) fn push_long(
    wrong: &mut Vec<WrongNumber>,
    place: FixPlace,
    was: u32,
    counted: usize,
    at: usize,
) -> Result<(), AllocError>
    requires { at < 2 ^ 48 }
    ensures { OnOk result (AddsWrong wrong.old.items wrong.new.items
        (four_bytes place was counted at ∷ [])) }
{
    let Ok(now) = u32::try_from(counted) else {
        return Ok(());
    };
    if was != now {
        wrong.push(WrongNumber {
            place,
            was,
            counted: FieldValue::Long(now),
            at,
        })?;
    }
    Ok(())
}

impl WrongNumber {
    /// Which number.
    pub(crate) fn place(&self) -> FixPlace
        ensures { result ≡ self.now.0 }
    {
        self.place
    }

    /// What the volume has.
    pub(crate) fn was(&self) -> u32
        ensures { result ≡ self.now.1.was }
    {
        self.was
    }

    /// What is counted, in the field's bytes.
    pub(crate) fn value(&self) -> FieldValue
        ensures now { value_of result ≡ self.now.1.now }
        ensures width { width_of result ≡ self.now.1.width }
    {
        self.counted
    }

    /// The place of its first byte in the image.
    pub(crate) fn at(&self) -> usize
        ensures place { result ≡ self.now.1.at }
        ensures low { result < 2 ^ 48 }
    {
        self.at
    }
}
