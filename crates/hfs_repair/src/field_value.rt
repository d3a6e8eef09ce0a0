//! The values of fields of two or four bytes.

/// A number in a field of the volume, the highest byte first.
#[derive(Clone, Copy, Debug, PartialEq, Eq)]
pub enum FieldValue {
    /// In a field of two bytes.
    Short(u16),
    /// In a field of four bytes.
    Long(u32),
}
