//! Item names and their order.
use hfs_fields::{Name, is_item_name, same_name};
use std::cmp::Ordering;

/// Whether a name of these bytes is one and has them, if it should be, and is none if it shouldn't.
fn is_kept(bytes: &[u8], wanted: bool) -> bool {
    match Name::new(bytes) {
        Some(name) => name.bytes() == bytes,
        None => !wanted,
    }
}

/// Names, and whether they are item names.
const ITEM_NAMES: [(&'static [u8], bool); 11] = [
    (&[b'n'; 31], true),
    (&[b'n'; 32], false),
    (b"", false),
    (b"a:b", false),
    (&[0x61, 0x60, 0x62], false),
    (b" ", true),
    (b"~", true),
    (&[0x1f], false),
    (&[0x7f], false),
    (&[0x61, 0x80], false),
    (b"Icon\r", false),
];

#[test]
fn item_names(rt: HostRuntime) {
    for (row, (bytes, wanted)) in ITEM_NAMES.iter().enumerate() {
        assert!(rt; is_item_name(bytes) == *wanted, "row {row}");
        assert!(rt; is_kept(bytes, *wanted), "row {row}");
    }
}

/// The order of two names, where both are.
fn order_of(a: &[u8], b: &[u8]) -> Option<Ordering> {
    let x = Name::new(a)?;
    let y = Name::new(b)?;
    Some(x.cmp_folded(&y))
}

/// Two names each, and their order.
const ORDERS: [(&'static [u8], &'static [u8], Ordering); 9] = [
    (b"a", b"B", Ordering::Less),
    (b"B", b"_x", Ordering::Less),
    (b"_x", b"{", Ordering::Less),
    (b"Read Me", b"READ ME", Ordering::Equal),
    (b"a", b"ab", Ordering::Less),
    (b"AB", b"a", Ordering::Greater),
    (b"[", b"z", Ordering::Greater),
    (b"@", b"a", Ordering::Less),
    (b"{", b"[", Ordering::Greater),
];

#[test]
fn name_order(rt: HostRuntime) {
    for (row, (a, b, wanted)) in ORDERS.iter().enumerate() {
        let is_same = *wanted == Ordering::Equal;
        assert!(rt; same_name(a, b) == is_same, "row {row}");
        assert!(rt; order_of(a, b) == Some(*wanted), "row {row}");
    }
}
