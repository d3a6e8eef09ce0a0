//! How many nodes the catalog of a new volume gets.
ghost use Rattle.std.specs.Prelude.{◌≡◌, ◌+◌, ◌*◌, ◌<◌, ◌≤◌, ◌^◌, length};
ghost use Rattle.std.specs.List.{sum_by};
ghost use Rattle.hfs_format.specs.Catalogs as spec;
ghost use Rattle.hfs_format.specs.Catalogs.{has_left};
ghost use Rattle.hfs_format.specs.Least.{IsLeastFrom};

use crate::items::NewItem;

/// How many bytes a key takes in a leaf, by the length of its name.
#[tactic(auto, unfolding(crate::specs::Catalogs::key_bytes))]
fn key_bytes(name_len: u8) -> u32
    ensures value { result ≡ spec.key_bytes name_len }
    ensures few { result ≤ 263 }
{
    (u32::from(name_len) + 8) / 2 * 2
}

/// How many bytes a folder's record and its thread take, with their offsets.
#[tactic(auto, unfolding(crate::specs::Catalogs::folder_bytes))]
fn folder_bytes(name_len: u8) -> u32
    ensures value { result ≡ spec.folder_bytes name_len }
    ensures few { result ≤ 1024 }
{
    key_bytes(name_len) + 70 + 2 + key_bytes(0) + 46 + 2
}

/// How many bytes a file's record takes, with its offset.
#[tactic(auto, unfolding(crate::specs::Catalogs::file_bytes))]
fn file_bytes(name_len: u8) -> u32
    ensures value { result ≡ spec.file_bytes name_len }
    ensures few { result ≤ 1024 }
{
    key_bytes(name_len) + 102 + 2
}

/// How many bytes the records of an item take.
fn item_bytes(item: NewItem) -> u32
    ensures value { result ≡ spec.item_bytes item }
    ensures few { result ≤ 1024 }
{
    match item {
        NewItem::Folder(name_len) => folder_bytes(name_len),
        NewItem::File(file) => file_bytes(file.name_len),
    }
}

/// How many bytes the records of the root and of everything in it take.
fn records_bytes(name_len: u8, items: &[NewItem]) -> u128
    ensures value { result ≡ spec.records_bytes name_len items.now }
    ensures few { result < 2 ^ 76 }
{
    let mut bytes = u128::from(folder_bytes(name_len));
    for item in items {
        bytes += u128::from(item_bytes(*item));
    }
    bytes
}

/// How many nodes there are above `below` ones, in at most this many levels.
#[tactic(auto, unfolding(crate::specs::Catalogs::index_nodes))]
fn index_nodes(levels: u32, below: u128) -> u128
    requires { below < 2 ^ 76 }
    ensures value { result ≡ spec.index_nodes levels below }
    ensures few { result ≤ 2 * below }
{
    if levels == 0 || below <= 1 {
        0
    } else {
        let above = (below + 4) / 5;
        above + index_nodes(levels - 1, above)
    }
}

/// The nodes of half-full leaves and of their index, and a quarter more.
#[tactic(auto, unfolding(crate::specs::Catalogs::record_nodes, crate::specs::Catalogs::leaves))]
fn record_nodes(bytes: u128) -> u128
    requires { bytes < 2 ^ 76 }
    ensures value { result ≡ spec.record_nodes bytes }
    ensures few { result < 2 ^ 80 }
{
    let leaves = (bytes + 247) / 248;
    (5 * (leaves + index_nodes(32, leaves)) + 3) / 4
}

/// The least number of nodes that leaves `left` besides the header node and the map nodes.
#[tactic(auto, unfolding(crate::specs::Catalogs::with_map_nodes))]
fn with_map_nodes(left: u128) -> u128
    requires { left < 2 ^ 80 }
    ensures value { result ≡ spec.with_map_nodes left }
    ensures least { IsLeastFrom 0 (has_left left) result }
    ensures few { result < 2 ^ 82 }
{
    let nodes = 1 + left;
    nodes + (nodes.saturating_sub(2_048) + 3_934) / 3_935
}

/// How many nodes the catalog of a volume gets whose name has this length and that will hold these items, `times` what they need:
/// 1, and more if that was not enough.
pub fn catalog_nodes(name_len: u8, items: &[NewItem], times: u32) -> u128
    ensures { result ≡ spec.catalog_nodes name_len items.now times }
{
    with_map_nodes(record_nodes(records_bytes(name_len, items))) * u128::from(times)
}
