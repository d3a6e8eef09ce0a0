//! The catalog's one leaf: the root folder and its thread.
ghost use Rattle.std.specs.Prelude.{◌≡◌, ◌+◌, ◌≤◌, [], ◌++◌, length};
ghost use Rattle.hfs_fields.specs.KeyForms.{cat_leaf_bytes};
ghost use Rattle.hfs_fields.specs.RecordForms.{dir_record_bytes, thread_record_bytes};
ghost use Rattle.hfs_format.specs.Plan.{IsLayout};
ghost use Rattle.hfs_format.specs.NewTrees as spec;

use crate::layout::Layout;
use crate::node_block::leaf_block;
use hfs_fields::{CatKey, DirRecord, FieldRow, Name, ThreadKind, ThreadRecord};

/// A key as it is stored in a leaf.
fn key_row(parent: u32, name: Name) -> FieldRow
    requires { length name ≤ 31 }
    ensures bytes { result ≡ cat_leaf_bytes (record { parent = parent; name = name }) }
    ensures length { length result ≤ 38 }
{
    let key = CatKey { parent, name };
    let mut bytes = [0; 38];
    key.write(&mut bytes);
    let mut row = FieldRow::new();
    row.push(&bytes[..key.leaf_length()]);
    row
}

/// The root folder's record. All its dates are the moment when the volume is made.
#[tactic(auto, unfolding(crate::specs::NewTrees::root_record))]
fn root_record(volume: &Layout) -> FieldRow
    requires { IsLayout volume.now }
    ensures bytes { result ≡ spec.root_record volume.now }
    ensures length { length result ≤ 108 }
{
    let mut directory = DirRecord::new(2, volume.moment);
    directory.backup = volume.moment;
    let mut bytes = [0; 70];
    directory.write(&mut bytes);
    let mut row = key_row(1, volume.name);
    row.push(&bytes);
    row
}

/// The root folder's thread.
#[tactic(auto, unfolding(crate::specs::NewTrees::root_thread))]
fn root_thread(volume: &Layout) -> FieldRow
    requires { IsLayout volume.now }
    ensures bytes { result ≡ spec.root_thread volume.now }
    ensures length { length result ≤ 84 }
{
    let thread = ThreadRecord::new(ThreadKind::Folder, 1, volume.name);
    let mut bytes = [0; 46];
    thread.write(&mut bytes);
    let empty = Name::of_bytes(&[]).unwrap();
    let mut row = key_row(2, empty);
    row.push(&bytes);
    row
}

/// The catalog's leaf of a new volume.
#[tactic(auto, unfolding(crate::specs::NewTrees::root_leaf))]
pub fn root_leaf_block(volume: &Layout) -> [u8; 512]
    requires { IsLayout volume.now }
    ensures { result ≡ spec.node_bytes (spec.root_leaf volume.now) }
{
    leaf_block(&root_record(volume), &root_thread(volume))
}
