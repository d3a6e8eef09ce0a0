//! Whether the catalog has the free nodes that a call needs.

ghost use Rattle.std.specs.Prelude.{◌≡◌, ◌<◌, ◌^◌, IfNone};
ghost use Rattle.hfs_btree.specs.Header.{header_in};
ghost use Rattle.hfs_catalog.specs.Tree.{IsCatalogTree};
ghost use Rattle.hfs_record_edits.specs.Rooms.{HasRoom, HasRoomForTwo};
ghost use Rattle.hfs_check.specs.Parts.{catalog_nodes};
ghost use Rattle.hfs_model.specs.declared.journal.Want.TheVariants as want;
ghost use Rattle.hfs_model.specs.Need.{one_record, two_records};
ghost use Rattle.hfs_call_edits.specs.declared.editing.Refusal.TheVariants as refusal;
ghost use Rattle.hfs_call_edits.specs.Room.{lacking};

use crate::editing::{Editing, Refusal};
use hfs_blocks::Blocks;
use hfs_btree::{Nodes, read_header};
use hfs_model::Want;

/// The free nodes that one more record needs in a tree of `depth` levels.
fn one_record(depth: u16) -> u64
    ensures { result ≡ one_record depth }
{
    if depth >= 16 {
        return 4_294_967_296;
    }
    u64::from(depth) + 1
}

/// The free nodes that a folder and its thread need in a tree of `depth` levels.
fn two_records(depth: u16) -> u64
    ensures { result ≡ two_records depth }
{
    if depth >= 15 {
        return 4_294_967_296;
    }
    2 * u64::from(depth) + 3
}

/// The refusal of a call that needs more nodes than are free in a tree of `depth` levels.
fn full(free: u32, depth: u16) -> Refusal
    ensures { result ≡ refusal.Want (want.Nodes free depth) }
{
    Refusal::Want(Want::Nodes {
        free,
        depth: u32::from(depth),
    })
}

/// The refusal of a call that needs room for one more record, if the tree has fewer free nodes than that may take.
pub(crate) fn lacks_one<N: Nodes>(nodes: &N) -> Option<Refusal>
    requires { IsCatalogTree (N.nodes nodes.now) }
    ensures refusal { result ≡ lacking one_record (N.nodes nodes.now) }
    ensures room { IfNone result (HasRoom (N.nodes nodes.now)) }
    ensures records { (header_in (N.nodes nodes.now)).records < 2 ^ 32 }
{
    let header = read_header(nodes);
    if u64::from(header.free_nodes) < one_record(header.depth) {
        return Some(full(header.free_nodes, header.depth));
    }
    None
}

/// The refusal of a call that needs room for a folder and its thread, if the tree has fewer free nodes than these may take.
pub(crate) fn lacks_two<N: Nodes>(nodes: &N) -> Option<Refusal>
    requires { IsCatalogTree (N.nodes nodes.now) }
    ensures refusal { result ≡ lacking two_records (N.nodes nodes.now) }
    ensures room { IfNone result (HasRoomForTwo (N.nodes nodes.now)) }
    ensures records { (header_in (N.nodes nodes.now)).records < 2 ^ 32 }
{
    let header = read_header(nodes);
    if u64::from(header.free_nodes) < two_records(header.depth) {
        return Some(full(header.free_nodes, header.depth));
    }
    None
}

impl<B: Blocks> Editing<'_, B> {
    /// The refusal of a call that needs room for one more record, if there is too little.
    pub(crate) fn lacks_one(&self) -> Option<Refusal>
        ensures refusal { result ≡ lacking one_record (catalog_nodes (B.blocks self.now)) }
        ensures room { IfNone result (HasRoom (catalog_nodes (B.blocks self.now))) }
        ensures records { (header_in (catalog_nodes (B.blocks self.now))).records < 2 ^ 32 }
    {
        lacks_one(&self.nodes())
    }

    /// The refusal of a call that needs room for a folder and its thread, if there is too little.
    pub(crate) fn lacks_two(&self) -> Option<Refusal>
        ensures refusal { result ≡ lacking two_records (catalog_nodes (B.blocks self.now)) }
        ensures room { IfNone result (HasRoomForTwo (catalog_nodes (B.blocks self.now))) }
        ensures records { (header_in (catalog_nodes (B.blocks self.now))).records < 2 ^ 32 }
    {
        lacks_two(&self.nodes())
    }
}
