//! Where the parts of a new volume lie.
ghost use Rattle.std.specs.Prelude.{◌≡◌, ℕ, ◌*◌, ◌/◌, ◌<◌, ◌≤◌, ◌+◌, ◌^◌, None, Some, IsTrue, MatchResult, IfSome, length};
ghost use Rattle.std.specs.Option.{SomeIff};
ghost use Rattle.hfs_format.specs.Plan as spec;
ghost use Rattle.hfs_format.specs.Plan.{HasFault, IsLaidOut};

use crate::format_fault::FormatFault;
use crate::format_plan::FormatPlan;
use hfs_fields::Name;

/// The file of a tree.
#[derive(Clone, Copy)]
pub struct TreeFile {
    /// How many allocation blocks it has.
    pub blocks: u16,
    /// How many nodes of 512 bytes it has: as many as the allocation blocks hold.
    pub nodes: u32,
}

/// Where the parts of a new volume lie, and what its blocks hold.
#[derive(Clone, Copy)]
pub struct Layout {
    /// The volume's name, an item name of at most 27 characters.
    pub name: Name,
    /// The moment of all dates, in seconds since midnight, 1 January 1904.
    pub moment: u32,
    /// How many logical blocks of 512 bytes the volume has.
    pub blocks: u32,
    /// How many logical blocks an allocation block has.
    pub factor: u32,
    /// drAlBlSt: the logical block where allocation block 0 begins.
    pub start: u16,
    /// drNmAlBlks: how many allocation blocks the volume has.
    pub allocation_blocks: u16,
    /// The extents file, from allocation block 0 on.
    pub extents: TreeFile,
    /// The catalog file, which follows.
    pub catalog: TreeFile,
}

/// How many logical blocks an allocation block has: the smallest number that leaves at most 65,535 allocation blocks.
#[tactic(auto, unfolding(crate::specs::Plan::block_factor))]
fn block_factor(blocks: u32) -> u32
    requires { blocks ≤ 4194304 }
    ensures value { result ≡ spec.block_factor blocks }
    ensures some { 1 ≤ result }
    ensures few { result ≤ 65 }
    ensures enough { blocks / result < 65536 }
    ensures least { (smaller : ℕ) → 1 ≤ smaller → smaller < result → 65536 ≤ blocks / smaller }
{
    blocks / 65536 + 1
}

/// The logical block where allocation block 0 begins.
#[tactic(auto, unfolding(crate::specs::Plan::allocation_start, crate::specs::Plan::bitmap_blocks))]
fn allocation_start(blocks: u32, factor: u32) -> u16
    requires large { 8 ≤ blocks }
    requires small { blocks / factor < 65536 }
    requires factor { factor ≡ spec.block_factor blocks }
    requires some { 1 ≤ factor }
    ensures value { result ≡ spec.allocation_start blocks }
    ensures few { result ≤ 19 }
    ensures room { result + 2 ≤ blocks }
{
    (3 + (blocks / factor + 4095) / 4096) as u16
}

/// How many allocation blocks `nodes` nodes take.
#[tactic(auto, unfolding(crate::specs::Plan::file_blocks), using(crate::proofs::Rounding::few_blocks))]
fn file_blocks(factor: u32, nodes: u32) -> u64
    requires some { 1 ≤ factor }
    ensures blocks { result ≡ spec.file_blocks factor nodes }
    ensures few { result < 2 ^ 33 }
{
    (u64::from(nodes) + u64::from(factor - 1)) / u64::from(factor)
}

/// The file of `blocks` allocation blocks.
fn tree_file(factor: u32, blocks: u16) -> TreeFile
    requires { factor ≤ 65 }
    ensures { result ≡ record { blocks = blocks; nodes = blocks * factor } }
{
    TreeFile {
        blocks,
        nodes: u32::from(blocks) * factor,
    }
}

/// The files of the extents tree and the catalog with these numbers of nodes. None exactly when they need more allocation blocks
/// than the volume has.
fn tree_files(
    factor: u32,
    room: u16,
    extents_nodes: u32,
    catalog_nodes: u32,
) -> Option<(TreeFile, TreeFile)>
    requires some { 1 ≤ factor }
    requires few { factor ≤ 65 }
    ensures { spec.FindsFiles factor room extents_nodes catalog_nodes result }
{
    let extents = file_blocks(factor, extents_nodes);
    let catalog = file_blocks(factor, catalog_nodes);
    if extents + catalog > u64::from(room) {
        return None;
    }
    Some((
        tree_file(factor, extents as u16),
        tree_file(factor, catalog as u16),
    ))
}

/// The name of a volume. None exactly when it isn't an item name of at most 27 characters.
fn volume_name(bytes: &[u8]) -> Option<Name>
    ensures name { SomeIff result (IsTrue (spec.is_volume_name bytes.now)) bytes.now }
    ensures short { IfSome result (λ name. length name ≤ 27) }
{
    let name = Name::new(bytes)?;
    if bytes.len() > 27 { None } else { Some(name) }
}

/// How many allocation blocks lie between their start and the last two logical blocks.
#[tactic(auto, unfolding(crate::specs::Plan::allocation_blocks))]
fn allocation_blocks(blocks: u32, start: u16, factor: u32) -> u16
    requires small { blocks / factor < 65536 }
    requires start { start ≡ spec.allocation_start blocks }
    requires factor { factor ≡ spec.block_factor blocks }
    requires some { 1 ≤ factor }
    requires room { start + 2 ≤ blocks }
    ensures { result ≡ spec.allocation_blocks blocks }
{
    ((blocks - 2 - start as u32) / factor) as u16
}

impl Layout {
    /// Where the parts of the planned volume lie, or the plan's first fault.
    #[tactic(auto, unfolding(crate::specs::Plan::format_fault, crate::specs::Plan::layout_of))]
    pub fn of(plan: &FormatPlan) -> Result<Layout, FormatFault>
        ensures { MatchResult result (IsLaidOut plan.entry.now) (HasFault plan.entry.now) }
    {
        let Some(name) = volume_name(&plan.name) else {
            return Err(FormatFault::BadName);
        };
        let blocks = plan.blocks;
        if blocks < 8 || blocks > 4_194_304 {
            return Err(FormatFault::BadSize);
        }
        if plan.catalog_nodes < 2 || plan.extents_nodes < 1 {
            return Err(FormatFault::BadNodes);
        }
        let factor = block_factor(blocks);
        let start = allocation_start(blocks, factor);
        let allocation_blocks = allocation_blocks(blocks, start, factor);
        let Some((extents, catalog)) = tree_files(
            factor,
            allocation_blocks,
            plan.extents_nodes,
            plan.catalog_nodes,
        ) else {
            return Err(FormatFault::NoRoom);
        };
        Ok(Layout {
            name,
            moment: plan.now,
            blocks,
            factor,
            start,
            allocation_blocks,
            extents,
            catalog,
        })
    }
}
