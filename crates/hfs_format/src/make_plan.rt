//! The plan of a new volume.
ghost use Rattle.std.specs.Prelude.{◌≡◌, ◌≤◌, MatchResult, MatchOption};
ghost use Rattle.std.specs.Option.{SomeIff};
ghost use Rattle.hfs_format.specs.Image.{IsImageOf};
ghost use Rattle.hfs_format.specs.Plan.{HasFault};
ghost use Rattle.hfs_format.specs.declared.format_fault.FormatFault.{FormatFault};
ghost use Rattle.hfs_format.specs.declared.format_fault.FormatFault.TheVariants as format;
ghost use Rattle.hfs_format.specs.Plans as spec;
ghost use Rattle.hfs_format.specs.Plans.{HasNoBlocks, IsFormatFault, IsMadeFor, IsPlanFault, IsSizeFor};

use crate::catalog::catalog_nodes;
use crate::make_fault::MakeFault;
use crate::new_volume::NewVolume;
use crate::size::chosen_blocks;
use crate::{FormatFault, FormatPlan, PlannedImage};
use std::alloc::Global;

/// How many nodes the catalog gets; None if they are more than a volume of 2 GB has blocks.
fn few_nodes(volume: &NewVolume<'_>) -> Option<u32>
    ensures { SomeIff result (spec.nodes_of volume.now ≤ 4194304) (spec.nodes_of volume.now) }
{
    let name_len = volume.name.name.bytes().len() as u8;
    let nodes = catalog_nodes(name_len, volume.items, volume.catalog_times);
    if nodes > 4_194_304 {
        return None;
    }
    Some(nodes as u32)
}

/// How many blocks of 512 bytes the volume gets with a catalog of `nodes` nodes.
fn size_blocks(volume: &NewVolume<'_>, nodes: u32) -> Option<u32>
    ensures { MatchOption result (HasNoBlocks volume.now nodes) (IsSizeFor volume.now nodes) }
{
    match volume.size {
        Some(size) => Some(size.blocks),
        None => chosen_blocks(nodes, volume.items),
    }
}

/// The image of a plan that has no fault, or needs more room than there is.
fn image_of(plan: &FormatPlan) -> Result<PlannedImage, MakeFault>
    requires { (fault : FormatFault) → HasFault plan.now fault → fault ≡ format.NoRoom }
    ensures { MatchResult result (IsImageOf plan.entry.now) (IsFormatFault plan.entry.now) }
{
    match PlannedImage::of(plan) {
        Ok(image) => Ok(image),
        Err(fault) => match fault {
            FormatFault::NoRoom => Err(MakeFault::NoRoom),
            FormatFault::BadName => unreachable!(),
            FormatFault::BadSize => unreachable!(),
            FormatFault::BadNodes => unreachable!(),
            FormatFault::Memory => unreachable!(),
        },
    }
}

/// The image of a new, empty volume. Errors: `NoRoom` if no volume of up to 2 GB can hold all items, or if the size that was
/// asked for has no room even for the trees; `Memory`.
pub fn plan_volume(alloc: Global, volume: &NewVolume<'_>) -> Result<PlannedImage, MakeFault>
    ensures { MatchResult result (IsMadeFor volume.now) (IsPlanFault volume.now) }
{
    let Some(nodes) = few_nodes(volume) else {
        return Err(MakeFault::NoRoom);
    };
    let Some(blocks) = size_blocks(volume, nodes) else {
        return Err(MakeFault::NoRoom);
    };
    let Ok(name) = Vec::from_slice(alloc, volume.name.name.bytes()) else {
        return Err(MakeFault::Memory);
    };
    let plan = FormatPlan {
        name,
        blocks,
        extents_nodes: 8,
        catalog_nodes: nodes,
        now: volume.moment,
    };
    image_of(&plan)
}
