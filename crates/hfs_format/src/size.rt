//! The size of a new volume if none is given.
ghost use Rattle.std.specs.Prelude.{◌≡◌, ◌≤◌, MatchOption};
ghost use Rattle.hfs_format.specs.ChosenSizes as spec;
ghost use Rattle.hfs_format.specs.ChosenSizes.{HasNoSize, IsChosenSize};

use crate::items::NewItem;
use crate::least::least_blocks;

/// How many blocks a volume has at least if `least` would hold everything: a tenth more, and at least 200 more.
#[tactic(auto, unfolding(crate::specs::ChosenSizes::roomy_blocks))]
fn roomy_blocks(least: u32) -> u32
    requires { least ≤ 4194304 }
    ensures { result ≡ spec.roomy_blocks least }
{
    ((11 * least + 9) / 10).max(least + 200)
}

/// The blocks of 512 bytes of a volume with a catalog of `nodes` nodes for these items: the smallest number that holds everything
/// and is at least a tenth, and at least 102,400 bytes, more than the smallest that does. None if there is none up to 2 GB.
pub fn chosen_blocks(nodes: u32, items: &[NewItem]) -> Option<u32>
    ensures { MatchOption result (HasNoSize nodes items.now) (IsChosenSize nodes items.now) }
{
    let least = least_blocks(nodes, items, 0)?;
    least_blocks(nodes, items, roomy_blocks(least))
}
