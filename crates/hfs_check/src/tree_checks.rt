//! The checks of the two trees, each with the result that mounting gives.
ghost use Rattle.std.specs.Prelude.{◌≡◌, ◌*◌, ◌≤◌, OnOk, IfOk, length};
ghost use Rattle.hfs_btree_checks.specs.Shape.{shape_fault};
ghost use Rattle.hfs_btree_checks.specs.Order.{order_fault};
ghost use Rattle.hfs_btree.specs.Sound.{IsShaped};
ghost use Rattle.hfs_space.specs.TreeKeys.{ext_keys};
ghost use Rattle.hfs_catalog.specs.Tree.{cat_keys};
ghost use Rattle.hfs_check.specs.Faults.{check_fault, is_fork_key};
ghost use Rattle.hfs_check.specs.Answers.{Answers, extents_tree_fault, IsAnswerTo, fork_key_fault};

use crate::mount_fault::MountFault;
use hfs_btree::Nodes;
use hfs_btree_checks::{KeyTest, ShapedTree, TreeFault, check_shape};
use hfs_fields::{CatKey, ExtKey};
use std::alloc::Global;

/// The fault that the check of a tree, with this number, gives for a fault of the tree.
fn answer_of(number: u8, fault: TreeFault) -> MountFault
    ensures { IsAnswerTo fault number result }
{
    match fault {
        TreeFault::At(node) => MountFault::Check {
            number,
            place: u64::from(node),
        },
        TreeFault::Memory => MountFault::Memory,
    }
}

/// The check of the shape of the catalog tree in a file of `size` bytes (drCTFlSize).
pub(crate) fn check_catalog_shape<N: Nodes>(
    alloc: Global,
    nodes: &N,
    size: u32,
) -> Result<(), MountFault>
    requires { size ≤ 512 * length (N.nodes nodes.now) }
    ensures fault { Answers (check_fault 4 (shape_fault cat_keys size (N.nodes nodes.now))) result }
    ensures shaped { OnOk result (IsShaped cat_keys size (N.nodes nodes.now)) }
{
    match check_shape::<CatKey, N>(alloc, nodes, size) {
        Ok(()) => Ok(()),
        Err(fault) => Err(answer_of(4, fault)),
    }
}

/// The test that a key of the extents tree is of the data or of the resource fork.
struct IsForkKey;

impl KeyTest<ExtKey> for IsForkKey {
    ghost passes = { λ _ key. is_fork_key key };

    fn passes(&self, key: &ExtKey) -> bool {
        key.fork == 0 || key.fork == 255
    }
}

/// The extents tree in a file of `size` bytes (drXTFlSize), if it has its shape.
fn check_extents_shape<N: Nodes>(
    alloc: Global,
    nodes: &N,
    size: u32,
) -> Result<ShapedTree<'_, ExtKey, N>, MountFault>
    requires { size ≤ 512 * length (N.nodes nodes.now) }
    ensures fault { Answers (check_fault 3 (shape_fault ext_keys size (N.nodes nodes.now))) result }
    ensures nodes { IfOk result (λ tree. tree.nodes.now ≡ nodes.now) }
{
    match ShapedTree::<ExtKey, N>::of(alloc, nodes, size) {
        Ok(tree) => Ok(tree),
        Err(fault) => Err(answer_of(3, fault)),
    }
}

/// The check of the forks in the keys of the extents tree.
fn check_fork_keys<N: Nodes>(
    alloc: Global,
    tree: &ShapedTree<'_, ExtKey, N>,
) -> Result<(), MountFault>
    ensures { Answers (check_fault 3 (fork_key_fault (N.nodes tree.now.nodes.now))) result }
{
    match tree.check_keys(alloc, &IsForkKey) {
        Ok(()) => Ok(()),
        Err(fault) => Err(answer_of(3, fault)),
    }
}

/// The check of the order of the extents tree.
fn check_extents_order<N: Nodes>(tree: &ShapedTree<'_, ExtKey, N>) -> Result<(), MountFault>
    ensures { Answers (check_fault 3 (order_fault ext_keys (N.nodes tree.now.nodes.now))) result }
{
    match tree.check_order() {
        Ok(()) => Ok(()),
        Err(fault) => Err(answer_of(3, fault)),
    }
}

/// The check of the extents tree in a file of `size` bytes: its shape, the forks in its keys, its order.
pub fn check_extents_tree<N: Nodes>(alloc: Global, nodes: &N, size: u32) -> Result<(), MountFault>
    requires { size ≤ 512 * length (N.nodes nodes.now) }
    ensures { Answers (check_fault 3 (extents_tree_fault size (N.nodes nodes.now))) result }
{
    let tree = check_extents_shape(alloc, nodes, size)?;
    check_fork_keys(alloc, &tree)?;
    check_extents_order(&tree)
}
