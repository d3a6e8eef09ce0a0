//! Trees that have their shape, and the checks that build on it.

ghost use Rattle.std.specs.Prelude.{◌≡◌, ◌*◌, ◌≤◌, None, OnOk, IfOk, length};
ghost use Rattle.hfs_btree.specs.Header.{tree_content};
ghost use Rattle.hfs_btree.specs.Sound.{IsOrdered};
ghost use Rattle.hfs_btree_checks.specs.Order.{key_fault, leaf_order_fault, order_fault, rise_fault};
ghost use Rattle.hfs_btree_checks.specs.Shape.{shape_fault};
ghost use Rattle.hfs_btree_checks.specs.Laws.{OrderedIffFaultless};
ghost use Rattle.hfs_btree_checks.specs.ShapeSteps.{FindsFault, FindsPlace};

use crate::fault::TreeFault;
use crate::key_levels::check_keys;
use crate::key_test::KeyTest;
use crate::order::check_order;
use crate::order_leaves::{leaf_order_fault, rise_fault};
use crate::shape::check_shape;
use hfs_btree::{Key, Nodes};
use std::alloc::Global;
use std::marker::PhantomData;

/// A tree that has its shape, as `check_shape` says.
#[derive(Drop)]
pub struct ShapedTree<'a, K: Key, N: Nodes> {
    /// The nodes of the tree's file.
    pub nodes: &'a N,
    /// How many bytes the file has.
    pub size: u32,
    keys: PhantomData<K>,
    ghost shaped: { shape_fault K.Key size (N.nodes nodes.now) ≡ None },
}

impl<'a, K: Key, N: Nodes> ShapedTree<'a, K, N> {
    /// The tree in a file of `size` bytes, if it has its shape.
    ///
    /// Errors: those of `check_shape`.
    pub fn of(alloc: Global, nodes: &'a N, size: u32) -> Result<ShapedTree<'a, K, N>, TreeFault>
        requires { size ≤ 512 * length (N.nodes nodes.now) }
        ensures fault { FindsFault (shape_fault K.Key size (N.nodes nodes.now)) result }
        ensures nodes { IfOk result (λ tree. tree.nodes.now ≡ nodes.now) }
    {
        check_shape::<K, N>(alloc, nodes, size)?;
        Ok(ShapedTree {
            nodes,
            size,
            keys: PhantomData,
        })
    }

    /// Checks that the tree is in order.
    ///
    /// The rules come in this order: each index key is at most its child's least leaf key, and above the greatest of the previous
    /// child in its node; each leaf key is above all leaf keys before it. In a tree that is in order, each leaf is read twice and
    /// each index node once. Takes no memory.
    ///
    /// Errors: `TreeFault::At(n)` if node `n` is the first, level by level, whose keys are not in order; never
    /// `TreeFault::Memory`.
    ///
    /// Source: Inside Macintosh: Files, chapter 2, 'B*-trees'; docs/CHECKS.md has the rules.
    pub fn check_order(&self) -> Result<(), TreeFault>
        ensures place { FindsPlace (order_fault K.Key (N.nodes self.now.nodes.now)) result }
        ensures ordered { OnOk result (IsOrdered K.Key (N.nodes self.now.nodes.now)) }
        ensures law { OrderedIffFaultless K.Key (N.nodes self.now.nodes.now) }
    {
        check_order::<K, N>(self.nodes)
    }

    /// Checks that each key of the tree passes a test: the keys of its index nodes and those of its leaves.
    ///
    /// Reads each node once, level by level, and keeps the node numbers of a level.
    ///
    /// Errors: `TreeFault::At(n)` if node `n` is the first, level by level, with a key that doesn't pass. `TreeFault::Memory` if
    /// memory was refused.
    pub fn check_keys<T: KeyTest<K>>(&self, alloc: Global, test: &T) -> Result<(), TreeFault>
        ensures { FindsFault
            (key_fault K.Key (N.nodes self.now.nodes.now) (T.passes test.now)) result }
    {
        check_keys::<K, N, T>(alloc, self.nodes, test)
    }

    /// The number, counted from 0, of the first leaf record whose key doesn't rise above those of all leaf records before it;
    /// None if the leaf keys strictly rise.
    ///
    /// Reads the header node and each leaf once, compares each key with the one before it, and takes no memory.
    ///
    /// Source: Inside Macintosh: Files, chapter 2, 'B*-trees': records are in the order of their keys.
    pub fn rise_fault(&self) -> Option<usize>
        ensures { result ≡ rise_fault K.compare (tree_content K.Key (N.nodes self.now.nodes.now)) }
    {
        rise_fault::<K, N>(self.nodes)
    }

    /// The number of the leaf with the first key that doesn't rise above all leaf keys before it; None if the leaf keys strictly
    /// rise. If two keys don't rise, it is the leaf of the later one.
    ///
    /// Reads the header node and each leaf once, and takes no memory.
    ///
    /// Source: Inside Macintosh: Files, chapter 2, 'B*-trees': records are in the order of their keys.
    pub fn leaf_order_fault(&self) -> Option<u32>
        ensures { result ≡ leaf_order_fault K.Key (N.nodes self.now.nodes.now) }
    {
        leaf_order_fault::<K, N>(self.nodes)
    }
}
