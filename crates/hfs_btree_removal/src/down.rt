//! The way from the root down to a pair, step by step.

ghost use Rattle.std.specs.Prelude.{◌≡◌, ◌<◌, ◌-◌, suc, true, IfOk, MatchOption, length, drop};
ghost use Rattle.hfs_btree_edits.specs.Conditions.{IsThere};
ghost use Rattle.hfs_btree.specs.Header.{header_in, depth_of, tree_content};
ghost use Rattle.hfs_fields.specs.Each.{Each};
ghost use Rattle.hfs_btree.specs.Pairs.{lookup};
ghost use Rattle.hfs_btree.specs.Search.{branch_place};
ghost use Rattle.hfs_btree.specs.Sound.{IsSound};
ghost use Rattle.hfs_btree.specs.Tree.{records_of};
ghost use Rattle.hfs_btree_removal.specs.Ways.{IsWayTo, IsLastWide, AreNarrow, child_in};
ghost use Rattle.hfs_btree.specs.Node.{node_of};

use hfs_btree::{Header, Key, Nodes, child_of, count_in, entry_in, place_above, view};
use hfs_btree_edits::place_of;
use std::alloc::{AllocError, Global};

/// A node on the way from the root to a pair.
#[derive(Clone, Copy)]
pub(crate) struct Step {
    /// The node's number.
    pub node: u32,
    /// Which of its records leads on, or, in the leaf, is the pair's.
    pub place: usize,
    /// How many records it has.
    pub count: usize,
}

/// The child that an index node's record names.
pub(crate) fn child_at<K: Key>(bytes: &[u8; 512], place: usize) -> u32
    requires within { place < length (records_of (node_of bytes.now)) }
    requires whole { Each (λ entry. K.is_index entry ≡ true) (records_of (node_of bytes.now)) }
    ensures { result ≡ child_in K.Key bytes.now place }
{
    match entry_in(bytes, place) {
        Some(entry) => child_of::<K>(entry),
        None => unreachable!(),
    }
}

/// Which record of an index node leads on to a key, how many records the node has, and the child.
#[derive(Clone, Copy)]
struct Branch {
    place: usize,
    count: usize,
    child: u32,
}

/// Where the search for a key goes on in an index node.
fn branch_in<K: Key>(bytes: &[u8; 512], key: &K) -> Branch
    requires some { 0 < length (records_of (node_of bytes.now)) }
    requires whole { Each (λ entry. K.is_index entry ≡ true) (records_of (node_of bytes.now)) }
    ensures place { result.place ≡ branch_place K.Key key.now bytes.now }
    ensures count { result.count ≡ length (records_of (node_of bytes.now)) }
    ensures child { result.child ≡ child_in K.Key bytes.now result.place }
{
    match view(bytes) {
        Ok(node) => {
            let place = place_above(&node, key).saturating_sub(1);
            let child = child_of::<K>(node.record(place));
            Branch {
                place,
                count: node.len(),
                child,
            }
        }
        Err(_) => unreachable!(),
    }
}

/// The way to the pair with this key, root first, in a tree that has the pair.
pub(crate) fn steps_to<K: Key, N: Nodes>(
    alloc: Global,
    nodes: &N,
    header: &Header,
    key: &K,
) -> Result<Vec<Step>, AllocError>
    requires sound { IsSound K.Key (N.nodes nodes.now) }
    requires header { header.now ≡ header_in (N.nodes nodes.now) }
    requires some { 0 < depth_of (N.nodes nodes.now) }
    requires there { IsThere (lookup K.compare key.now (tree_content K.Key (N.nodes nodes.now))) }
    ensures { IfOk result (λ steps. IsWayTo K.Key (N.nodes nodes.now) key.now steps.items) }
{
    let mut steps = Vec::with_capacity(alloc, header.depth as usize)?;
    let mut bytes = [0; 512];
    let mut n = header.root;
    let mut below = header.depth - 1;
    nodes.read(n, &mut bytes);
    while below > 0 {
        let branch = branch_in(&bytes, key);
        steps.push(Step {
            node: n,
            place: branch.place,
            count: branch.count,
        })?;
        n = branch.child;
        below -= 1;
        nodes.read(n, &mut bytes);
    }
    let place = place_of(&bytes, key);
    let count = count_in(&bytes);
    steps.push(Step {
        node: n,
        place,
        count,
    })?;
    Ok(steps)
}

/// The last step whose node has a record besides the one on the way.
pub(crate) fn last_wide(steps: &[Step]) -> Option<usize>
    ensures { MatchOption result (AreNarrow steps.now) (IsLastWide steps.now) }
{
    for i in 0..steps.len() {
        let at = steps.len() - 1 - i;
        if steps[at].count > 1 {
            return Some(at);
        }
    }
    None
}
