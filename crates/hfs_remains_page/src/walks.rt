//! The way through the tree of a page.
ghost use Rattle.std.specs.Prelude.{◌≡◌, ◌++◌, ◌+◌, IfOk, OnOk, length, map, reverse};
ghost use Rattle.hfs_remains_page.specs.Trees as spec;
ghost use Rattle.hfs_remains_page.specs.Walks.{AreBelow, deeper, step_at};

use crate::lists::lists_of;
use crate::steps::Step;
use crate::trees::{root_of, top_node};
use hfs_remains_places::Thing;
use hfs_rescue_items::Found;
use std::alloc::{AllocError, Global};

/// How many open folders are counted; more of them make no difference.
const MOST_OPEN: usize = 100;

/// How many are directly below a node.
#[tactic(auto, unfolding(crate::specs::Trees::inside))]
fn count_inside(things: &[Thing], lists: &[Vec<usize>], node: usize) -> usize
    requires long { length lists.now ≡ length things.now + 3 }
    requires below { AreBelow (spec.up things.now) (length things.now) lists.now }
    ensures { result ≡ length (spec.inside things.now node) }
{
    if node < lists.len() {
        lists[node].len()
    } else {
        0
    }
}

/// The step to a node with this many above it.
fn step_of(things: &[Thing], lists: &[Vec<usize>], depth: usize, node: usize) -> Step
    requires long { length lists.now ≡ length things.now + 3 }
    requires below { AreBelow (spec.up things.now) (length things.now) lists.now }
    ensures { result ≡ step_at (spec.inside things.now) depth node }
{
    Step {
        node,
        depth,
        inside: count_inside(things, lists, node),
    }
}

/// How many are above what is one level deeper.
fn deeper(depth: usize) -> usize
    ensures { result ≡ deeper depth }
{
    if depth < MOST_OPEN { depth + 1 } else { depth }
}

/// Pushes the steps to some nodes on the others, the first on top.
#[tactic(auto, using(crate::proofs::TreeLemmas::steps_more, crate::proofs::TreeLemmas::steps_all, crate::proofs::TreeLemmas::steps_none))]
fn push_steps(
    things: &[Thing],
    lists: &[Vec<usize>],
    stack: &mut Vec<Step>,
    depth: usize,
    nodes: &[usize],
) -> Result<(), AllocError>
    requires long { length lists.now ≡ length things.now + 3 }
    requires below { AreBelow (spec.up things.now) (length things.now) lists.now }
    ensures { OnOk result (stack.new.items ≡ stack.old.items
        ++ reverse (map (step_at (spec.inside things.now) depth) nodes.now)) }
{
    let mut left = nodes.len();
    while left > 0 {
        left -= 1;
        stack.push(step_of(things, lists, depth, nodes[left]))?;
    }
    Ok(())
}

/// Pushes the steps to what is directly below a node on the others, the first on top.
#[tactic(auto, unfolding(crate::specs::Trees::inside))]
fn push_inside(
    things: &[Thing],
    lists: &[Vec<usize>],
    stack: &mut Vec<Step>,
    depth: usize,
    node: usize,
) -> Result<(), AllocError>
    requires long { length lists.now ≡ length things.now + 3 }
    requires below { AreBelow (spec.up things.now) (length things.now) lists.now }
    ensures { OnOk result (stack.new.items ≡ stack.old.items
        ++ reverse (map (step_at (spec.inside things.now) depth) (spec.inside things.now node))) }
{
    if node >= lists.len() {
        return Ok(());
    }
    push_steps(things, lists, stack, depth, &lists[node])
}

/// Appends the way through a node that has none above it, and everything below it.
#[tactic(auto, using(crate::proofs::TreeLemmas::walk_none, crate::proofs::TreeLemmas::walk_zero, crate::proofs::TreeLemmas::walk_more, crate::proofs::TreeLemmas::walk_begins))]
fn push_walk(
    alloc: Global,
    things: &[Thing],
    lists: &[Vec<usize>],
    order: &mut Vec<Step>,
    node: usize,
) -> Result<(), AllocError>
    requires long { length lists.now ≡ length things.now + 3 }
    requires below { AreBelow (spec.up things.now) (length things.now) lists.now }
    ensures { OnOk result (order.new.items ≡ order.old.items ++ spec.walk_from things.now node) }
{
    let mut stack = Vec::new(alloc);
    stack.push(step_of(things, lists, 0, node))?;
    let mut left = lists.len();
    while left > 0 {
        let Some(step) = stack.pop() else {
            return Ok(());
        };
        order.push(step)?;
        push_inside(things, lists, &mut stack, deeper(step.depth), step.node)?;
        left -= 1;
    }
    Ok(())
}

/// The same if something is below the node, otherwise nothing.
fn push_walk_if(
    alloc: Global,
    things: &[Thing],
    lists: &[Vec<usize>],
    order: &mut Vec<Step>,
    node: usize,
) -> Result<(), AllocError>
    requires long { length lists.now ≡ length things.now + 3 }
    requires below { AreBelow (spec.up things.now) (length things.now) lists.now }
    ensures { OnOk result (order.new.items ≡ order.old.items ++ spec.walk_if things.now node) }
{
    if count_inside(things, lists, node) == 0 {
        return Ok(());
    }
    push_walk(alloc, things, lists, order, node)
}

/// The order of the tree: the root with everything in it, what is lost, and what is old. Fails only when out of memory.
#[tactic(auto, unfolding(crate::specs::Trees::tree_order))]
pub(crate) fn tree_order(alloc: Global, found: &Found<'_>) -> Result<Vec<Step>, AllocError>
    ensures { IfOk result (λ order. order.items ≡ spec.tree_order found.now.places.now) }
{
    let things = found.places.things();
    let root = root_of(things);
    let lists = lists_of(alloc, found, things, root)?;
    let mut order = Vec::new(alloc);
    push_walk(alloc, things, &lists, &mut order, top_node(things, root))?;
    push_walk_if(alloc, things, &lists, &mut order, things.len() + 1)?;
    push_walk_if(alloc, things, &lists, &mut order, things.len() + 2)?;
    Ok(order)
}
