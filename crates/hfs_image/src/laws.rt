//! What the needed blocks of a volume decide, each law as the contract of a function that does nothing.
ghost use Rattle.hfs_image.specs.Laws.{NeededIsEnough, NeededOfImages};
ghost use Rattle.hfs_image.specs.Marked.{MarkedNodesDecide};

use hfs_btree::Key;

/// If trees agree on the header node, the chain of map nodes as far as it is one, and the nodes that the map marks, then their
/// shapes have the same first fault; without one, they hold the same in the same order. So an unmarked node decides nothing: in a
/// level it fails at its own number whatever it holds, unless a node before it fails, and outside the levels nothing reads it.
pub fn marked_nodes_decide<K: Key>()
    ensures { MarkedNodesDecide K.Key }
{}

/// If volumes of equally many blocks agree on the blocks that the first one needs, they have the same first fault; without one,
/// they have the same report and the same items, except for the bytes of forks.
pub fn needed_is_enough()
    ensures { NeededIsEnough }
{}

/// If images of equally many bytes agree in this way, they have the same first fault and the same report; if they are sound, they
/// have the same volume, except for the bytes of forks.
pub fn needed_of_images()
    ensures { NeededOfImages }
{}
