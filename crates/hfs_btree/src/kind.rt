//! The four types of nodes.
ghost use Rattle.std.specs.Prelude.{◌≡◌, Some};
ghost use Rattle.hfs_btree.specs.Kind.{kind_of, byte_of};

/// What a node is for: ndType of Inside Macintosh: Files, chapter 2, "B*-Trees".
#[derive(Clone, Copy, Debug, PartialEq, Eq)]
pub enum NodeKind {
    /// $00: keys and the nodes below.
    Index,
    /// $01: the tree's first node.
    Header,
    /// $02: a part of the map of used nodes.
    Map,
    /// $FF: keys and their data.
    Leaf,
}

/// The kind with this type byte.
#[tactic(auto, unfolding(crate::specs::Kind::kind_of))]
pub(crate) fn kind_from(byte: u8) -> Option<NodeKind>
    ensures { result ≡ kind_of byte }
{
    match byte {
        0 => Some(NodeKind::Index),
        1 => Some(NodeKind::Header),
        2 => Some(NodeKind::Map),
        255 => Some(NodeKind::Leaf),
        _ => None,
    }
}

impl NodeKind {
    /// The type byte of the kind (ndType).
    #[tactic(auto, unfolding(crate::specs::Kind::kind_of))]
    pub fn byte(self) -> u8
        ensures byte { result ≡ byte_of self }
        ensures back { kind_of result ≡ Some self }
    {
        match self {
            NodeKind::Index => 0,
            NodeKind::Header => 1,
            NodeKind::Map => 2,
            NodeKind::Leaf => 255,
        }
    }
}
