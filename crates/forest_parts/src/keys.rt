//! Nodes by their keys.
ghost use Rattle.std.specs.Prelude.{◌≡◌, ◌<◌, length, slice_get, Some};

use indexmap::IndexSet;
use leo_items::NearHasher;
use recognizer_model::NodeKey;
use std::hash::BuildHasherDefault;

/// Keys of nodes, in the order of their numbers. Those of near places are looked up near each other.
pub type NodeKeys = IndexSet<NodeKey, BuildHasherDefault<NearHasher>>;

/// What a node stands for.
pub fn key_at(keys: &[NodeKey], node: usize) -> NodeKey
    requires { node < length keys.now }
    ensures { slice_get keys.now node ≡ Some result }
{
    keys[node]
}
