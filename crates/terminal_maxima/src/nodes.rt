ghost use Rattle.std.specs.Prelude.{◌≡◌, ◌+◌, ◌*◌, ◌<◌, ◌≤◌, drop, IfOk, All, slice_set, vec_len};
ghost use Rattle.terminal_maxima.specs.Nodes.{IsTree, node_of};
ghost use Rattle.terminal_maxima.specs.Summary.{MayJoin};

use crate::summary::{LEAVES, Summary};
use desk_io::Steps;
use std::alloc::{AllocError, Global};
use std::sync::ledger::Ledger;

// How many joins are above each leaf.
pub(crate) const DEPTH: usize = 13;

// The nodes of a tree whose leaves are all units. Node 0 is not used.
pub(crate) fn unit_nodes<S: Summary>(alloc: Global, leaves: usize) -> Result<Vec<S>, AllocError>
    requires { leaves ≤ LEAVES }
    ensures tree { IfOk result (λ nodes. IsTree S.sums S.empty S.joined leaves nodes.items) }
    ensures units { IfOk result (λ nodes. All (λ node. node ≡ S.empty) nodes.items) }
{
    let mut nodes = Vec::with_capacity(alloc, 2 * leaves)?;
    for _node in 0..2 * leaves {
        nodes.push(S::unit())?;
    }
    Ok(nodes)
}

// Writes into an inner node the join of the two below it.
fn rejoin<S: Summary>(nodes: &mut Vec<S>, node: usize)
    requires in_range { 2 * node + 1 < vec_len nodes.old }
    requires may_join { MayJoin S.sums (node_of S.empty nodes.old.items (2 * node))
        (node_of S.empty nodes.old.items (2 * node + 1)) }
    ensures { nodes.new.items ≡ slice_set nodes.old.items node
        (S.joined (node_of S.empty nodes.old.items (2 * node))
        (node_of S.empty nodes.old.items (2 * node + 1))) }
{
    let left = nodes[2 * node];
    let right = nodes[2 * node + 1];
    nodes[node] = left.join(right);
}

// Replaces one leaf, and joins anew every node above it.
pub(crate) fn replace_leaf<S: Summary, L: Ledger>(
    nodes: &mut Vec<S>,
    place: usize,
    leaf: S,
    steps: &mut Steps<L>,
)
    requires tree { IsTree S.sums S.empty S.joined LEAVES nodes.old.items }
    requires in_range { place < LEAVES }
    requires lawful { S.sums leaf 1 }
    ensures tree { IsTree S.sums S.empty S.joined LEAVES nodes.new.items }
    ensures leaves { drop LEAVES nodes.new.items ≡ slice_set (drop LEAVES nodes.old.items) place leaf }
    ensures cost { steps.new ≡ steps.old + 14 }
{
    let mut node = LEAVES + place;
    nodes[node] = leaf;
    steps.tick();
    for _height in 0..DEPTH {
        node /= 2;
        rejoin(nodes, node);
        steps.tick();
    }
}
