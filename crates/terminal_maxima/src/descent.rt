ghost use Rattle.std.specs.Prelude.{◌≡◌, ℕ, ◌+◌, ◌<◌, drop, take, IfSome, IfNone, ◌+ℤ◌, ◌≤ℤ◌, ◌<ℤ◌};
ghost use Rattle.terminal_maxima.specs.MaxPrefix.{SumsLeaves, no_leaf, both};
ghost use Rattle.terminal_maxima.specs.Nodes.{IsTree, IsSpan, node_of};
ghost use Rattle.terminal_maxima.specs.Reaching.{IsFirstReaching, NoneReaches, prefix_sum, total};

use crate::max_prefix::MaxPrefix;
use crate::nodes::DEPTH;
use crate::summary::LEAVES;

// The sum of the leaves up to a place, that place included.
fn sum_to(nodes: &[MaxPrefix], place: usize) -> i32
    requires tree { IsTree SumsLeaves no_leaf both LEAVES nodes.now }
    requires in_range { place < LEAVES }
    ensures { result ≡ prefix_sum (drop LEAVES nodes.now) place }
{
    let mut node = LEAVES + place;
    let mut sum = nodes[node].sum;
    for _height in 0..DEPTH {
        if node % 2 == 1 {
            sum += nodes[node - 1].sum;
        }
        node /= 2;
    }
    sum
}

// The first of the places under a node whose prefix sum reaches the value. All sums before them fall short.
fn descend(
    nodes: &[MaxPrefix],
    mut node: usize,
    mut first: usize,
    mut width: usize,
    mut before: i32,
    value: i32,
) -> usize
    requires tree { IsTree SumsLeaves no_leaf both LEAVES nodes.now }
    requires span { (height : ℕ) × IsSpan DEPTH height node first width }
    requires sum { before ≡ total (take first (drop LEAVES nodes.now)) }
    requires short { before <ℤ value }
    requires reached { value ≤ℤ (before +ℤ (node_of no_leaf nodes.now node).high) }
    ensures { IsFirstReaching (drop LEAVES nodes.now) first value result }
{
    while width > 1 {
        width /= 2;
        node = 2 * node;
        let left = nodes[node];
        if before + left.high < value {
            before += left.sum;
            first += width;
            node += 1;
        }
    }
    first
}

// The first place, not before this one, whose prefix sum reaches the value. It goes up until a node on the right
// reaches it, and then down that node.
pub(crate) fn first_place(nodes: &[MaxPrefix], place: u16, value: i32) -> Option<u16>
    requires tree { IsTree SumsLeaves no_leaf both LEAVES nodes.now }
    requires in_range { place < LEAVES }
    ensures found { IfSome result (IsFirstReaching (drop LEAVES nodes.now) place value) }
    ensures none { IfNone result (NoneReaches (drop LEAVES nodes.now) place value) }
{
    let leaf = usize::from(place);
    let mut sum = sum_to(nodes, leaf);
    if sum >= value {
        return Some(place);
    }
    let mut node = LEAVES + leaf;
    let mut end = leaf + 1;
    let mut width = 1;
    for _height in 0..DEPTH {
        if node % 2 == 0 {
            let right = nodes[node + 1];
            if sum + right.high >= value {
                return Some(descend(nodes, node + 1, end, width, sum, value) as u16);
            }
            sum += right.sum;
            end += width;
        }
        node /= 2;
        width = 2 * width;
    }
    None
}
