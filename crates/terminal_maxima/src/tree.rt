ghost use Rattle.std.specs.Prelude.{◌≡◌, ◌+◌, ◌<◌, length, fold, IfOk, Some, All, slice_get, slice_set};

use crate::nodes::{replace_leaf, unit_nodes};
use crate::summary::{LEAVES, Summary};
use desk_io::{Memory, Steps};
use std::alloc::Global;
use std::marker::Model;
use std::sync::ledger::Ledger;

/// A summary for each of the 8,192 minutes of a service day, seen as the list of these, the leaves.
///
/// A place is the number of a leaf, from 0 to 8,191.
pub struct Tree<S: Summary> {
    pub(crate) nodes: Vec<S>,
}

impl<S: Summary + Drop> Drop for Tree<S> {
    fn drop(self) {
        let Self { nodes: _ } = self;
    }
}

impl<S: Summary> Model for Tree<S> {
    ghost use Rattle.std.specs.Prelude.{List, drop};
    ghost use Rattle.terminal_maxima.specs.declared.summary.TheConstants.{LEAVES};
    ghost use Rattle.terminal_maxima.specs.Nodes.{IsTree};

    ghost Value = { List S };

    ghost view = { λ t. drop LEAVES t.nodes.items };

    ghost invariant = { λ t. IsTree S.sums S.empty S.joined LEAVES t.nodes.items };
}

impl<S: Summary> Tree<S> {
    /// A tree whose leaves are all units. It takes all the memory that it will ever need.
    pub fn open(alloc: Global) -> Result<Tree<S>, Memory>
        ensures count { IfOk result (λ tree. length tree ≡ LEAVES) }
        ensures units { IfOk result (All (λ leaf. leaf ≡ S.empty)) }
    {
        let nodes = unit_nodes(alloc, LEAVES)?;
        Ok(Tree { nodes })
    }

    /// Replaces the leaf of a place. A step is one node that is written, and the tree has 14 levels.
    pub fn set<L: Ledger>(&mut self, place: u16, leaf: S, steps: &mut Steps<L>)
        requires in_range { place < LEAVES }
        requires lawful { S.sums leaf 1 }
        ensures replaced { self.new ≡ slice_set self.old place leaf }
        ensures cost { steps.new ≡ steps.old + 14 }
    {
        replace_leaf(&mut self.nodes, usize::from(place), leaf, steps);
    }

    /// The leaf of a place.
    pub fn leaf(&self, place: u16) -> S
        requires { place < LEAVES }
        ensures found { slice_get self.now place ≡ Some result }
        ensures lawful { S.sums result 1 }
    {
        self.nodes[LEAVES + usize::from(place)]
    }

    /// The summary of all leaves, in their order.
    pub fn whole(&self) -> S
        ensures folded { result ≡ fold S.joined S.empty self.now }
        ensures lawful { S.sums result LEAVES }
        ensures count { length self.now ≡ LEAVES }
        ensures leaves { All (λ leaf. S.sums leaf 1) self.now }
    {
        self.nodes[1]
    }
}
