ghost use Rattle.std.specs.Prelude.{◌≡◌, ◌<◌, pos, neg_ℤ, ◌≤ℤ◌};
ghost use Rattle.terminal_maxima.specs.MaxPrefix.{SumsLeaves};
ghost use Rattle.terminal_maxima.specs.declared.max_prefix.TheConstants.{MOST_CHANGE};

use crate::{MaxPrefix, Summary, Tree};
use desk_io::{Memory, Steps};
use std::alloc::Global;
use std::marker::Brand;
use std::sync::ledger::{Blank, Ledger};
use std::test::Fail;

// The greatest of the leaves.
impl Summary for u16 {
    ghost use Rattle.std.specs.Prelude.{max};
    ghost use Rattle.std.proofs.Common.{arith};

    ghost sums = { λ _ _. Unit {0} };

    ghost empty = { 0 };

    ghost joined = { max };

    ghost laws = { record {
      sums_none = tt;
      sums_one = tt;
      sums_join = λ x y m n a b within. tt;
      assoc = λ x y z k m n a b c within. Prim.omega arith;
      unit_left = λ x n sums within. Prim.omega arith;
      unit_right = λ x n sums within. Prim.omega arith;
    } };

    fn unit() -> u16 {
        0
    }

    fn join(self, right: u16) -> u16 {
        self.max(right)
    }
}

// A leaf that adds so much.
fn adding(sum: i32) -> MaxPrefix
    requires low { neg_ℤ (pos MOST_CHANGE) ≤ℤ sum }
    requires high { sum ≤ℤ pos MOST_CHANGE }
    ensures { SumsLeaves result 1 }
{
    MaxPrefix {
        sum,
        high: sum.max(0),
    }
}

// A value that is looked for, the first place to reach it, and the first from place 8 on.
type Row = (i32, Option<u16>, Option<u16>);

const ROWS: &[Row] = &[
    (5, Some(7), Some(8)),
    (6, Some(8191), Some(8191)),
    (7, None, None),
];

// A tree of sums with 5 at place 7, -3 at place 4096 and 4 at place 8191: its greatest prefix sum, and the first places to reach
// a value, in the ledger that the blank becomes.
fn found<L: Ledger>(
    alloc: Global,
    value: i32,
    blank: Blank,
) -> Result<(i32, Option<u16>, Option<u16>), Memory>
    requires name { blank.name ≡ L.name }
    requires parts { blank.parts ≡ L.parts }
    requires shared { 0 < blank.parts }
{
    let mut steps = Steps::<L>::open(blank);
    let mut tree: Tree<MaxPrefix> = Tree::open(alloc)?;
    tree.set(7, adding(5), &mut steps);
    tree.set(4096, adding(-3), &mut steps);
    tree.set(8191, adding(4), &mut steps);
    Ok((
        tree.greatest_prefix(),
        tree.first_reaching(value),
        tree.first_from(8, value),
    ))
}

#[test]
fn a_tree_of_sums_finds_places(rt: HostRuntime) -> Result<(), Fail> {
    let alloc = rt.alloc();
    for (value, first, later) in ROWS.iter().copied() {
        let answers = found::<Brand>(alloc, value, Blank::new(1))?;
        assert!(rt; answers == (6, first, later));
    }
    Ok(())
}

// The greatest of the leaves of a tree with 7 at place 0 and 9 at place 8191. Then that of the tree with 1 in the place of the
// 9.
fn greatest<L: Ledger>(alloc: Global, blank: Blank) -> Result<(u16, u16), Memory>
    requires name { blank.name ≡ L.name }
    requires parts { blank.parts ≡ L.parts }
    requires shared { 0 < blank.parts }
{
    let mut steps = Steps::<L>::open(blank);
    let mut tree: Tree<u16> = Tree::open(alloc)?;
    tree.set(0, 7, &mut steps);
    tree.set(8191, 9, &mut steps);
    let before = tree.whole();
    tree.set(8191, 1, &mut steps);
    Ok((before, tree.whole()))
}

#[test]
fn a_tree_of_greatest_leaves(rt: HostRuntime) -> Result<(), Fail> {
    let (before, after) = greatest::<Brand>(rt.alloc(), Blank::new(1))?;
    assert!(rt; before == 9);
    assert!(rt; after == 7);
    Ok(())
}
