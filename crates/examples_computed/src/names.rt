ghost use Rattle.std.specs.Prelude.{◌≡◌, [], ◌∷◌, Some, None, codes};
ghost use Rattle.block_names.specs.Names.{asks_for, names_of, taken_by};
ghost use Rattle.examples_computed.specs.Names.{four_blocks, numbered_by_b, stated_by_seven};

/// Of four blocks the first has a trip of E and one of B2, the second one of each of E, B2 and F, the third one of none, and the last
/// one of B2. E and B2 ask for the first block, which is the first of those that have as many of their trips, and F asks for the
/// second. The first block takes E, since its first trip is of E.
pub fn a_tie_of_names()
    ensures e { asks_for stated_by_seven.stated four_blocks (codes "E") ≡ Some 0 }
    ensures b { asks_for stated_by_seven.stated four_blocks (codes "B2") ≡ Some 0 }
    ensures f { asks_for stated_by_seven.stated four_blocks (codes "F") ≡ Some 1 }
    ensures first { taken_by stated_by_seven.stated four_blocks 0 ≡ Some (codes "E") }
    ensures third { taken_by stated_by_seven.stated four_blocks 2 ≡ None }
{}

/// The blocks that take no name have numbers. B2 is passed over, since the feed states it.
pub fn names_of_blocks()
    ensures stated { names_of stated_by_seven four_blocks ≡ codes "E" ∷ codes "F" ∷ codes "B1" ∷ codes "B3" ∷ [] }
    ensures numbered { names_of numbered_by_b four_blocks ≡ codes "B1" ∷ codes "B2" ∷ codes "B3" ∷ codes "B4" ∷ [] }
{}
