ghost use Rattle.std.specs.Prelude.{◌≡◌, [], ◌∷◌, None, Some};
ghost use Rattle.examples_computed.specs.Choices.{block_names, four_trips, line_names, lines_first, no_deadhead, stated_first};
ghost use Rattle.feed_desk.specs.Plans.{plan_at};
ghost use Rattle.feed_likings.specs.Likings.{lines_by, nexts_by};

/// What the trips say by which links are liked: T3 is next after T1 as the feed states it, and T4 after T2. The lines have the numbers of
/// their first trips.
pub fn a_stated_feed()
    ensures nexts { nexts_by block_names four_trips ≡ Some 2 ∷ Some 3 ∷ None ∷ None ∷ [] }
    ensures lines { lines_by line_names four_trips ≡ Some 0 ∷ Some 1 ∷ Some 1 ∷ Some 0 ∷ [] }
{}

/// Both plans have two vehicles and no empty minute. That of stated neighbours is taken, or that of lines, where these go first.
pub fn a_choice()
    ensures stated { (plan_at four_trips [] no_deadhead stated_first 0).next ≡ Some 2 ∷ Some 3 ∷ None ∷ None ∷ [] }
    ensures lines { (plan_at four_trips [] no_deadhead lines_first 0).next ≡ Some 3 ∷ Some 2 ∷ None ∷ None ∷ [] }
{}
