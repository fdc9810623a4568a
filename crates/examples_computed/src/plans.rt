ghost use Rattle.std.specs.Prelude.{◌≡◌, [], ◌∷◌, ◌++◌, codes, length};
ghost use Rattle.block_build.specs.Files.{blocks_text, prices_text};
ghost use Rattle.block_names.specs.Names.{names_of};
ghost use Rattle.examples_computed.specs.Names.{numbered_by_b};
ghost use Rattle.desk_core.specs.Counts.{blocks_in, minutes_in};
ghost use Rattle.desk_feed.specs.Numbers.{numbers_line};
ghost use Rattle.examples_computed.specs.Claims.{blocks_file, one_deadhead, one_plan, prices_file, two_trips};
ghost use Rattle.feed_desk.specs.Plans.{fixed_number, plan_at};
ghost use Rattle.plan_choice.specs.Likings.{nothing_liked};

/// Of `examples/depot`, without a script: the second trip follows the first.
pub fn a_plan()
    ensures { plan_at two_trips [] one_deadhead nothing_liked 0 ≡ one_plan }
{}

/// Without deadheads the day needs two vehicles. The plan has one, with 10 empty minutes out, 20 between the trips and 15 home.
pub fn a_line()
    ensures { numbers_line (fixed_number two_trips) (length (blocks_in two_trips one_plan)) (minutes_in two_trips one_deadhead one_plan)
        ≡ codes "fixed 2, vehicles 1, minutes 45" ++ 10 ∷ [] }
{}

/// The bytes of `blocks.csv`.
pub fn a_file_of_blocks()
    ensures { let blocks = blocks_in two_trips one_plan in
        blocks_text two_trips one_deadhead (names_of numbered_by_b blocks) blocks ≡ blocks_file }
{}

/// The bytes of `prices.csv`.
pub fn a_file_of_prices()
    ensures { prices_text two_trips one_plan.leave one_plan.enter ≡ prices_file }
{}
