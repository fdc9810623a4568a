ghost use Rattle.std.specs.Prelude.{◌≡◌, [], ◌∷◌, codes, false, Ok};
ghost use Rattle.blocks_command.specs.Answers.{answer_text};
ghost use Rattle.desk_feed.specs.Feed.{lines_by};
ghost use Rattle.desk_io.specs.declared.shelf.Found.TheVariants.{File};
ghost use Rattle.examples_computed.specs.Claims.{one_deadhead, two_trips};
ghost use Rattle.examples_computed.specs.Names.{numbered_by_b};
ghost use Rattle.feed_desk.specs.Answers.{answers_by};
ghost use Rattle.feed_desk.specs.Plans.{plan_at};
ghost use Rattle.edit_script.specs.Machine.{machine, numbers_of, timetable_at};
ghost use Rattle.examples_computed.specs.Edits.{answers, one_trip, records, script, script_file};
ghost use Rattle.plan_choice.specs.Likings.{nothing_liked};
ghost use Rattle.trip_model.specs.Timetable.{slot_at};

/// Of one trip that may be 10 minutes late: it is shifted by 5 minutes and cancelled, the cancelling is undone and done again. Then a
/// shift is refused, since the trip does not run.
pub fn a_script()
    ensures standing { numbers_of (machine one_trip records).standing ≡ 1 ∷ 2 ∷ [] }
    ensures undone { numbers_of (machine one_trip records).undone ≡ [] }
    ensures kept { (machine one_trip records).kept ≡ 2 }
    ensures departs { (slot_at (timetable_at one_trip (machine one_trip records)) 0).trip.departs ≡ 365 }
    ensures live { (slot_at (timetable_at one_trip (machine one_trip records)) 0).trip.live ≡ false }
{}

/// The four records of a script for `examples/depot`.
pub fn a_file_of_edits()
    ensures { lines_by (File script_file) ≡ Ok script }
{}

/// What is printed of them. The shift is refused, since no trip may be moved.
pub fn four_answers()
    ensures { answers_by (answer_text one_deadhead numbered_by_b) two_trips script (plan_at two_trips script one_deadhead nothing_liked) 4
        ≡ answers }
{}
