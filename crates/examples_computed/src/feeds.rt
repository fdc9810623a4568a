ghost use Rattle.std.specs.Prelude.{◌≡◌, [], ◌∷◌, ◌++◌, codes, Err, Ok};
ghost use Rattle.desk_feed.specs.Feed.{said_by, said_with};
ghost use Rattle.desk_settings.specs.Desk.{standard_desk};
ghost use Rattle.desk_settings.specs.Settings.{settings_with};
ghost use Rattle.examples_computed.specs.Claims.{one_deadhead, two_trips};
ghost use Rattle.examples_computed.specs.Feeds.{depot, nothing};
ghost use Rattle.gtfs_tables.specs.Faults.{feed_line_of};
ghost use Rattle.gtfs_tables.specs.declared.fault.FeedFault.TheVariants as fault;
ghost use Rattle.gtfs_tables.specs.declared.paper.Column.TheVariants as column;
ghost use Rattle.gtfs_tables.specs.declared.paper.Paper.TheVariants as paper;

/// Where no file is there, `trips.txt` is the one that is asked for.
#[tactic(auto, unfolding(desk_feed::specs::Feed::said_by))]
pub fn a_refused_feed()
    ensures { said_by nothing ≡ Err (fault.Missing paper.Trips) }
{}

/// The line of a refused record.
pub fn a_refusal()
    ensures { feed_line_of (fault.BadTime paper.StopTimes 4 column.ArrivalTime)
        ≡ codes "feed refused: stop_times.txt record 4: bad arrival_time" ++ 10 ∷ [] }
{}

/// What the four files of `examples/depot` say: the standard settings, the two trips, one deadhead, the pulls of each place, no rules of
/// pairs, and no script.
pub fn a_feed()
    ensures { said_by depot ≡ Ok (said_with (settings_with standard_desk [] []) two_trips one_deadhead.entries one_deadhead.pulls [] []) }
{}
