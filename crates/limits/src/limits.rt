ghost use Rattle.std.specs.Prelude.{◌≡◌};

use assignment_model::{MOST_DEADHEAD, VEHICLE_WEIGHT};
use chart_text::{COLUMN_MINUTES, LAST_COLUMN};
use claim_files::MOST_SHOWN;
use deadhead_matrix::LONGEST_WALK;
use desk_settings::{MOST_CLASS, MOST_PREFIX};
use edit_script::{MOST_SHIFT, MOST_SHOWS};
use feed_sample::MOST_SAMPLE;
use gtfs_tables::{LAST_SECOND, MOST_BYTES, MOST_RECORDS};
use joined_deficits::MOST_MOVES;
use pair_rules::MOST_RULES;
use planner_desk::MOST_PLANNER_EDITS;
use price_check::MOST_PRICE;
use terminal_maxima::{LEAVES, MOST_CHANGE};
use trip_model::{
    LAST_DEPARTURE, LAST_END, LAST_MINUTE, MINUTES, MOST_LAYOVER, MOST_PLACES, MOST_SLOTS,
    MOST_TOLERANCE,
};
use undo_log::UNDO_DEPTH;

/// The limits of what is read, counted and printed.
pub struct Limits {
    /// The bytes of a file.
    pub bytes: u64,
    /// The records of a script and of a journal.
    pub records: u32,
    /// The last second of a time, 99:59:59.
    pub last_second: u32,
    /// The places of a timetable.
    pub places: u16,
    /// The trips of a timetable, those that are cancelled too.
    pub trips: u16,
    /// The minutes of a layover.
    pub layover: u16,
    /// The minutes of a tolerance.
    pub tolerance: u8,
    /// The last minute in which a trip may depart, 99:59.
    pub last_departure: u16,
    /// The last minute in which a trip may end, its layover included.
    pub last_end: u16,
    /// The last minute of a deficit function.
    pub last_minute: u16,
    /// The minutes of a deficit function.
    pub minutes: u16,
    /// The leaves of a tree of changes, one for each minute.
    pub leaves: usize,
    /// The minutes of a deadhead, of a pull-out and of a pull-in.
    pub deadhead: u16,
    /// The minutes of a least walk over all places.
    pub walk: u32,
    /// The rules of pairs of trips.
    pub rules: u16,
    /// The minutes of a shift.
    pub shift: u16,
    /// The shows of a script.
    pub shows: u32,
    /// The edits that can be undone.
    pub undos: usize,
    /// The records of several planners.
    pub planner_edits: u32,
    /// The bytes of what the names of blocks begin with.
    pub prefix: usize,
    /// The bytes of a class of vehicles.
    pub class: usize,
    /// A dual price of a claim.
    pub price: u64,
    /// A number that a `no` shows.
    pub shown: u32,
    /// The moves of the blocks of a day, trips and deadheads.
    pub moves: u16,
    /// A value of a deficit, and its changes in a minute.
    pub change: u32,
    /// The minutes of a column of a chart.
    pub column: u16,
    /// The last column of a chart.
    pub last_column: u16,
    /// The trips of a generated feed.
    pub sample: u32,
}

/// The limits, in numbers.
pub fn all_limits() -> Limits
    ensures { result ≡ record {
      bytes = 536870912;
      records = 65536;
      last_second = 359999;
      places = 512;
      trips = 4096;
      layover = 240;
      tolerance = 60;
      last_departure = 5999;
      last_end = 6240;
      last_minute = 8191;
      minutes = 8192;
      leaves = 8192;
      deadhead = 1440;
      walk = 735840;
      rules = 32768;
      shift = 120;
      shows = 64;
      undos = 256;
      planner_edits = 4096;
      prefix = 32;
      class = 16;
      price = 999999999999;
      shown = 999999;
      moves = 8191;
      change = 65536;
      column = 10;
      last_column = 630;
      sample = 4096;
    } }
{
    Limits {
        bytes: MOST_BYTES,
        records: MOST_RECORDS,
        last_second: LAST_SECOND,
        places: MOST_PLACES,
        trips: MOST_SLOTS,
        layover: MOST_LAYOVER,
        tolerance: MOST_TOLERANCE,
        last_departure: LAST_DEPARTURE,
        last_end: LAST_END,
        last_minute: LAST_MINUTE,
        minutes: MINUTES,
        leaves: LEAVES,
        deadhead: MOST_DEADHEAD,
        walk: LONGEST_WALK,
        rules: MOST_RULES,
        shift: MOST_SHIFT,
        shows: MOST_SHOWS,
        undos: UNDO_DEPTH,
        planner_edits: MOST_PLANNER_EDITS,
        prefix: MOST_PREFIX,
        class: MOST_CLASS,
        price: MOST_PRICE,
        shown: MOST_SHOWN,
        moves: MOST_MOVES,
        change: MOST_CHANGE,
        column: COLUMN_MINUTES,
        last_column: LAST_COLUMN,
        sample: MOST_SAMPLE,
    }
}

/// What a vehicle saved weighs beside a minute, in minutes.
pub fn weight_of_a_vehicle() -> u64
    ensures { result ≡ 67108864 }
{
    VEHICLE_WEIGHT
}
