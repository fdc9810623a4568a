ghost use Rattle.std.specs.Prelude.{◌≡◌};
ghost use Rattle.gtfs_tables.specs.Papers.{column_name_of, file_name_of};

/// The most bytes that a file may have.
pub const MOST_BYTES: u64 = 536_870_912;

/// The most records that a script of edits may have, and so the most lines of a journal.
pub const MOST_RECORDS: u32 = 65_536;

/// A file that is read.
#[derive(Clone, Copy)]
pub enum Paper {
    Settings,
    Terminals,
    Tolerances,
    Calendar,
    CalendarDates,
    Trips,
    StopTimes,
    Deadheads,
    Depot,
    Pairs,
    Edits,
    PlannerEdits,
    Journal,
    Blocks,
    Prices,
}

impl Paper {
    /// The name by which the file is read and printed.
    pub fn file_name(self) -> &'static str
        ensures { result.now ≡ file_name_of self }
    {
        match self {
            Paper::Settings => "desk.toml",
            Paper::Terminals => "terminals.csv",
            Paper::Tolerances => "tolerances.csv",
            Paper::Calendar => "calendar.txt",
            Paper::CalendarDates => "calendar_dates.txt",
            Paper::Trips => "trips.txt",
            Paper::StopTimes => "stop_times.txt",
            Paper::Deadheads => "deadheads.csv",
            Paper::Depot => "depot.csv",
            Paper::Pairs => "pairs.csv",
            Paper::Edits => "edits.csv",
            Paper::PlannerEdits => "planner_edits.csv",
            Paper::Journal => "journal",
            Paper::Blocks => "blocks.csv",
            Paper::Prices => "prices.csv",
        }
    }
}

/// A column that is asked of a file, or any other.
#[derive(Clone, Copy)]
pub enum Column {
    StopId,
    Terminal,
    TripId,
    Early,
    Late,
    Monday,
    Tuesday,
    Wednesday,
    Thursday,
    Friday,
    Saturday,
    Sunday,
    StartDate,
    EndDate,
    Date,
    ExceptionType,
    ServiceId,
    RouteId,
    BlockId,
    ArrivalTime,
    DepartureTime,
    StopSequence,
    From,
    To,
    Minutes,
    PullOut,
    PullIn,
    Before,
    After,
    Rule,
    Deadhead,
    Leave,
    Enter,
    /// A column of another name, or one that is not the first of its name.
    Other,
}

impl Column {
    /// The name of the column in a header, as it is printed; `field` for any other.
    pub fn name(self) -> &'static str
        ensures { result.now ≡ column_name_of self }
    {
        match self {
            Column::StopId => "stop_id",
            Column::Terminal => "terminal",
            Column::TripId => "trip_id",
            Column::Early => "early",
            Column::Late => "late",
            Column::Monday => "monday",
            Column::Tuesday => "tuesday",
            Column::Wednesday => "wednesday",
            Column::Thursday => "thursday",
            Column::Friday => "friday",
            Column::Saturday => "saturday",
            Column::Sunday => "sunday",
            Column::StartDate => "start_date",
            Column::EndDate => "end_date",
            Column::Date => "date",
            Column::ExceptionType => "exception_type",
            Column::ServiceId => "service_id",
            Column::RouteId => "route_id",
            Column::BlockId => "block_id",
            Column::ArrivalTime => "arrival_time",
            Column::DepartureTime => "departure_time",
            Column::StopSequence => "stop_sequence",
            Column::From => "from",
            Column::To => "to",
            Column::Minutes => "minutes",
            Column::PullOut => "pull_out",
            Column::PullIn => "pull_in",
            Column::Before => "before",
            Column::After => "after",
            Column::Rule => "rule",
            Column::Deadhead => "deadhead",
            Column::Leave => "leave",
            Column::Enter => "enter",
            Column::Other => "field",
        }
    }
}
