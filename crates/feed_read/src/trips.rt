ghost use Rattle.std.specs.Prelude.{◌≡◌, ◌<◌, false, length, OnOk, option_map};
ghost use Rattle.gtfs_tables.specs.Entries.{Name};
ghost use Rattle.gtfs_tables.specs.Papers.{IsWithinLimit};
ghost use Rattle.gtfs_tables.specs.Reading.{Gives};
ghost use Rattle.trip_model.specs.declared.limits.TheConstants.{MOST_SLOTS};
ghost use Rattle.trip_model.specs.Place.{has_slash};
ghost use Rattle.desk_settings.specs.Names.{is_among};
ghost use Rattle.feed_read.specs.Trips as spec;

use crate::selection::Selection;
use desk_io::{Found, Memory, Text};
use desk_settings::{Names, Settings};
use gtfs_tables::{
    Column, FeedFault, Paper, RecordReader, Row, column_in, filled_in, read_records, text_in,
};
use std::alloc::Global;
use trip_model::MOST_SLOTS;

/// Where the required columns of `trips.txt` are.
#[derive(Clone, Copy)]
pub(crate) struct Columns {
    service: usize,
    trip: usize,
}

/// The same where vehicles are of classes, with the column of the routes that have them.
#[derive(Clone, Copy)]
pub(crate) struct ClassedColumns {
    columns: Columns,
    route: usize,
}

impl Selection {
    // No trips.
    fn new(alloc: Global) -> Selection
        ensures { spec.seen result ≡ spec.nothing_selected }
    {
        Selection {
            names: Names::new(alloc),
            classes: Vec::new(alloc),
        }
    }

    // Refuses a selected record without a name, or of a name that was selected before, or that comes after the most.
    #[tactic(auto, unfolding(crate::specs::Trips::with_selected))]
    fn judge(&self, number: u32, name: &str) -> Result<(), FeedFault>
        ensures gives { (class : Name) → Gives (λ _. spec.selected_with (spec.seen self.now) name.now class) result
            (spec.with_selected number (spec.seen self.now) name.now class) }
        ensures new { OnOk result (is_among name.now self.now.names ≡ false) }
        ensures room { OnOk result (length self.now.names < MOST_SLOTS) }
    {
        filled_in(Paper::Trips, number, Column::TripId, name)?;
        if self.names.has(name) {
            return Err(FeedFault::DuplicateRow(Paper::Trips, number));
        }
        if self.names.len() >= usize::from(MOST_SLOTS) {
            return Err(FeedFault::TooManyTrips(number));
        }
        Ok(())
    }

    // Appends a trip with its class. The class comes first, so that each name has one even if there is no memory for the name.
    fn push(&mut self, name: &str, class: &str) -> Result<(), Memory>
        requires new { is_among name.now self.old.names ≡ false }
        requires room { length self.old.names < MOST_SLOTS }
        requires class { has_slash class.now ≡ false }
        ensures { OnOk result (spec.seen self.new ≡ spec.selected_with (spec.seen self.old) name.now class.now) }
    {
        let alloc = *self.classes.allocator();
        self.classes.push(Text::of(alloc, class)?)?;
        self.names.add(name)
    }

    // Adds the trip of a selected record.
    fn add(&mut self, number: u32, name: &str, class: &str) -> Result<(), FeedFault>
        requires { has_slash class.now ≡ false }
        ensures { Gives (λ _. spec.seen self.new) result (spec.with_selected number (spec.seen self.old) name.now class.now) }
    {
        self.judge(number, name)?;
        Ok(self.push(name, class)?)
    }
}

#[tactic(auto, unfolding(crate::specs::Trips::columns_in))]
fn columns_in(header: &Row) -> Result<Columns, FeedFault>
    ensures { Gives (λ columns. columns) result (spec.columns_in header.now) }
{
    let service = column_in(Paper::Trips, Column::ServiceId, header)?;
    let trip = column_in(Paper::Trips, Column::TripId, header)?;
    Ok(Columns { service, trip })
}

// The name of a record, if its service is chosen.
#[tactic(auto, unfolding(crate::specs::Trips::chosen_in))]
fn chosen_in<'a>(
    settings: &Settings,
    columns: &Columns,
    number: u32,
    row: &'a Row,
) -> Result<Option<&'a str>, FeedFault>
    ensures { Gives (option_map (λ name. name.now)) result (spec.chosen_in settings.now columns.now number row.now) }
{
    let service = text_in(
        Paper::Trips,
        number,
        Column::ServiceId,
        row.field(columns.service),
    )?;
    let name = text_in(
        Paper::Trips,
        number,
        Column::TripId,
        row.field(columns.trip),
    )?;
    if settings.chosen(service) {
        Ok(Some(name))
    } else {
        Ok(None)
    }
}

// The selected records that were read, where vehicles are of no classes.
#[derive(Drop)]
struct Trips<'a> {
    settings: &'a Settings,
    selection: Selection,
}

impl<'a> RecordReader for Trips<'a> {
    ghost use Rattle.feed_read.specs.Trips as spec;
    ghost use Rattle.feed_read.specs.Trips.{Selected};

    type Columns = Columns;

    ghost State = { Selected };

    ghost state = { λ read. spec.seen read.selection };

    ghost columns_in = { spec.columns_in };

    ghost step = { λ read. spec.with_trip read.settings.now };

    fn columns(&self, header: &Row) -> Result<Columns, FeedFault> {
        columns_in(header)
    }

    #[tactic(auto, unfolding(crate::specs::Trips::with_trip))]
    fn record(&mut self, columns: &Columns, number: u32, row: &Row) -> Result<(), FeedFault> {
        match chosen_in(self.settings, columns, number, row)? {
            Some(name) => self.selection.add(number, name, ""),
            None => Ok(()),
        }
    }
}

// The same where vehicles are of the classes of routes.
#[derive(Drop)]
struct ClassedTrips<'a> {
    trips: Trips<'a>,
}

impl<'a> RecordReader for ClassedTrips<'a> {
    ghost use Rattle.feed_read.specs.Trips as spec;
    ghost use Rattle.feed_read.specs.Trips.{Selected};

    type Columns = ClassedColumns;

    ghost State = { Selected };

    ghost state = { λ read. spec.seen read.trips.selection };

    ghost columns_in = { spec.classed_columns_in };

    ghost step = { λ read. spec.with_classed_trip read.trips.settings.now };

    #[tactic(auto, unfolding(crate::specs::Trips::classed_columns_in))]
    fn columns(&self, header: &Row) -> Result<ClassedColumns, FeedFault> {
        let columns = columns_in(header)?;
        let route = column_in(Paper::Trips, Column::RouteId, header)?;
        Ok(ClassedColumns { columns, route })
    }

    #[tactic(auto, unfolding(crate::specs::Trips::with_classed_trip))]
    fn record(
        &mut self,
        columns: &ClassedColumns,
        number: u32,
        row: &Row,
    ) -> Result<(), FeedFault> {
        let Some(name) = chosen_in(self.trips.settings, &columns.columns, number, row)? else {
            return Ok(());
        };
        let route = text_in(
            Paper::Trips,
            number,
            Column::RouteId,
            row.field(columns.route),
        )?;
        let class = self.trips.settings.class(route);
        self.trips.selection.add(number, name, class)
    }
}

/// The selected trips of the file, in the order of its records, each with its class.
pub(crate) fn trips_in(
    alloc: Global,
    settings: &Settings,
    found: &Found,
) -> Result<Selection, FeedFault>
    requires { IsWithinLimit found.now }
    ensures { Gives spec.seen result (spec.trips_in settings.now found.now) }
{
    let trips = Trips {
        settings,
        selection: Selection::new(alloc),
    };
    if settings.classed() {
        let read = read_records(alloc, Paper::Trips, found, ClassedTrips { trips })?;
        Ok(read.trips.selection)
    } else {
        let read = read_records(alloc, Paper::Trips, found, trips)?;
        Ok(read.selection)
    }
}
